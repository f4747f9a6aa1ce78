//! The properties of a revision.
ghost use Rattle.std.specs.Prelude.{◌≡◌, ◌∷◌, [], IfOk, OnOk, codes};
ghost use Rattle.repo_api.specs.{Commits.{asked_properties, revision_properties, with_author}, Properties.with_property, RevisionProperties.property_changed};

use byte_string::ByteString;
use repo_api::{CommitAsk, Properties};
use std::alloc::{AllocError, Global};

/// Makes the properties of revision 0: its date.
pub fn opening_properties(alloc: Global, date: ByteString) -> Result<Properties, AllocError>
    ensures { IfOk result (λ ps. ps ≡ (codes "svn:date", date) ∷ []) }
{
    let mut properties = Properties::new(alloc);
    set(alloc, &mut properties, b"svn:date", date)?;
    Ok(properties)
}

/// Makes the properties of the revision that is asked for.
pub fn revision_properties(alloc: Global, ask: CommitAsk) -> Result<Properties, AllocError>
    ensures { IfOk result (λ ps. ps ≡ revision_properties ask) }
{
    let CommitAsk {
        date,
        author,
        message,
        properties,
        tokens: _,
        keep_locks: _,
    } = ask;
    let mut list = asked_properties(alloc, properties, message)?;
    set(alloc, &mut list, b"svn:date", date)?;
    set_author(alloc, &mut list, author)?;
    Ok(list)
}

/// Makes the properties with this value of the name, and without the name where there is no value.
pub fn changed_property(
    list: &Properties,
    name: ByteString,
    value: Option<ByteString>,
) -> Result<Properties, AllocError>
    ensures { IfOk result (λ ps. ps ≡ property_changed name value list.now) }
{
    let mut list = list.clone()?;
    match value {
        Some(value) => list.set(name, value)?,
        None => list.remove(&name),
    }
    Ok(list)
}

/// Takes the list that was asked for, or makes one of the message alone.
fn asked_properties(
    alloc: Global,
    asked: Option<Properties>,
    message: ByteString,
) -> Result<Properties, AllocError>
    ensures { IfOk result (λ ps. ps ≡ asked_properties asked message) }
{
    if let Some(list) = asked {
        return Ok(list);
    }
    let mut list = Properties::new(alloc);
    set(alloc, &mut list, b"svn:log", message)?;
    Ok(list)
}

/// Sets the author, or takes it out.
fn set_author(
    alloc: Global,
    list: &mut Properties,
    author: Option<ByteString>,
) -> Result<(), AllocError>
    ensures { OnOk result (list.new ≡ with_author author list.old) }
{
    match author {
        Some(user) => set(alloc, list, b"svn:author", user),
        None => {
            list.remove(&ByteString::new(b"svn:author".to_vec(alloc)?));
            Ok(())
        }
    }
}

/// Sets the property of this name in the list: a value that it had is replaced.
fn set(
    alloc: Global,
    list: &mut Properties,
    name: &[u8],
    value: ByteString,
) -> Result<(), AllocError>
    ensures { OnOk result (list.new ≡ with_property list.old name.now value) }
{
    list.set(ByteString::new(name.to_vec(alloc)?), value)
}

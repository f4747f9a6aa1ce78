//! The entry properties that an entry is told.
ghost use Rattle.std.specs.Prelude.{◌≡◌, ◌∷◌, ◌++◌, [], IfOk, IsOkAnd, Some, decimal, option_map};
ghost use Rattle.repo_api.specs.{Kinds.properties_at, Properties.property_value};
ghost use Rattle.wire_replies.specs.Replies.{uuid_text};
ghost use Rattle.drive_news.specs.Parts.{last_changes, revision_property, stale_changes};

use crate::news::PropertyChanges;
use byte_string::{ByteString, Sequence};
use repo_api::{PropertyValue, Repository};
use std::alloc::{AllocError, Global};
use wire_forms::copy_optional;
use wire_replies::{decimal_text, uuid_text};

/// Makes what is told of the revision of an entry's last change, of the repository, and of a stale token.
pub(crate) fn last_changes<R: Repository>(
    alloc: Global,
    view: &R,
    is_stale: bool,
    created: Option<u64>,
) -> Result<PropertyChanges, AllocError>
    ensures { IfOk result (λ changes. changes
        ≡ last_changes (R.content view.now) is_stale created) }
{
    let changes = Sequence::new(alloc);
    let number = number_text(alloc, created);
    let changes = with_change(alloc, changes, b"svn:entry:committed-rev", number)?;
    let date = revision_property(alloc, view, b"svn:date", created);
    let changes = with_change(alloc, changes, b"svn:entry:committed-date", date)?;
    let author = revision_property(alloc, view, b"svn:author", created);
    let changes = with_change(alloc, changes, b"svn:entry:last-author", author)?;
    let uuid = uuid_told(alloc, view.uuid());
    let changes = with_change(alloc, changes, b"svn:entry:uuid", uuid)?;
    with_stale(alloc, changes, is_stale)
}

/// Gives the changes, and then this one, if its value was made.
fn with_change(
    alloc: Global,
    changes: PropertyChanges,
    name: &[u8],
    made: Result<Option<ByteString>, AllocError>,
) -> Result<PropertyChanges, AllocError>
    ensures { IfOk result (λ more. IsOkAnd made (λ value.
        more ≡ changes ++ (name.now, value) ∷ [])) }
{
    let mut changes = changes;
    let name = ByteString::from_slice(alloc, name)?;
    changes.push((name, value_of(alloc, made)?))?;
    Ok(changes)
}

/// Makes a value of these bytes, if there are any and they were made.
fn value_of(
    alloc: Global,
    made: Result<Option<ByteString>, AllocError>,
) -> Result<Option<PropertyValue>, AllocError>
    ensures { IfOk result (λ value. IsOkAnd made (λ bytes. value ≡ bytes)) }
{
    match made? {
        None => Ok(None),
        Some(bytes) => Ok(Some(PropertyValue::new(alloc, bytes)?)),
    }
}

/// Gives the changes, and then that the client's token is taken out, if it is stale.
fn with_stale(
    alloc: Global,
    changes: PropertyChanges,
    is_stale: bool,
) -> Result<PropertyChanges, AllocError>
    ensures { IfOk result (λ more. more ≡ changes ++ stale_changes is_stale) }
{
    if is_stale {
        with_change(alloc, changes, b"svn:entry:lock-token", Ok(None))
    } else {
        Ok(changes)
    }
}

/// Gives the value of a property of a revision, if there is a revision.
fn revision_property<R: Repository>(
    alloc: Global,
    view: &R,
    name: &[u8],
    created: Option<u64>,
) -> Result<Option<ByteString>, AllocError>
    ensures { IfOk result (λ value. value
        ≡ revision_property (R.content view.now) name.now created) }
{
    match created {
        None => Ok(None),
        Some(revision) => value_at(alloc, view, name, revision),
    }
}

/// Gives the value of a property of a revision.
fn value_at<R: Repository>(
    alloc: Global,
    view: &R,
    name: &[u8],
    revision: u64,
) -> Result<Option<ByteString>, AllocError>
    ensures { IfOk result (λ value. value
        ≡ property_value (properties_at (R.content view.now) revision) name.now) }
{
    match view.revision_properties(revision) {
        None => Ok(None),
        Some(properties) => {
            let name = ByteString::from_slice(alloc, name)?;
            copy_optional(properties.get(&name))
        }
    }
}

/// Writes a number in decimal, if there is one.
fn number_text(alloc: Global, number: Option<u64>) -> Result<Option<ByteString>, AllocError>
    ensures { IfOk result (λ text. text ≡ option_map decimal number) }
{
    match number {
        None => Ok(None),
        Some(number) => Ok(Some(decimal_text(alloc, number)?)),
    }
}

/// Writes the UUID of a repository, as what is told of it.
fn uuid_told(alloc: Global, uuid: u128) -> Result<Option<ByteString>, AllocError>
    ensures { IfOk result (λ text. text ≡ Some (uuid_text uuid)) }
{
    Ok(Some(uuid_text(alloc, uuid)?))
}

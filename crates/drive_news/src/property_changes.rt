//! What becomes of an entry's properties.
ghost use Rattle.std.specs.Prelude.{◌≡◌, ◌++◌, Decides, IfOk, map};
ghost use Rattle.drive_rules.specs.Steps.{is_entry_property, property_values};
ghost use Rattle.drive_news.specs.{News.{is_told, names_in_both, property_changes}, Parts.changes_named};

use crate::news::PropertyChanges;
use byte_string::{ByteString, Sequence};
use repo_api::{Properties, is_same_value};
use std::alloc::{AllocError, Global};

/// Says whether the name is that of an entry property.
fn is_entry_property(name: &[u8]) -> bool
    ensures { result ≡ is_entry_property name.now }
{
    name.starts_with(b"svn:entry:".as_slice())
}

/// Says whether a property is told: where it has another value now.
fn is_told(old: &Properties, new: &Properties, name: &ByteString) -> bool
    ensures { result ≡ is_told old.now new.now name.now }
{
    !is_entry_property(name.as_slice()) && !is_same_value(old.get(name), new.get(name))
}

/// Makes the properties that stand in one or the other.
fn in_both(old: &Properties, new: &Properties) -> Result<Properties, AllocError>
    ensures { IfOk result (λ both. map (λ p. p.0) both ≡ names_in_both old.now new.now) }
{
    old.with_all(new)
}

/// Gives the changes, and then what becomes of the properties of these names.
fn with_named(
    changes: PropertyChanges,
    old: &Properties,
    new: &Properties,
    names: &Properties,
) -> Result<PropertyChanges, AllocError>
    ensures { IfOk result (λ more. more
        ≡ changes ++ changes_named old.now new.now (map (λ p. p.0) names.now)) }
{
    let mut changes = changes;
    for (name, _) in names.iter() {
        if is_told(old, new, name) {
            changes.push((name.clone()?, new.value(name)?))?;
        }
    }
    Ok(changes)
}

/// Gives the changes, and then what becomes of the properties. Where there are none, it takes no memory.
pub(crate) fn with_property_changes(
    changes: PropertyChanges,
    old: &Properties,
    new: &Properties,
) -> Result<PropertyChanges, AllocError>
    ensures { IfOk result (λ more. more ≡ changes ++ property_changes old.now new.now) }
{
    if old.is_empty() && new.is_empty() {
        return Ok(changes);
    }
    let names = in_both(old, new)?;
    with_named(changes, old, new, &names)
}

/// Says whether all properties have the same values, entry properties left out.
pub(crate) fn are_same_properties(
    alloc: Global,
    old: &Properties,
    new: &Properties,
) -> Result<bool, AllocError>
    ensures { IfOk result (λ same. Decides same
        (property_values old.now ≡ property_values new.now)) }
{
    let changes = with_property_changes(Sequence::new(alloc), old, new)?;
    Ok(changes.as_slice().is_empty())
}

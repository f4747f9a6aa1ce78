//! What differs in properties.
ghost use Rattle.std.specs.Prelude.{◌≡◌, ◌++◌, IfOk, map};
ghost use Rattle.file_histories.specs.Differing.{differing, differing_of, is_other, names_in_both};

use byte_string::{ByteString, Sequence};
use repo_api::{Properties, PropertyValue, is_same_value};
use std::alloc::{AllocError, Global};

/// Properties by their names, each with its value, or without one where it is gone.
pub type DifferingProperties = Sequence<(ByteString, Option<PropertyValue>)>;

/// Says whether a property has another value now, or has come or gone.
fn is_other(old: &Properties, new: &Properties, name: &ByteString) -> bool
    ensures { result ≡ is_other old.now new.now name.now }
{
    !is_same_value(old.get(name), new.get(name))
}

/// Makes the properties that are in one or the other.
fn in_both(old: &Properties, new: &Properties) -> Result<Properties, AllocError>
    ensures { IfOk result (λ both. map (λ p. p.0) both ≡ names_in_both old.now new.now) }
{
    old.with_all(new)
}

/// Gives those of the properties of these names that differ.
fn differing_of(
    alloc: Global,
    old: &Properties,
    new: &Properties,
    names: &Properties,
) -> Result<DifferingProperties, AllocError>
    ensures { IfOk result (λ found. found
        ≡ differing_of old.now new.now (map (λ p. p.0) names.now)) }
{
    let mut found = Sequence::new(alloc);
    for (name, _) in names.iter() {
        if is_other(old, new, name) {
            found.push((name.clone()?, new.value(name)?))?;
        }
    }
    Ok(found)
}

/// Gives the properties that differ, by their names' bytes, each with the value that it has now, if any.
pub fn differing(
    alloc: Global,
    old: &Properties,
    new: &Properties,
) -> Result<DifferingProperties, AllocError>
    ensures { IfOk result (λ found. found ≡ differing old.now new.now) }
{
    let names = in_both(old, new)?;
    differing_of(alloc, old, new, &names)
}

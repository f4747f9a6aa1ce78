//! What is judged by the number of the youngest revision and by one revision's properties.
ghost use Rattle.std.specs.Prelude.{◌≡◌, option_copied, slice_get};
ghost use Rattle.repo_api.specs.{Kinds.or_empty, Locking.current_refusal, Properties.property_value};
ghost use Rattle.repo_api.specs.{RevisionProperties.{previous_refusal, property_name_refusal, property_refusal}, States.{RepoState, youngest}};

use byte_string::ByteString;
use refusals::Refusal;
use repo_api::{PreviousValue, Properties, PropertyAsk, is_property_name, is_same_value};

/// Refuses a revision that a client cannot have seen: one above the youngest.
pub fn current_refusal(newest: u64, current: Option<u64>) -> Option<Refusal>
    ensures { result ≡ current_refusal newest current }
{
    match current {
        Some(current) if current > newest => Some(Refusal::NoSuchRevision),
        _ => None,
    }
}

/// Refuses a change of a property of a revision, which has these properties: there is no such revision,
/// none has such a name, or the value is another than it has to be.
pub fn property_refusal(
    newest: u64,
    properties: Option<&Properties>,
    ask: &PropertyAsk,
) -> Option<Refusal>
    ensures { (c : RepoState) → youngest c ≡ newest
        → slice_get c.properties ask.now.revision ≡ option_copied properties.entry
        → result ≡ property_refusal c ask.now }
{
    if ask.revision > newest {
        return Some(Refusal::NoSuchRevision);
    }
    if let Some(refusal) = property_name_refusal(ask.name.as_slice()) {
        return Some(refusal);
    }
    previous_refusal(&ask.previous, value_in(properties, &ask.name))
}

/// Gives the value of the property of this name, if there are properties and it is among them.
fn value_in<'a>(properties: Option<&'a Properties>, name: &ByteString) -> Option<&'a ByteString>
    ensures { option_copied result
        ≡ property_value (or_empty (option_copied properties.entry)) name.now }
{
    properties?.get(name)
}

/// Refuses a value that is another than it has to be.
fn previous_refusal(previous: &PreviousValue, value: Option<&ByteString>) -> Option<Refusal>
    ensures { result ≡ previous_refusal previous.now (option_copied value.entry) }
{
    match previous {
        PreviousValue::Exactly(previous) if !is_same_value(value, previous.as_ref()) => {
            Some(Refusal::PreviousValueDiffers)
        }
        _ => None,
    }
}

/// Refuses a name that is none: a property's name has 1 to 255 bytes.
fn property_name_refusal(name: &[u8]) -> Option<Refusal>
    ensures { result ≡ property_name_refusal name.now }
{
    if is_property_name(name) {
        None
    } else {
        Some(Refusal::NotSupported)
    }
}

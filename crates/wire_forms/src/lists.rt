//! Lists of strings, and of numbers.
ghost use Rattle.std.specs.Prelude.{◌≡◌, option_map};
ghost use Rattle.items.specs.View.{value_of, values_of};
ghost use Rattle.wire_forms.specs.{Answering.Reads, Forms.{number_in, numbers, string_in, strings}};

use crate::fault::CommandFault;
use byte_string::{ByteString, Sequence};
use items::Item;
use std::alloc::Global;

/// Strings, as the paths of a log.
pub type Strings = Sequence<ByteString>;

/// Numbers, as the revisions that a client asks for.
pub type Numbers = Sequence<u64>;

/// Reads `string ...`.
pub fn read_strings(alloc: Global, items: &[Item]) -> Result<Strings, CommandFault>
    ensures { Reads result (strings (values_of items.now)) }
{
    let mut strings = Sequence::new(alloc);
    for item in items {
        let text = string_in(item).ok_or(CommandFault::BadParameters)?;
        strings.push(text.clone()?)?;
    }
    Ok(strings)
}

/// Reads `number ...`.
pub fn read_numbers(alloc: Global, items: &[Item]) -> Result<Numbers, CommandFault>
    ensures { Reads result (numbers (values_of items.now)) }
{
    let mut numbers = Sequence::new(alloc);
    for item in items {
        numbers.push(number_in(item).ok_or(CommandFault::BadParameters)?)?;
    }
    Ok(numbers)
}

/// Gives the string that an item is.
fn string_in(item: &Item) -> Option<&ByteString>
    ensures { option_map (λ text. text.now) result ≡ string_in (value_of item.now) }
{
    match item {
        Item::Str(text) => Some(text),
        _ => None,
    }
}

/// Gives the number that an item is.
fn number_in(item: &Item) -> Option<u64>
    ensures { result ≡ number_in (value_of item.now) }
{
    match item {
        Item::Number(n) => Some(*n),
        _ => None,
    }
}

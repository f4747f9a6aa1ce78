//! Pairs of strings.
ghost use Rattle.std.specs.Prelude.{◌≡◌, option_map};
ghost use Rattle.items.specs.View.{value_of, values_of};
ghost use Rattle.wire_forms.specs.{Answering.Reads, Forms.{pair, pairs}};

use crate::fault::CommandFault;
use crate::form::{read_items, read_string};
use byte_string::{ByteString, Sequence};
use items::Item;
use std::alloc::Global;

/// Pairs of strings: paths with tokens, or names with values.
pub type Pairs = Sequence<(ByteString, ByteString)>;

/// Reads `( string string ) ...`.
pub fn read_pairs(alloc: Global, items: &[Item]) -> Result<Pairs, CommandFault>
    ensures { Reads result (pairs (values_of items.now)) }
{
    let mut pairs = Sequence::new(alloc);
    for item in items {
        let (first, second) = read_pair(item).ok_or(CommandFault::BadParameters)?;
        pairs.push((first.clone()?, second.clone()?))?;
    }
    Ok(pairs)
}

/// Reads `( string string )`.
fn read_pair(item: &Item) -> Option<(&ByteString, &ByteString)>
    ensures { option_map (λ p. (p.0.now, p.1.now)) result ≡ pair (value_of item.now) }
{
    let (first, rest) = read_string(read_items(item)?)?;
    let (second, _) = read_string(rest)?;
    Some((first, second))
}

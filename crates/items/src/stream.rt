// The items of a stream that comes in pieces.
ghost use Rattle.std.specs.{Prelude.{◌≡◌, List, ℕ, IfOk, IfErr, OnOk}, List.flat_map};
ghost use Rattle.items.specs.{Stream.Splits, Values.ItemValues, View.values_of, Decoding.{TakesAll, Fails, IsFaultOfStream}};

use crate::item::Item;
use crate::reader::{ItemFault, ItemReader};
use std::alloc::{AllocError, Global};

/// Takes each item that is whole.
fn take_all(reader: &mut ItemReader, items: &mut Vec<Item>) -> Result<(), ItemFault>
    ensures ok { OnOk result (TakesAll reader.old items.old.items items.new.items reader.new) }
    ensures fault { IfErr result (λ e. Fails reader.old items.old.items e) }
{
    'taking: loop {
        match reader.next()? {
            Some(item) => items.push(item).map_err(AllocError::from)?,
            None => return Ok(()),
        }
    }
}

/// Reads the items of a stream that comes in these pieces: the items that are whole, or the fault
/// after them.
pub fn decode(alloc: Global, pieces: &[Vec<u8>]) -> Result<Vec<Item>, ItemFault>
    // Up to a rest that no item begins, the stream is these items.
    ensures split { IfOk result (λ out. (rest : List ℕ)
        × Splits (flat_map (λ piece. piece.items) pieces.now) (values_of out.items) rest) }
    // No other items are, so it doesn't matter how the stream was cut into pieces.
    ensures only { IfOk result (λ out. (others : ItemValues) (rest : List ℕ)
        → Splits (flat_map (λ piece. piece.items) pieces.now) others rest
        → values_of out.items ≡ others) }
    // A fault is the stream's, whatever comes behind it.
    ensures fault { IfErr result
        (λ e. IsFaultOfStream (flat_map (λ piece. piece.items) pieces.now) e) }
{
    let mut reader = ItemReader::new(alloc);
    let mut items = Vec::new(alloc);
    for piece in pieces {
        reader.feed(piece.as_slice())?;
        take_all(&mut reader, &mut items)?;
    }
    Ok(items)
}

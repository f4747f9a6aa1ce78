//! What a stream of bytes brings.
ghost use Rattle.std.specs.Prelude.{◌≡◌, ◌<◌, IfOk, OnErr, MatchOption, Some};
ghost use Rattle.machine.specs.Hearing.{HasNoMore, YieldsFirst};
ghost use Rattle.session.specs.Taking.{input_of, Shortens, IsBrokenFault};

use items::{Item, ItemFault, ItemReader};
use std::alloc::AllocError;

/// An item, or a byte that goes on to none.
#[derive(Drop)]
pub enum Incoming {
    Whole(Item),
    Broken,
}

/// Takes what the stream brings next, if it is there.
pub fn take_incoming(reader: &mut ItemReader) -> Result<Option<Incoming>, AllocError>
    ensures taken { IfOk result (λ found. MatchOption found
        (HasNoMore reader.old.rest × (reader.new ≡ reader.old))
        (λ i. YieldsFirst reader.old.rest (input_of i) reader.new.rest
        × Shortens i reader.old.rest reader.new.rest)) }
    ensures err { OnErr result (reader.new ≡ reader.old) }
{
    match reader.next() {
        Ok(Some(item)) => Ok(Some(Incoming::Whole(item))),
        Ok(None) => Ok(None),
        Err(fault) => broken_or_memory(fault),
    }
}

/// Tells a fault of the stream from being out of memory.
fn broken_or_memory(fault: ItemFault) -> Result<Option<Incoming>, AllocError>
    ensures { IfOk result (λ found. IsBrokenFault fault × (found ≡ Some Incoming.Broken)) }
{
    match fault {
        ItemFault::NoMemory => Err(AllocError),
        ItemFault::Malformed(_) => Ok(Some(Incoming::Broken)),
        ItemFault::TooDeep(_) => Ok(Some(Incoming::Broken)),
        ItemFault::StringTooLong(_) => Ok(Some(Incoming::Broken)),
        ItemFault::NumberTooLarge(_) => Ok(Some(Incoming::Broken)),
    }
}

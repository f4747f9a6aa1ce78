//! A list of calls that clauses alone read.
ghost use Rattle.std.specs.{Prelude.{◌≡◌, List, [], ◌∷◌}, Borrow.ftrue};
ghost use Rattle.store_files.specs.Note.{Event, Known, event_of};

use std::marker::{Model, PhantomData};

/// The files that were there before, and the calls that were made since, the last first. It holds no memory.
#[derive(Drop)]
pub struct Record {
    marker: PhantomData<u8>,
    pub ghost start: { List Known },
    pub ghost events: { List Event },
}

impl Model for Record {
    ghost also_owns = { λ _. ftrue };
}

impl Record {
    /// Makes a record of no calls, whatever files were there.
    pub fn new() -> Record
        ghost was: { List Known }
        ensures { (result.start ≡ was) × (result.events ≡ []) }
    {
        Record {
            marker: PhantomData,
        }
    }

    /// Notes an event. The numbers are those of an `Event`.
    pub fn note(&mut self, _numbers: &[u64], _bytes: &[u8])
        ensures { (self.new.start ≡ self.old.start)
            × (self.new.events ≡ event_of _numbers.now _bytes.now ∷ self.old.events) }
    {}
}

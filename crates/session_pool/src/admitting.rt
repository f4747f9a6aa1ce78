//! Whether one more session may begin.
ghost use Rattle.std.specs.Prelude.{◌-◌, true, false};
ghost use Rattle.session_pool.specs.Places.{IsAdmitted, StateIs};

use crate::admission::Admission;
use crate::places::Places;

impl Places {
    /// Makes so many places: all are free, and there was no session yet.
    pub(crate) fn new(most: u64) -> Places
        ensures { StateIs result most 0 0 false }
    {
        Places {
            most,
            taken: 0,
            begun: 0,
            halted: false,
        }
    }

    /// Says whether one more connection becomes a session, which has a place then.
    pub(crate) fn admit(&mut self) -> Admission
        ensures { IsAdmitted self.old result self.new }
    {
        if self.halted {
            return Admission::Halted;
        }
        if self.taken >= self.most {
            return Admission::Full;
        }
        self.taken += 1;
        self.begun = self.begun.saturating_add(1);
        Admission::Session(self.begun)
    }

    /// Gives a place back.
    pub(crate) fn leave(&mut self)
        ensures { StateIs self.new self.old.most (self.old.taken - 1) self.old.begun self.old.halted }
    {
        self.taken = self.taken.saturating_sub(1);
    }

    /// Lets no session begin any more.
    pub(crate) fn halt(&mut self)
        ensures { StateIs self.new self.old.most self.old.taken self.old.begun true }
    {
        self.halted = true;
    }
}

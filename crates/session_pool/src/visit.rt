//! A caller on its way to a worker.

use crate::attendant::Caller;
use crate::terms::Terms;

/// A caller, with the terms that its session is served by.
pub struct Visit<I, O, P> {
    terms: Terms,
    caller: Caller<I, O, P>,
}

impl<I: Drop, O: Drop, P: Drop> Drop for Visit<I, O, P> {
    fn drop(self) {
        let Visit {
            terms: _,
            caller: _,
        } = self;
    }
}

impl<I, O, P> Visit<I, O, P> {
    ghost use Rattle.std.specs.Prelude.{◌≡◌};

    /// Makes the visit of a caller.
    pub fn new(terms: Terms, caller: Caller<I, O, P>) -> Self
        ensures { result ≡ record { terms = terms; caller = caller } }
    {
        Visit { terms, caller }
    }

    /// Gives its parts.
    pub(crate) fn into_parts(self) -> (Terms, Caller<I, O, P>)
        ensures { result ≡ (self.terms, self.caller) }
    {
        let Visit { terms, caller } = self;
        (terms, caller)
    }
}

//! A revision that a log lists.
ghost use Rattle.traces.specs.Traces.{IsBelow};

use traces::Place;

/// A revision that a log lists, and the place below it from which the log goes on.
#[derive(Debug, Drop)]
pub struct Listed {
    pub revision: u64,
    pub next: Option<Place>,
    ghost below: { IsBelow revision next },
}

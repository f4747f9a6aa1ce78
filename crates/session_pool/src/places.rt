//! How many sessions are open, of how many, and whether the store has failed.
ghost use Rattle.std.specs.Prelude.{◌≤◌};

/// The places of a pool: how many there are, how many are taken, how many sessions there were, and whether the store has
/// failed.
#[derive(Drop)]
pub(crate) struct Places {
    pub(crate) most: u64,
    pub(crate) taken: u64,
    pub(crate) begun: u64,
    pub(crate) halted: bool,
    ghost bounded: { taken ≤ most },
}

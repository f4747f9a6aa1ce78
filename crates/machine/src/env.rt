//! What a call hands in from outside.
ghost use Rattle.std.specs.Prelude.{◌≤◌};
ghost use Rattle.dates.specs.declared.TheConstants.{LAST_MOMENT};

/// What a call hands in from outside: the moment in microseconds since the beginning of 1970, which is one that has
/// a date, and words for lock tokens and challenges. Each use of a word within one call adds 1 to it.
#[derive(Clone, Copy, Debug, PartialEq, Eq)]
pub struct Env {
    pub moment: u64,
    pub token: u128,
    pub nonce: u64,
    ghost dated: { moment ≤ LAST_MOMENT },
}

//! Why a change was not made.
ghost use Rattle.std.specs.Prelude.{◌≡◌};

use refusals::Refusal;
use std::alloc::AllocError;

/// Why a change of a repository was not made.
#[derive(Clone, Copy, Debug, PartialEq, Eq)]
pub enum ChangeFault {
    /// The rules of the repository refuse it.
    Refused(Refusal),
    /// The store could not write it. Nothing was changed, and the store goes on.
    StoreFailed,
    /// The store could not say whether it was written. No change is made any more.
    Halted,
    /// Memory was refused. Nothing was changed.
    NoMemory,
}

impl From<AllocError> for ChangeFault {
    ghost use Rattle.std.specs.Prelude.{◌≡◌};
    ghost use Rattle.repo_api.specs.declared.fault.ChangeFault.TheVariants.{NoMemory};

    ghost from_gives = { λ _ fault. fault ≡ NoMemory };

    fn from(_error: AllocError) -> Self {
        ChangeFault::NoMemory
    }
}

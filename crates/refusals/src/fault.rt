//! Why a command was not carried out.

use crate::{Refusal, path_refusal};
use std::alloc::{AllocError, AllocFailed};
use svnpath::{Path, PathFault};

/// Why a command was not carried out.
#[derive(Clone, Copy, Debug, PartialEq, Eq)]
pub enum NotDone {
    /// The command is refused.
    Refused(Refusal),
    /// Memory was refused. Nothing was changed.
    NoMemory,
}

impl From<AllocError> for NotDone {
    ghost use Rattle.std.specs.Prelude.{◌≡◌};
    ghost use Rattle.refusals.specs.declared.fault.NotDone.TheVariants.{NoMemory};

    ghost from_gives = { λ _ fault. fault ≡ NoMemory };

    fn from(_error: AllocError) -> Self {
        NotDone::NoMemory
    }
}

impl<T: Drop> From<AllocFailed<T>> for NotDone {
    ghost use Rattle.std.specs.Prelude.{◌≡◌};
    ghost use Rattle.refusals.specs.declared.fault.NotDone.TheVariants.{NoMemory};

    ghost from_gives = { λ _ fault. fault ≡ NoMemory };

    fn from(_refused: AllocFailed<T>) -> Self {
        NotDone::NoMemory
    }
}

impl From<PathFault> for NotDone {
    ghost use Rattle.std.specs.Prelude.{◌≡◌};
    ghost use Rattle.refusals.specs.Faults.{fault_of_path};

    ghost from_gives = { λ path_fault fault. fault ≡ fault_of_path path_fault };

    fn from(fault: PathFault) -> Self {
        match fault {
            PathFault::NoMemory => NotDone::NoMemory,
            _ => NotDone::Refused(path_refusal(fault)),
        }
    }
}

/// Why a command was not carried out, and where.
#[derive(Debug, Drop)]
pub enum NotDoneAt {
    /// The command is refused, at this path if it is one of a path.
    Refused(Refusal, Option<Path>),
    /// Memory was refused. Nothing was changed.
    NoMemory,
}

impl From<AllocError> for NotDoneAt {
    ghost use Rattle.std.specs.Prelude.{◌≡◌};
    ghost use Rattle.refusals.specs.declared.fault.NotDoneAt.TheVariants.{NoMemory};

    ghost from_gives = { λ _ fault. fault ≡ NoMemory };

    fn from(_error: AllocError) -> Self {
        NotDoneAt::NoMemory
    }
}

//! Why a text names no path of the repository.
ghost use Rattle.std.specs.Prelude.{◌≡◌};
ghost use Rattle.svnpath.specs.declared.fault.PathFault.TheVariants.{NoMemory};

use std::alloc::{AllocError, AllocFailed};
use thiserror::Error;

/// Why a text or a URL names no path of the repository.
#[derive(Clone, Copy, Debug, PartialEq, Eq, Error)]
pub enum PathFault {
    /// A component without bytes, as between the slashes of `a//b`.
    #[error("empty path component")]
    EmptyComponent,
    /// A component that holds NUL, a line feed or `/`, that is `.` or `..`, or that is not UTF-8;
    /// or a text that has to begin with `/` and does not.
    #[error("forbidden path component")]
    ForbiddenComponent,
    /// A component of more than 255 bytes.
    #[error("path component too long")]
    TooLong,
    /// A path of more than 64 components.
    #[error("path too deep")]
    TooDeep,
    /// A URL that is none, or none of this repository.
    #[error("not a URL of this repository")]
    NotThisRepository,
    /// The allocator had no memory. It says nothing of the text.
    #[error("out of memory")]
    NoMemory,
}

impl From<AllocError> for PathFault {
    ghost from_gives = { λ _ fault. fault ≡ NoMemory };

    fn from(_refused: AllocError) -> PathFault {
        PathFault::NoMemory
    }
}

impl<T: Drop> From<AllocFailed<T>> for PathFault {
    ghost from_gives = { λ _ fault. fault ≡ NoMemory };

    fn from(_refused: AllocFailed<T>) -> PathFault {
        PathFault::NoMemory
    }
}

//! Why a file of the folder can't be read.

use std::alloc::{AllocError, AllocFailed};
use thiserror::Error;

/// Says what is wrong with a file of the folder, or that there was no memory.
#[derive(Clone, Copy, Debug, PartialEq, Eq, Error)]
pub enum FileFault {
    /// It ends within a line or within a text whose length stands before it.
    #[error("a file is cut short")]
    Truncated,
    /// A line, or what it says, is of another form.
    #[error("a line is malformed")]
    BadLine,
    /// A representation that isn't plain.
    #[error("a representation is a delta")]
    Delta,
    /// The bytes of a representation have another digest than its line says.
    #[error("a digest differs")]
    Digest,
    /// An id names no node revision, or one that it may not name.
    #[error("an id is dangling")]
    Dangling,
    /// The folder is of another format.
    #[error("the format is another")]
    WrongFormat,
    /// There was no memory.
    #[error("out of memory")]
    NoMemory,
}

impl From<AllocError> for FileFault {
    ghost use Rattle.std.specs.Prelude.{◌≡◌};
    ghost use Rattle.fsfs_text.specs.declared.fault.FileFault.TheVariants.{NoMemory};

    ghost from_gives = { λ _ fault. fault ≡ NoMemory };

    fn from(_error: AllocError) -> Self {
        FileFault::NoMemory
    }
}

impl<T: Drop> From<AllocFailed<T>> for FileFault {
    ghost use Rattle.std.specs.Prelude.{◌≡◌};
    ghost use Rattle.fsfs_text.specs.declared.fault.FileFault.TheVariants.{NoMemory};

    ghost from_gives = { λ _ fault. fault ≡ NoMemory };

    fn from(_error: AllocFailed<T>) -> Self {
        FileFault::NoMemory
    }
}

//! Why the files of a repository were not read, written or replaced.
use fsfs_text::FileFault;
use std::alloc::{AllocError, AllocFailed};
use thiserror::Error;

/// Why the files of a repository were not read or written.
#[derive(Clone, Copy, Debug, PartialEq, Eq, Error)]
pub enum StoreFault {
    /// The device failed.
    #[error("the device failed")]
    Device,
    /// A file is faulty.
    #[error("{0}")]
    File(FileFault),
    /// A replacement was left in doubt before: nothing is written any more.
    #[error("changes have come to a halt")]
    Halted,
    /// Memory was refused.
    #[error("out of memory")]
    NoMemory,
    /// A repository is there.
    #[error("a repository is there")]
    Exists,
}

impl From<AllocError> for StoreFault {
    ghost use Rattle.std.specs.Prelude.{◌≡◌};
    ghost use Rattle.store_files.specs.declared.fault.StoreFault.TheVariants.{NoMemory};

    ghost from_gives = { λ _ fault. fault ≡ NoMemory };

    fn from(_error: AllocError) -> Self {
        StoreFault::NoMemory
    }
}

impl<T: Drop> From<AllocFailed<T>> for StoreFault {
    ghost use Rattle.std.specs.Prelude.{◌≡◌};
    ghost use Rattle.store_files.specs.declared.fault.StoreFault.TheVariants.{NoMemory};

    ghost from_gives = { λ _ fault. fault ≡ NoMemory };

    fn from(_error: AllocFailed<T>) -> Self {
        StoreFault::NoMemory
    }
}

impl From<FileFault> for StoreFault {
    ghost use Rattle.std.specs.Prelude.{◌≡◌};
    ghost use Rattle.store_files.specs.Faults.{fault_of};

    ghost from_gives = { λ file fault. fault ≡ fault_of file };

    fn from(fault: FileFault) -> Self {
        match fault {
            FileFault::NoMemory => StoreFault::NoMemory,
            fault => StoreFault::File(fault),
        }
    }
}

/// Why a file of a repository was not replaced.
#[derive(Clone, Copy, Debug, PartialEq, Eq)]
pub enum ReplaceFault {
    /// The device failed, and nobody knows whether the old bytes are there or the new.
    InDoubt,
    /// The device failed before anything was changed.
    Unchanged,
    /// Memory was refused before anything was changed.
    NoMemory,
}

impl From<AllocError> for ReplaceFault {
    ghost use Rattle.std.specs.Prelude.{◌≡◌};
    ghost use Rattle.store_files.specs.declared.fault.ReplaceFault.TheVariants.{NoMemory};

    ghost from_gives = { λ _ fault. fault ≡ NoMemory };

    fn from(_error: AllocError) -> Self {
        ReplaceFault::NoMemory
    }
}

impl From<ReplaceFault> for StoreFault {
    ghost use Rattle.std.specs.Prelude.{◌≡◌};
    ghost use Rattle.store_files.specs.Faults.{told_of};

    ghost from_gives = { λ fault told. told ≡ told_of fault };

    fn from(fault: ReplaceFault) -> Self {
        match fault {
            ReplaceFault::InDoubt | ReplaceFault::Unchanged => StoreFault::Device,
            ReplaceFault::NoMemory => StoreFault::NoMemory,
        }
    }
}

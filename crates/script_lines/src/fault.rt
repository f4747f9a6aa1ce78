//! Why a line is not played.

use cram::CramFault;
use std::alloc::AllocError;
use store_files::StoreFault;
use store_folder::FolderFault;
use thiserror::Error;

/// Why a line is not played.
#[derive(Clone, Copy, Debug, PartialEq, Eq, Error)]
pub enum LineFault {
    /// It is none of the lines of a script.
    #[error("not a line of a script")]
    Unknown,
    /// It is a call or asks something of a hub, and no hub was asked for before it.
    #[error("no hub yet")]
    NoHub,
    /// It asks something of a hub, and a call to the hub was made before it.
    #[error("what a hub is made with stands before its first call")]
    TooLate,
    /// It is a hub's first call, and its users file is not read.
    #[error("{0}")]
    BadUsers(CramFault),
    /// It asks something of the files of a repository that has none.
    #[error("the repository has no files")]
    NoFiles,
    /// The folder of the repository has it open elsewhere.
    #[error("the folder is in use")]
    InUse,
    /// The repository is not made, not opened, or not read.
    #[error("{0}")]
    Store(StoreFault),
    /// Memory was refused.
    #[error("no memory")]
    NoMemory,
}

impl From<StoreFault> for LineFault {
    fn from(fault: StoreFault) -> Self {
        LineFault::Store(fault)
    }
}

impl From<FolderFault> for LineFault {
    fn from(fault: FolderFault) -> Self {
        match fault {
            FolderFault::InUse => LineFault::InUse,
            FolderFault::Missing
            | FolderFault::NotPlain
            | FolderFault::Unwritable
            | FolderFault::Device => LineFault::Store(StoreFault::Device),
            FolderFault::NoMemory => LineFault::NoMemory,
        }
    }
}

impl From<AllocError> for LineFault {
    fn from(_error: AllocError) -> Self {
        LineFault::NoMemory
    }
}

impl From<CramFault> for LineFault {
    fn from(fault: CramFault) -> Self {
        match fault {
            CramFault::NoMemory => LineFault::NoMemory,
            _ => LineFault::BadUsers(fault),
        }
    }
}

//! Why a call on a folder was not done.
use std::alloc::AllocError;
use std::io::{self, ErrorKind};
use store_files::ReplaceFault;
use thiserror::Error;

/// Why a call of the system was not done.
#[derive(Clone, Copy)]
pub(crate) enum Trouble {
    Device,
    NoMemory,
}

impl From<io::Error> for Trouble {
    fn from(error: io::Error) -> Self {
        if error.kind() == ErrorKind::OutOfMemory {
            Trouble::NoMemory
        } else {
            Trouble::Device
        }
    }
}

impl From<AllocError> for Trouble {
    fn from(_error: AllocError) -> Self {
        Trouble::NoMemory
    }
}

/// A call that a replacement makes before the new bytes are put in the place of the old ones has changed nothing.
impl From<Trouble> for ReplaceFault {
    fn from(trouble: Trouble) -> Self {
        match trouble {
            Trouble::Device => ReplaceFault::Unchanged,
            Trouble::NoMemory => ReplaceFault::NoMemory,
        }
    }
}

/// Why a folder was not opened, or is not one to write into. Nothing was written into it.
#[derive(Clone, Copy, Debug, PartialEq, Eq, Error)]
pub enum FolderFault {
    /// There is no such folder.
    #[error("there is no such folder")]
    Missing,
    /// Another store has it open, of this process or of another.
    #[error("the folder is in use")]
    InUse,
    /// In the place of the folder, or of a file or folder in it, there is a link or something of another kind.
    #[error("a file or folder of the repository is a link, or of another kind")]
    NotPlain,
    /// No file can be made in it.
    #[error("the folder cannot be written")]
    Unwritable,
    /// The device failed.
    #[error("the folder cannot be opened")]
    Device,
    /// Memory was refused.
    #[error("out of memory")]
    NoMemory,
}

impl From<Trouble> for FolderFault {
    fn from(trouble: Trouble) -> Self {
        match trouble {
            Trouble::Device => FolderFault::Device,
            Trouble::NoMemory => FolderFault::NoMemory,
        }
    }
}

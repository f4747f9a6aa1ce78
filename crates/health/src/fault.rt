//! Why a server does not say which revision is its youngest.

use items::ItemFault;
use std::alloc::{AllocError, AllocFailed};
use std::io;
use thiserror::Error;

/// Why a server does not say which revision is its youngest.
#[derive(Debug, Drop, Error)]
pub enum AskFault {
    /// The connection failed.
    #[error("the connection failed")]
    Connection(io::Error),
    /// The connection ended before all was answered.
    #[error("the connection has ended")]
    Ended,
    /// The server answers with a failure of this number, 0 where it says none.
    #[error("failure {0}")]
    Failed(u64),
    /// What was answered is not what a Subversion server answers.
    #[error("no answer of a Subversion server")]
    Unknown,
    /// Memory ran out.
    #[error("out of memory")]
    NoMemory,
}

impl From<io::Error> for AskFault {
    fn from(error: io::Error) -> Self {
        AskFault::Connection(error)
    }
}

impl From<ItemFault> for AskFault {
    fn from(fault: ItemFault) -> Self {
        match fault {
            ItemFault::NoMemory => AskFault::NoMemory,
            _ => AskFault::Unknown,
        }
    }
}

impl From<AllocError> for AskFault {
    fn from(_fault: AllocError) -> Self {
        AskFault::NoMemory
    }
}

impl<T: Drop> From<AllocFailed<T>> for AskFault {
    fn from(_fault: AllocFailed<T>) -> Self {
        AskFault::NoMemory
    }
}

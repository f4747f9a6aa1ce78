//! Why no sessions are served, or none any more.

use crate::reason::Reason;
use cram::CramFault;
use std::alloc::{AllocError, AllocFailed};
use store_files::StoreFault;
use thiserror::Error;

/// What is said of an invalid line of the file of users, before the name of the file.
pub const INVALID_LINE: &str = "that line is not valid in the file of users ";

/// What is said where the file of users cannot be read, before the name of the file.
pub const UNREADABLE: &str = "cannot read the file of users ";

/// Why no sessions are served, or none any more.
#[derive(Debug, Drop, Error)]
pub enum ServingFault {
    /// No repository may have the name.
    #[error("a name is 1 to 64 of A-Z, a-z, 0-9, `-`, `_` and `.`, and not `.` or `..`")]
    Name,
    /// The address to listen at, by its place among those that were asked for, isn't a dotted IPv4 address or an IPv6 address
    /// in brackets, `:` and a port.
    #[error("an address is a dotted IPv4 address or an IPv6 address in brackets, `:` and a port")]
    Address(usize),
    /// The first line of the file of users that breaks its form, counted from 1.
    #[error("M4 line {0}")]
    Users(usize),
    /// The file of users cannot be read.
    #[error("io")]
    UsersFile(Reason),
    /// The system does not let the server listen at the address in this place.
    #[error("io")]
    Listening(usize, Reason),
    /// A thread cannot be started.
    #[error("io")]
    Thread,
    /// The system gives no random bytes.
    #[error("io")]
    Random,
    /// Standard output does not take `ready`.
    #[error("io")]
    Output(Reason),
    /// The repository is not shared.
    #[error("{0}")]
    Store(StoreFault),
    /// Memory was refused.
    #[error("no memory")]
    NoMemory,
}

impl ServingFault {
    /// Says whether what was asked for is faulty, and not what was found.
    pub fn is_of_command_line(&self) -> bool {
        matches!(self, ServingFault::Name | ServingFault::Address(_))
    }
}

impl From<CramFault> for ServingFault {
    fn from(fault: CramFault) -> Self {
        match fault {
            CramFault::BadUsers(line) => ServingFault::Users(line),
            _ => ServingFault::NoMemory,
        }
    }
}

impl From<StoreFault> for ServingFault {
    fn from(fault: StoreFault) -> Self {
        match fault {
            StoreFault::NoMemory => ServingFault::NoMemory,
            _ => ServingFault::Store(fault),
        }
    }
}

impl From<AllocError> for ServingFault {
    fn from(_fault: AllocError) -> Self {
        ServingFault::NoMemory
    }
}

impl<T: Drop> From<AllocFailed<T>> for ServingFault {
    fn from(_fault: AllocFailed<T>) -> Self {
        ServingFault::NoMemory
    }
}

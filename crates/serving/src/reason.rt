//! Why a call of the system failed.

use std::io::{self, ErrorKind};
use thiserror::Error;

/// Why a call of the system failed, in words for who starts the server.
#[derive(Clone, Copy, Debug, Error)]
pub enum Reason {
    #[error("it does not exist")]
    Missing,
    #[error("permission is denied")]
    Denied,
    #[error("it is a folder")]
    Folder,
    #[error("the address is in use")]
    AddressInUse,
    #[error("this machine does not have the address")]
    AddressElsewhere,
    #[error("nobody listens there")]
    NobodyListens,
    #[error("there is no answer in time")]
    TooLate,
    #[error("there is no room")]
    NoRoom,
    #[error("nobody reads it")]
    Closed,
    #[error("out of memory")]
    NoMemory,
    /// Another error of the system, by its number; 0 where it has none.
    #[error("error {0} of the system")]
    Other(i32),
}

impl Reason {
    /// Gives the reason of an error.
    pub fn of(error: &io::Error) -> Self {
        match error.kind() {
            ErrorKind::NotFound => Reason::Missing,
            ErrorKind::PermissionDenied => Reason::Denied,
            ErrorKind::IsADirectory => Reason::Folder,
            ErrorKind::AddrInUse => Reason::AddressInUse,
            ErrorKind::AddrNotAvailable => Reason::AddressElsewhere,
            ErrorKind::ConnectionRefused => Reason::NobodyListens,
            ErrorKind::TimedOut | ErrorKind::WouldBlock => Reason::TooLate,
            ErrorKind::StorageFull => Reason::NoRoom,
            ErrorKind::BrokenPipe => Reason::Closed,
            ErrorKind::OutOfMemory => Reason::NoMemory,
            _ => Reason::Other(error.raw_os_error().unwrap_or(0)),
        }
    }
}

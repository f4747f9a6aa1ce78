//! Why serving ends before its time.

use hub::HubFault;
use std::io;
use thiserror::Error;

/// Why serving ends before its time.
#[derive(Debug, Drop, Error)]
pub enum ServeFault {
    /// The reader failed.
    #[error("read: {0}")]
    Read(io::Error),
    /// The writer failed.
    #[error("write: {0}")]
    Write(io::Error),
    /// The hub failed.
    #[error("{0}")]
    Hub(HubFault),
}

//! How far a document has been read.

use crate::fault::DiffFault;

/// How far a document has been read.
#[derive(Clone, Copy, Debug, PartialEq, Eq)]
pub enum Stage {
    /// The header isn't whole.
    Header,
    /// The header is read, and some windows.
    Windows,
    /// A rule is broken.
    Broken(DiffFault),
}

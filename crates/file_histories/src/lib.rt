//! The history of one path, as a client asks for it step by step: in which revisions something was where, in which it was
//! taken away, and in which it was changed.
#![tactic(auto)]

mod deleted;
mod differences;
mod laws;
mod revisions;
mod segment;
mod segments;

pub use deleted::deleted_revision;
pub use differences::{DifferingProperties, differing};
pub use laws::segments_are_whole;
pub use revisions::file_revisions;
pub use segment::Segment;
pub use segments::Segments;

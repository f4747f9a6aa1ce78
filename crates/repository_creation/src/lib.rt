//! The files of a repository put into a store that has none: those of a new one, or a copy of another's.
#![tactic(auto)]

mod creating;
mod migrating;

pub use creating::{Opening, create};
pub use migrating::{Moved, Progress, copy_files};

//! What makes the changes of a repository and keeps its files, and what is published before and after a save.
#![tactic(auto)]

mod archive;
mod publisher;

pub use archive::{Archive, SaveFault};
pub use publisher::{Publisher, Ready};

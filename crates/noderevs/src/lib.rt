//! Node revisions: the trees of all revisions, which share what did not change.
#![tactic(auto)]

mod adding;
mod differing;
mod height;
mod laws;
mod listing;
mod looking;
mod news;
mod node_rev;
mod nodes;
mod opening;

pub use laws::{entries_come_first, last_changes_are_apart};
pub use looking::{content_kind, content_text};
pub use node_rev::{Block, Made, NodeId, NodeRev};
pub use nodes::Nodes;

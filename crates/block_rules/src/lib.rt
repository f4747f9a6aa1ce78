//! The rules by which a block of nodes may be the next revision of a repository.
#![tactic(auto)]

mod block;
mod changes;
mod kids;
mod next_block;
mod node;
mod own;
mod way;

pub use changes::change_of;
pub use next_block::NextBlock;
pub use own::{are_same_properties, is_same_content};
pub use way::shared_length;

//! What a copy and a commit make of one entry.
#![tactic(auto)]

mod marks;
mod merging;

pub use marks::copied_entry;
pub use merging::{is_in_conflict, merged_entry};

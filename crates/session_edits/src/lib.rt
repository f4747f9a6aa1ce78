//! The commands of an edit, and what is passed over after one that was refused.
#![tactic(auto)]

mod applying;
mod giving_up;
mod skipped;

pub use applying::apply_command;
pub use giving_up::give_up;
pub use skipped::skipped_item;

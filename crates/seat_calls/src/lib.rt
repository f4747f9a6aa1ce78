//! The changes that a keeper makes for a seat: each is made, saved and published, and the seat is told.
#![tactic(auto)]

mod calls;
mod changes;
mod laws;

pub use calls::{commit, lock, set_rev_prop, unlock};
pub use laws::a_stop_leaves_a_beginning;

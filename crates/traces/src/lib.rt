//! The steps of a trace, read off the lists of changes: where what is at a place was before.
#![tactic(auto)]

mod changes;
mod place;

pub use changes::{is_copied, is_touched, next_place, place_before};
pub use place::Place;

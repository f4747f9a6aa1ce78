//! A store that says how far a start is.
//!
//! All it does is done by the store that it is made of. Where the revisions that `current` names take more than two seconds
//! to be read, it says every two seconds on standard error which one is read, of how many.
#![tactic(auto)]

mod start;
mod store;

pub use store::ProgressStore;

//! The keeper of a repository, which alone changes it.
#![tactic(auto)]

mod keeper;

pub use keeper::Keeper;

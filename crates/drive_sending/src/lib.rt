//! Writing a drive: from its plan to its commands, as they are made.
#![tactic(auto)]

mod drive;
mod naming;
mod saying;
mod telling;
mod texts;
mod visits;

pub use drive::say_drive;

//! The two trees of a drive over a repository, and the visits of a drive.
#![tactic(auto)]

mod alike;
mod differing;
mod known;
mod leading;
mod lines;
mod names;
mod pairs;
mod planning;
mod reach;
mod scope;
mod sides;
mod telling;
mod two_trees;
mod unlike;
mod views;

pub use known::{DriveKnown, DrivePlace, DriveVisit, DriveVisitor};
pub use planning::visitor;
pub use two_trees::TwoTrees;

//! Which paths the drive of this server names.
#![tactic(auto)]

mod kinds;
mod known_path;
mod making;
mod memory;
mod searching;
mod sides;
mod unvisited;
mod visit;
mod visitor;

pub use kinds::Kinds;
pub use known_path::KnownPath;
pub use sides::Sides;
pub use visit::KnownVisit;
pub use visitor::Visitor;

//! Changes within a session that are no commit: a path of the repository is locked or unlocked, and a property of a
//! revision is changed.
#![tactic(auto)]

mod asking;
mod locking;
mod revising;
mod token;
mod unlocking;

pub use locking::lock;
pub use revising::set_rev_prop;
pub use unlocking::unlock;

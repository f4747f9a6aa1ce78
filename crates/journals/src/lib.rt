//! Lines for an administrator on standard error, written by a thread of its own, so that nobody waits for whoever reads them.
#![tactic(auto)]

mod journal;
mod moment;
mod room;

pub use journal::{Journal, write_lines};
pub use moment::moment_now;
pub use room::{MAX_LINES, Room};

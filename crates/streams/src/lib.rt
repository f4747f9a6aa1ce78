//! One session over a reader and a writer.
#![tactic(auto)]

mod fault;
mod laws;
mod stdio;

pub use fault::ServeFault;
pub use laws::pieces_are_runs;
pub use stdio::run_stdio;

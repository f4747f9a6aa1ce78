//! Asks a server whether it serves, as a client does that only reads.
#![tactic(auto)]

mod answers;
mod asking;
mod fault;

pub use asking::ask_youngest;
pub use fault::AskFault;

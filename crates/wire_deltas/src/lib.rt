//! Deltas of texts, as they are sent string by string.
#![tactic(auto)]

mod commands;
mod replies;

pub use commands::{say_header, say_text};
pub use replies::{say_delta, say_delta_end};

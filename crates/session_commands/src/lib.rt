//! The answers to commands.
#![tactic(auto)]

mod answering;
mod asking;
mod beginning;
mod own;
mod reparenting;
mod request;

pub use answering::main_item;
pub use asking::{ask_for_login, await_choice};
pub use own::own_answer;
pub use request::Request;
pub use session_commits::{edit_input, skipped_item};

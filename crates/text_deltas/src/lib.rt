//! Deltas of texts: how one text is made of another, in svndiff version 0.
#![tactic(auto)]

mod delta;
mod laws;
mod shared;
#[cfg(test)]
mod tests;
mod windows;

pub use delta::{Delta, WINDOW};
pub use laws::{deltas_give_the_text, little_in_common_goes_whole, views_go_on};
pub use shared::Shared;

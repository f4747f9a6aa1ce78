//! The seats that look at a published repository, and never wait.
#![tactic(auto)]

mod seat;

pub use seat::Seat;

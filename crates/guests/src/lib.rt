//! What a session waits for, and the sessions that are open, as guests that have places: which of them gives its place up.
#![tactic(auto)]

mod awaited;
mod guest;
mod guests;
mod silence;

pub use awaited::Awaited;
pub use guest::Guest;
pub use guests::Guests;
pub use silence::{Ending, LOGIN_LIMIT, SILENCE_LIMIT};

//! Whether the client of a session is still there: a repository as a session reaches it, which lists nothing more for
//! one that has gone.
#![tactic(auto)]

mod attended;
mod client;
mod connection;
mod deed;
mod view;

pub use attended::AttendedAccess;
pub use client::Presence;
pub use connection::{Connection, has_gone};
pub use deed::Deed;
pub use view::AttendedView;

//! One session with a client: from the bytes that it sends to the bytes that it is answered, at any
//! repository, alone or among others.
#![tactic(auto)]

mod awaiting;
mod challenging;
mod greeting;
mod incoming;
mod login;
mod serve;
mod session;
mod welcoming;

pub use guests::Awaited;
pub use session::{Session, SessionFault};

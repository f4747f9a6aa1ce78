//! CRAM-MD5 (RFC 2195) and the file of its users.
#![tactic(auto)]

mod answer;
mod challenge;
mod fault;
mod hmac;
mod line;
mod users;

pub use challenge::Challenge;
pub use fault::CramFault;
pub use hmac::hmac_md5;
pub use users::{User, Users};

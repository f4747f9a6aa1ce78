//! Whether a client is still there.
use crate::deed::Deed;
use byte_string::ByteString;
use std::alloc::AllocError;

/// What can be asked whether a client is still there. No promise rests on the answer: where it says that the client has
/// gone, its session ends early.
pub trait Presence: Drop {
    /// Makes one that is not to be asked for, and never says that it has gone.
    fn nobody() -> Self;

    /// Makes another of the same client.
    fn share(&self) -> Result<Self, AllocError>;

    /// Says whether the client has gone.
    fn is_gone(&self) -> bool;

    /// Says whether the client has gone, where its session has been at work for a while on something that is not answered, as
    /// the commands of an edit. Where it has not, nobody is asked.
    fn is_gone_meanwhile(&self) -> bool {
        false
    }

    /// Notes what the client has done, as this user, where the user is known. Nothing is noted where nothing is said of it.
    fn notes(&self, _user: Option<&ByteString>, _deed: Deed<'_>) {}
}

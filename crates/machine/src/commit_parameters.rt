//! What a commit asks for.
use byte_string::ByteString;
use repo_api::{LockTokens, Properties};

/// What a commit asks for: its message, the list of revision properties in the message's place if there is
/// one, the lock tokens that are handed in, and whether the locks stay.
#[derive(Drop)]
pub struct CommitParameters {
    pub message: ByteString,
    pub properties: Option<Properties>,
    pub tokens: LockTokens,
    pub keep_locks: bool,
}

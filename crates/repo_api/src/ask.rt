//! What a commit is asked to record.
use crate::lock::LockTokens;
use crate::properties::Properties;
use byte_string::ByteString;

/// What a commit is asked to record: the date of the new revision, its author, and its message or its
/// list of revision properties. Where there is a list, even an empty one, the message is ignored. With
/// it come the lock tokens that are handed in, and whether the locks stay.
#[derive(Debug, Drop)]
pub struct CommitAsk {
    pub date: ByteString,
    pub author: Option<ByteString>,
    pub message: ByteString,
    pub properties: Option<Properties>,
    pub tokens: LockTokens,
    pub keep_locks: bool,
}

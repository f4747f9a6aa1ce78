//! What is asked of a lock and of an unlock.
use byte_string::ByteString;
use svnpath::Path;

/// What is asked of a lock: the path, the user whose it is to be, the user's comment, whether it may
/// take the place of one that stands, and the revision at which the client has seen the file, if it
/// says so. With it come the new lock's token and its date.
#[derive(Drop)]
pub struct LockAsk {
    pub path: Path,
    pub user: Option<ByteString>,
    pub comment: Option<ByteString>,
    pub steals: bool,
    pub current: Option<u64>,
    pub token: ByteString,
    pub date: ByteString,
}

/// What is asked of an unlock: the path, the user, the lock's token if the client has it, and whether
/// the lock is broken, which needs neither.
#[derive(Drop)]
pub struct UnlockAsk {
    pub path: Path,
    pub user: Option<ByteString>,
    pub token: Option<ByteString>,
    pub breaks: bool,
    /// Whether a token of another lock is told as one of no lock, whoever's the lock is.
    pub tells_dead_tokens: bool,
}

//! What a log is asked for.

/// Which revisions a log goes over: from `start` to `end`, whichever is the greater, and of those
/// listed at most `limit`, where that is not 0. A `strict` log ends where a copy brought the path.
#[derive(Clone, Copy, Debug)]
pub struct LogAsk {
    pub strict: bool,
    pub start: u64,
    pub end: u64,
    pub limit: u64,
}

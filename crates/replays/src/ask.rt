//! What is asked of a replay.
use svnpath::Path;

/// What is asked of a replay of revisions.
#[derive(Debug)]
pub struct ReplayAsk {
    /// The path of the client's URL: of what is elsewhere the client has nothing.
    pub part: Path,
    /// The revision below which the client has nothing.
    pub low: u64,
    /// Whether texts and the values of properties are sent.
    pub sends_deltas: bool,
}

impl Drop for ReplayAsk {
    fn drop(self) {
        let ReplayAsk {
            part: _,
            low: _,
            sends_deltas: _,
        } = self;
    }
}

//! What a repository in memory has.
use flat_commits::FlatContent;
use pathlocks::Locks;
use std::alloc::Global;
use std::sync::Arc;

/// A repository in memory. A commit makes a new list of revisions, and a change of
/// locks that are shared copies them, so that what was shared before stays as it was.
pub struct FlatRepo {
    pub(crate) alloc: Global,
    pub(crate) content: Arc<FlatContent>,
    pub(crate) locks: Arc<Locks>,
}

impl Drop for FlatRepo {
    fn drop(self) {
        let FlatRepo {
            alloc: _,
            content: _,
            locks: _,
        } = self;
    }
}

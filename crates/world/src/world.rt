//! What a repository over node revisions has.
ghost use Rattle.history_marks.specs.Sound.{IsSoundRepo};
ghost use Rattle.shared_revisions.specs.Contents.{held_state};

use pathlocks::Locks;
use shared_revisions::Held;
use std::alloc::Global;
use std::sync::Arc;

/// A repository over node revisions, which is sound. A commit makes another value of what is held, and a
/// change of locks that are shared copies them, so that what was shared before stays as it was.
pub struct World {
    pub(crate) alloc: Global,
    pub(crate) held: Arc<Held>,
    pub(crate) locks: Arc<Locks>,
    ghost sound: { ∥ IsSoundRepo (held_state held.value) ∥₁ },
}

impl Drop for World {
    fn drop(self) {
        let World {
            alloc: _,
            held: _,
            locks: _,
        } = self;
    }
}

//! An empty repository, alone and shared.
ghost use Rattle.std.specs.Prelude.{◌≡◌, All};
ghost use Rattle.access.specs.Points.{content_of};
ghost use Rattle.published.specs.Events.{point_of};
ghost use Rattle.repo_api.specs.Soundness.{AreSound};

use crate::connections::{MemoryVisit, Still};
use conversations::{Gate, Watch};
use crossbeam_channel::Receiver;
use filed_repository::{FiledWorld, FolderRepository, create, open, opened_trees_are_sound};
use published::{Naming, NewHistory};
use serving::{Desks, desks_of};
use session_pool::SessionPool;
use std::alloc::Global;
use std::mem::drop;
use std::process::Abort;
use std::random::RandomSource;
use std::sync::Wait;
use std::time::Clock;
use store_files::{MemoryStore, Store};
use stored_repository::{Filed, StoredRepository};

/// The number that names the repository.
const UUID: u128 = 0x0000_0000_0000_4000_8000_0000_0000_0000;

/// Makes an empty repository, in files in memory.
pub(crate) fn empty_repository(rt: &impl Abort, alloc: Global) -> FolderRepository<MemoryStore> {
    let mut store = MemoryStore::new(alloc);
    create(alloc, &mut store, UUID, 0, 3).expect(rt, "a repository");
    store.is_at_rest();
    match open(alloc, store) {
        Ok(stored) => stored,
        Err(_) => panic!(rt; "the repository is not opened"),
    }
}

/// A repository whose trees are sound.
pub(crate) trait SoundTrees: Filed {
    /// Proves that they are; it does nothing else.
    fn trees_are_sound(&self)
        ensures { AreSound (Self.content self.now).revisions };
}

impl SoundTrees for FiledWorld {
    fn trees_are_sound(&self) {
        opened_trees_are_sound(self);
    }
}

/// Serves callers at a repository that nobody shares, until no more can come.
pub(crate) fn work_alone<F: SoundTrees, S: Store, G: Gate, W: Watch, R: Wait>(
    rt: &R,
    alloc: Global,
    pool: &SessionPool<'_, G, W>,
    callers: &Receiver<MemoryVisit<'_, R>>,
    (stored, envs): (StoredRepository<F, S>, Still),
) {
    stored.repository().trees_are_sound();
    drop(pool.serve_at(rt, alloc, callers, (stored, envs)));
}

/// Makes so many desks of a repository that is shared, with what is shared.
pub(crate) fn desks_at<'r, R, F, S, J>(
    rt: &'r R,
    alloc: Global,
    stored: StoredRepository<F, S>,
    history: NewHistory,
    sessions: u64,
) -> Desks<'r, R, F, S, J>
where
    R: Abort + Clock + RandomSource + Wait,
    F: SoundTrees,
    S: Store,
    J: Naming,
    requires { history.seen.book ≡ J.book }
    ensures { All (λ d. AreSound (content_of (point_of d.seat)).revisions) result.1.items }
{
    stored.repository().trees_are_sound();
    desks_of::<R, F, S, J>(rt, alloc, stored, history, sessions).expect(rt, "desks")
}

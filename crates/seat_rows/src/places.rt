//! A repository in files in memory that two seats share.
ghost use Rattle.std.specs.Prelude.{◌≡◌};
ghost use Rattle.store_files.specs.Folders.{Folder, IsSame};
ghost use Rattle.repo_api.specs.Soundness.{AreSound};

use access::SplitAccess;
use filed_archive::{ServedAccess, ServedChanges, ServedRepo, ServedSeat, share};
use filed_repository::{FiledWorld, FolderRepository, open, opened_trees_are_sound};
use published::{Naming, NewHistory};
use std::alloc::Global;
use std::process::Abort;
use std::sync::{Arc, Wait};
use store_files::{FuseStore, MemoryStore, Store};
use stored_repository::{Filed, StoredRepository};

/// A repository that is shared, as one seat reaches it.
pub(crate) type Access<'r, F, S, J, R> = ServedAccess<'r, F, S, J, R>;

/// A repository whose trees are sound.
pub(crate) trait SoundTrees: Filed {
    /// Proves that they are; it does nothing else.
    fn trees_are_sound(&self)
        ensures { AreSound (Self.content self.now).revisions };
}

impl SoundTrees for FiledWorld {
    fn trees_are_sound(&self) {
        opened_trees_are_sound(self);
    }
}

/// A store of which a stop that comes now leaves what a read gives.
pub(crate) trait AtRest: Store {
    /// Proves that; it does nothing else.
    fn rests(&self)
        ensures { (f : Folder) → Self.may_leave self.now f → IsSame (Self.holds self.now) f };
}

impl AtRest for MemoryStore {
    fn rests(&self) {
        self.is_at_rest();
    }
}

impl<S: AtRest> AtRest for FuseStore<S> {
    fn rests(&self) {
        self.inner().rests();
    }
}

/// Opens the repository in these files.
pub(crate) fn opened<S: AtRest>(rt: &impl Abort, alloc: Global, store: S) -> FolderRepository<S> {
    store.rests();
    match open(alloc, store) {
        Ok(stored) => stored,
        Err(_) => panic!(rt; "the repository is not opened"),
    }
}

/// A seat of a repository that is shared, for a thread of its own.
pub(crate) struct Place<'r, F: Filed, S: Store, J: Naming, R: Wait> {
    repository: Arc<ServedRepo<F, S, J>>,
    seat: ServedSeat<F, J>,
    rt: &'r R,
}

impl<'r, F: Filed, S: Store, J: Naming, R: Wait> Drop for Place<'r, F, S, J, R> {
    fn drop(self) {
        let Place {
            repository: _,
            seat: _,
            rt: _,
        } = self;
    }
}

impl<'r, F: Filed, S: Store, J: Naming, R: Abort + Wait> Place<'r, F, S, J, R> {
    /// Gives what all seats share.
    pub(crate) fn shared(&self) -> Arc<ServedRepo<F, S, J>> {
        Arc::try_clone(&self.repository).expect(self.rt, "memory")
    }
}

impl<'r, F: Filed, S: Store, J: Naming, R: Wait> Place<'r, F, S, J, R> {
    /// Gives the seat as a session reaches it.
    pub(crate) fn into_access(self) -> Access<'r, F, S, J, R> {
        let Place {
            repository,
            seat,
            rt,
        } = self;
        SplitAccess {
            looks: seat,
            changes: ServedChanges::new(repository, rt),
        }
    }
}

/// Gives a seat its repository.
fn placed<'r, F: Filed, S: Store, J: Naming, R: Abort + Wait>(
    rt: &'r R,
    repository: &Arc<ServedRepo<F, S, J>>,
    seat: ServedSeat<F, J>,
) -> Place<'r, F, S, J, R> {
    Place {
        repository: Arc::try_clone(repository).expect(rt, "memory"),
        seat,
        rt,
    }
}

/// Makes so many seats of a repository, each for a thread of its own.
pub(crate) fn places<'r, F: SoundTrees, S: Store, J: Naming, R: Abort + Wait>(
    rt: &'r R,
    alloc: Global,
    stored: StoredRepository<F, S>,
    count: usize,
    history: NewHistory,
) -> Vec<Place<'r, F, S, J, R>>
    requires { history.seen.book ≡ J.book }
{
    stored.repository().trees_are_sound();
    let shared = share::<F, S, J>(alloc, stored, count, history);
    let (repository, seats) = shared.expect(rt, "a repository that is shared");
    let repository = Arc::new(alloc, repository).expect(rt, "memory");
    let mut found = Vec::new(alloc);
    for seat in seats {
        found
            .push(placed(rt, &repository, seat))
            .expect(rt, "memory");
    }
    found
}

/// Takes the last place.
fn taken<'r, F: Filed, S: Store, J: Naming, R: Abort + Wait>(
    rt: &R,
    places: &mut Vec<Place<'r, F, S, J, R>>,
) -> Access<'r, F, S, J, R> {
    places.pop().expect(rt, "a place").into_access()
}

/// Gives a repository as each of two seats reaches it.
pub(crate) fn two_seats<'r, F: SoundTrees, S: Store, J: Naming, R: Abort + Wait>(
    rt: &'r R,
    alloc: Global,
    stored: StoredRepository<F, S>,
    history: NewHistory,
) -> (Access<'r, F, S, J, R>, Access<'r, F, S, J, R>)
    requires { history.seen.book ≡ J.book }
{
    let mut places = places::<F, S, J, R>(rt, alloc, stored, 2, history);
    (taken(rt, &mut places), taken(rt, &mut places))
}

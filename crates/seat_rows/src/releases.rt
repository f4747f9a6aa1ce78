//! What is told of the locks that a commit hands in: where there is memory they are released, and where the store fails
//! they cannot be.

use crate::commits::{ask_for, commit, commit_of, youngest};
use crate::files::{bytes, files_with_a, lock_ask, path_a};
use crate::places::{SoundTrees, opened};
use crate::plays::{Play, is_played_over};
use crate::stores::{TestStore, failing, whole};
use access::{Released, RepoAccess};
use filed_repository::FiledWorld;
use published::NewHistory;
use repo_api::{ChangeFault, CommitAsk, Repository};
use std::alloc::Global;
use std::marker::Brand;
use std::process::Abort;
use store_files::{Left, Store};
use stored_repository::StoredRepository;

/// The token of the lock.
const TOKEN: &[u8] = b"opaquelocktoken:00000000-0000-4000-8000-000000000001";

/// The user that locks and commits.
const USER: &[u8] = b"alice";

/// Asks for a commit that hands the lock in.
fn handing_in(rt: &impl Abort, alloc: Global) -> CommitAsk {
    let mut ask = ask_for(rt, alloc, b"");
    ask.author = Some(bytes(rt, alloc, USER));
    ask.tokens
        .push(path_a(rt, alloc), bytes(rt, alloc, TOKEN))
        .expect(rt, "memory");
    ask
}

/// What two seats are told: how the lock of the first is answered, how its commit that hands the lock in is, with
/// whether the store failed at the release; the youngest revision that the second sees then, whether it sees the lock,
/// whether it knows of a halt, and how its own commit is answered.
pub(crate) type ReleaseTold = (
    Result<(), ChangeFault>,
    Result<(u64, bool), ChangeFault>,
    (u64, bool, bool),
    Result<u64, ChangeFault>,
);

/// Hands the lock in with a commit: the number of its revision, and whether the store failed at the release.
fn hand_in<A: RepoAccess<View = V>, V: SoundTrees>(
    rt: &impl Abort,
    alloc: Global,
    access: &mut A,
) -> Result<(u64, bool), ChangeFault> {
    match commit_of(rt, alloc, access, handing_in(rt, alloc)) {
        Ok(committed) => Ok((
            committed.revision,
            matches!(committed.released, Released::StoreFailed),
        )),
        Err(fault) => Err(fault),
    }
}

/// Says whether a look has the lock.
fn has_lock<A: RepoAccess>(rt: &impl Abort, alloc: Global, access: &mut A) -> bool {
    let view = access.look().expect(rt, "a look");
    view.lock_at(&path_a(rt, alloc)).is_some()
}

/// Says whether a commit releases the lock that it hands in: it answers that it has, and the next look has no lock. A
/// release that always lacks memory fails this, since memory is ample.
fn is_released<A: RepoAccess<View = V>, V: SoundTrees>(
    rt: &impl Abort,
    alloc: Global,
    access: &mut A,
) -> bool {
    let locked = access.lock(lock_ask(rt, alloc, USER, TOKEN));
    locked.expect(rt, "a lock");
    let was_locked = has_lock(rt, alloc, access);
    let committed = commit_of(rt, alloc, access, handing_in(rt, alloc)).expect(rt, "a commit");
    let is_settled = matches!(committed.released, Released::Settled);
    was_locked && is_settled && !has_lock(rt, alloc, access)
}

/// Says whether the commit of one seat releases the lock that it hands in, also as the other seat sees it.
pub(crate) fn is_released_for_both<A: RepoAccess<View = V> + Drop, V: SoundTrees>(
    rt: &impl Abort,
    alloc: Global,
    seats: (A, A),
) -> bool {
    let (mut one, mut other) = seats;
    is_released(rt, alloc, &mut one) && !has_lock(rt, alloc, &mut other)
}

/// Says whether a commit to a repository in files, which one alone has, releases the lock that it hands in.
fn is_released_in_files<F: SoundTrees, S: Store>(
    rt: &impl Abort,
    alloc: Global,
    stored: StoredRepository<F, S>,
) -> bool {
    let mut stored = stored;
    is_released(rt, alloc, &mut stored)
}

/// Says what two seats are told of whom one hands its lock in.
pub(crate) fn told_of_release<A: RepoAccess<View = V> + Drop, V: SoundTrees>(
    rt: &impl Abort,
    alloc: Global,
    seats: (A, A),
) -> ReleaseTold {
    let (mut one, mut other) = seats;
    let locked = one.lock(lock_ask(rt, alloc, USER, TOKEN));
    let answer = hand_in(rt, alloc, &mut one);
    let is_locked = has_lock(rt, alloc, &mut other);
    let seen = (youngest(rt, &mut other), is_locked, other.is_halted());
    (locked, answer, seen, commit(rt, alloc, &mut other))
}

/// Where the lock is not kept: nothing is changed from then on.
const NOT_LOCKED: ReleaseTold = (
    Err(ChangeFault::Halted),
    Err(ChangeFault::Halted),
    (1, false, true),
    Err(ChangeFault::Halted),
);

/// Where the commit is kept and the release is not.
const NOT_RELEASED: ReleaseTold = (
    Ok(()),
    Ok((2, true)),
    (2, true, true),
    Err(ChangeFault::Halted),
);

/// Where nothing fails until then.
const RELEASED: ReleaseTold = (
    Ok(()),
    Ok((2, false)),
    (2, false, false),
    Err(ChangeFault::StoreFailed),
);

/// How many writes pass before one fails, and what they are told then.
static ROWS: [(u64, ReleaseTold); 3] = [(0, NOT_LOCKED), (4, NOT_RELEASED), (5, RELEASED)];

#[test]
fn with_ample_memory_a_seat_releases_the_lock_that_it_hands_in(rt: HostRuntime) {
    let is_released = is_played_over::<FiledWorld, TestStore, Brand, HostRuntime>(
        &rt,
        rt.alloc(),
        opened(&rt, rt.alloc(), whole(files_with_a(&rt, rt.alloc()))),
        NewHistory::new(),
        Play::IsReleased,
    );
    assert!(rt; is_released);
}

#[test]
fn with_ample_memory_a_repository_in_files_releases_the_lock_that_is_handed_in(rt: HostRuntime) {
    let stored = opened(&rt, rt.alloc(), whole(files_with_a(&rt, rt.alloc())));
    let is_released = is_released_in_files(&rt, rt.alloc(), stored);
    assert!(rt; is_released);
}

#[test]
fn a_commit_whose_locks_are_not_released_is_made(rt: HostRuntime) {
    let mut are_told = true;
    for left in [Left::Old, Left::New, Left::Torn] {
        for (passes, wanted) in ROWS.iter() {
            let store = failing(files_with_a(&rt, rt.alloc()), *passes, left);
            are_told &= is_played_over::<FiledWorld, TestStore, Brand, HostRuntime>(
                &rt,
                rt.alloc(),
                opened(&rt, rt.alloc(), store),
                NewHistory::new(),
                Play::Releases(*wanted),
            );
        }
    }
    assert!(rt; are_told);
}

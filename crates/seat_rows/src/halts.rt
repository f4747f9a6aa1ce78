//! What the seats are told where a save fails.
ghost use Rattle.std.specs.Prelude.{◌≡◌};

use crate::commits::{commit, youngest};
use crate::files::new_files;
use crate::places::{SoundTrees, opened, places};
use crate::plays::{Act, Marks, Play, act_in, is_played_over};
use crate::stores::{TestStore, failing};
use access::RepoAccess;
use filed_repository::FiledWorld;
use published::{Naming, NewHistory};
use repo_api::ChangeFault;
use std::alloc::Global;
use std::marker::Brand;
use std::process::Abort;
use std::sync::Wait;
use store_files::{Left, Store};
use stored_repository::StoredRepository;

/// What two seats are told: how the commit of the first is answered, the youngest revision that the second sees behind
/// it, whether this one knows of a halt, and how its commit is answered.
pub(crate) type HaltTold = (
    Result<u64, ChangeFault>,
    u64,
    bool,
    Result<u64, ChangeFault>,
);

/// Says what two seats are told that commit one after another.
pub(crate) fn told_both<A: RepoAccess<View = V> + Drop, V: SoundTrees>(
    rt: &impl Abort,
    alloc: Global,
    seats: (A, A),
) -> HaltTold {
    let (mut one, mut other) = seats;
    let first = commit(rt, alloc, &mut one);
    let seen = youngest(rt, &mut other);
    let is_halted = other.is_halted();
    (first, seen, is_halted, commit(rt, alloc, &mut other))
}

/// Where a file of the revision fails.
const FAILED: HaltTold = (Err(ChangeFault::StoreFailed), 0, false, Ok(1));

/// Where the replacement fails that makes it the youngest.
const HALTED: HaltTold = (Err(ChangeFault::Halted), 0, true, Err(ChangeFault::Halted));

/// Where a file of the next revision fails.
const FAILED_NEXT: HaltTold = (Ok(1), 1, false, Err(ChangeFault::StoreFailed));

/// How many writes pass before one fails, and what they are told then.
static ROWS: [(u64, HaltTold); 4] = [(0, FAILED), (1, FAILED), (2, HALTED), (3, FAILED_NEXT)];

#[test]
fn a_halt_is_told_to_all_seats(rt: HostRuntime) {
    let mut are_told = true;
    for left in [Left::Old, Left::New, Left::Torn] {
        for (passes, wanted) in ROWS.iter() {
            let store = failing(new_files(&rt, rt.alloc()), *passes, left);
            are_told &= is_played_over::<FiledWorld, TestStore, Brand, HostRuntime>(
                &rt,
                rt.alloc(),
                opened(&rt, rt.alloc(), store),
                NewHistory::new(),
                Play::Halts(*wanted),
            );
        }
    }
    assert!(rt; are_told);
}

/// Says whether it is noted, behind a commit at a seat, that changes have come to a halt.
fn is_noted<F: SoundTrees, S: Store, J: Naming, R: Abort + Wait>(
    rt: &R,
    alloc: Global,
    stored: StoredRepository<F, S>,
    history: NewHistory,
) -> bool
    requires { history.seen.book ≡ J.book }
{
    let mut places = places::<F, S, J, R>(rt, alloc, stored, 1, history);
    let place = places.pop().expect(rt, "a place");
    let shared = place.shared();
    let _told = act_in(rt, alloc, place, Act::Commit, &Marks::new(alloc));
    shared.as_ref().has_halted()
}

#[test]
fn a_halt_is_noted_where_one_has_come(rt: HostRuntime) {
    let mut are_noted = true;
    for (passes, _) in ROWS.iter() {
        let store = failing(new_files(&rt, rt.alloc()), *passes, Left::Old);
        let was_noted = is_noted::<FiledWorld, TestStore, Brand, HostRuntime>(
            &rt,
            rt.alloc(),
            opened(&rt, rt.alloc(), store),
            NewHistory::new(),
        );
        are_noted &= was_noted == (*passes == 2);
    }
    assert!(rt; are_noted);
}

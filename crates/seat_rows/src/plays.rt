//! What seats do, as code that knows of them only that they reach a repository. A seat is passed to such code in two
//! places alone, `is_played_over` and `act_at`.
ghost use Rattle.std.specs.Prelude.{◌≡◌};

use crate::commits::{commit, youngest};
use crate::halts::{HaltTold, told_both};
use crate::looks::are_seen;
use crate::places::{Access, Place, SoundTrees, two_seats};
use crate::properties::{is_changed_by_one, told_of_change};
use crate::releases::{ReleaseTold, is_released_for_both, told_of_release};
use crate::saves::youngest_in_save;
use crate::sixteen::{has_all, works};
use crate::stopped::Calls;
use access::RepoAccess;
use published::{Naming, NewHistory};
use std::alloc::Global;
use std::mem::drop;
use std::process::Abort;
use std::sync::Wait;
use std::sync::atomic::AtomicBool;
use store_files::Store;
use stored_repository::StoredRepository;

/// What two seats of a repository do, and what they are told.
#[derive(Clone, Copy)]
pub(crate) enum Play {
    /// They commit in turn, and each sees what the other has committed.
    Looks,
    /// They ask for a change of one value of a property, and one of them changes it.
    Properties,
    /// They commit, one after another, and are told this.
    Halts(HaltTold),
    /// One hands its lock in with a commit while nothing fails, and both see that it is released.
    IsReleased,
    /// One hands its lock in with a commit, the other commits, and they are told this.
    Releases(ReleaseTold),
}

/// Says whether they are told so.
fn is_played<A: RepoAccess<View = V> + Drop, V: SoundTrees>(
    rt: &impl Abort,
    alloc: Global,
    seats: (A, A),
    play: Play,
) -> bool {
    match play {
        Play::Looks => are_seen(rt, alloc, seats),
        Play::Properties => is_changed_by_one(rt, alloc, seats),
        Play::Halts(wanted) => told_both(rt, alloc, seats) == wanted,
        Play::IsReleased => is_released_for_both(rt, alloc, seats),
        Play::Releases(wanted) => told_of_release(rt, alloc, seats) == wanted,
    }
}

/// Says whether two seats of this repository are told so.
pub(crate) fn is_played_over<F: SoundTrees, S: Store, J: Naming, R: Abort + Wait>(
    rt: &R,
    alloc: Global,
    stored: StoredRepository<F, S>,
    history: NewHistory,
    play: Play,
) -> bool
    requires { history.seen.book ≡ J.book }
{
    let seats = two_seats::<F, S, J, R>(rt, alloc, stored, history);
    is_played(rt, alloc, seats, play)
}

/// What seats note for one another.
#[derive(Drop)]
pub(crate) struct Marks {
    /// Whether the replacement has begun that makes a commit's revision the youngest.
    pub(crate) begun: AtomicBool,
    /// Whether another seat has looked since.
    pub(crate) looked: AtomicBool,
    /// Whether a seat has the lock.
    pub(crate) is_held: AtomicBool,
    /// Whether a seat was told what cannot be.
    pub(crate) is_wrong: AtomicBool,
    /// The calls by which a commit is saved.
    pub(crate) calls: Calls,
}

impl Marks {
    /// Makes marks of which none is set.
    pub(crate) fn new(alloc: Global) -> Self {
        Marks {
            begun: AtomicBool::new(false),
            looked: AtomicBool::new(false),
            is_held: AtomicBool::new(false),
            is_wrong: AtomicBool::new(false),
            calls: Calls::new(alloc),
        }
    }
}

/// What one seat does.
#[derive(Clone, Copy)]
pub(crate) enum Act {
    /// It commits.
    Commit,
    /// It looks.
    Look,
    /// It looks while another's commit is being saved.
    LookInSave,
    /// It asks for a property that nobody has seen yet.
    Change,
    /// It takes its turns of those that sixteen take at once.
    Work(u8),
    /// It sees whether nothing of all turns is lost.
    HaveAll,
}

/// Gives the revision that a seat has made, or the youngest that it sees, or how many changes of a property it has made;
/// none where it is told what cannot be.
fn told_of<A: RepoAccess<View = V>, V: SoundTrees>(
    rt: &impl Abort,
    alloc: Global,
    access: &mut A,
    done: Act,
    marks: &Marks,
) -> Option<u64> {
    let is_right = match done {
        Act::Commit => return commit(rt, alloc, access).ok(),
        Act::Look => true,
        Act::LookInSave => return youngest_in_save(rt, access, marks),
        Act::Change => return told_of_change(rt, alloc, access),
        Act::Work(letter) => works(rt, alloc, access, letter, marks),
        Act::HaveAll => has_all(rt, alloc, access),
    };
    is_right.then_some(youngest(rt, access))
}

/// Gives the same of a seat.
pub(crate) fn act_at<F: SoundTrees, S: Store, J: Naming, R: Abort + Wait>(
    rt: &R,
    alloc: Global,
    seat: &mut Access<'_, F, S, J, R>,
    done: Act,
    marks: &Marks,
) -> Option<u64> {
    told_of(rt, alloc, seat, done, marks)
}

/// Gives the same of a seat that a thread has.
pub(crate) fn act_in<F: SoundTrees, S: Store, J: Naming, R: Abort + Wait>(
    rt: &R,
    alloc: Global,
    place: Place<'_, F, S, J, R>,
    done: Act,
    marks: &Marks,
) -> Option<u64> {
    let mut seat = place.into_access();
    let told = act_at(rt, alloc, &mut seat, done, marks);
    drop(seat);
    told
}

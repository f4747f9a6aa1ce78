//! The changes that a keeper makes for a seat.
ghost use Rattle.std.specs.Prelude.{◌≡◌, [], ◌∷◌};
ghost use Rattle.access.specs.{Changing.{ChangesPropertyAt, CommitsAt, LocksAt, UnlocksAt}, Points.content_of, Refused.{HasPath, without_path}};
ghost use Rattle.published.specs.{Events.point_of, Moments.shared_rules};
ghost use Rattle.repo_api.specs.{Accepted.Accepted.{ChangesProperty, Commits, Locks, Releases, Unlocks}, Commits.IsRefusedAt, Transactions.MayCommit};
ghost use Rattle.keepers.specs.Standing.{IsSteady, StopLeaves};
ghost use Rattle.seat_calls.specs.Calls.{Calls};

use crate::changes::{make_commit, make_lock, make_property, make_unlock};
use access::{Committed, NotCommitted};
use archives::Archive;
use keepers::Keeper;
use left_right::Absorb;
use published::{Carries, Naming, Published, Sets};
use repo_api::{ChangeFault, CommitAsk, LockAsk, PropertyAsk, Repository, UnlockAsk};
use seats::Seat;
use std::mem::drop;
use std::sync::Wait;

/// Says whether a seat knows of a halt.
fn turns_away<
    R: Repository,
    S: Archive<R>,
    J: Naming,
    T: Absorb<O> + Carries<Published<R, J>> + Drop,
    O: Sets<Published<R, J>> + Drop,
>(keeper: &Keeper<R, S, J, T, O>, seat: &Seat<R, J, T>) -> bool
    ensures { (result ≡ (point_of seat.now).halted) × IsSteady S.kept S.stands keeper.now }
{
    let _archive = keeper.archive();
    seat.is_halted()
}

/// Makes the transaction the next revision, and then, unless the locks are to stay, releases those of
/// the user's that were handed in. A refusal comes with a path at which the commit is refused, if it is at one.
pub fn commit<
    R: Repository,
    S: Archive<R>,
    J: Naming,
    T: Absorb<O> + Carries<Published<R, J>> + Drop,
    O: Sets<Published<R, J>> + Drop,
    W: Wait,
>(
    keeper: &mut Keeper<R, S, J, T, O>,
    rt: &W,
    seat: &mut Seat<R, J, T>,
    ask: CommitAsk,
    txn: R::Txn,
) -> Result<Committed, NotCommitted>
    requires { MayCommit (content_of (point_of seat.old)) (R.txn_state txn) }
    ensures calls { Calls S.kept S.stands (CommitsAt shared_rules ask (R.txn_state txn)) seat.old keeper.old
        (without_path result) seat.new keeper.new }
    ensures path { HasPath result
        (IsRefusedAt (content_of (point_of seat.new)) ask (R.txn_state txn)) }
    ensures steady { IsSteady S.kept S.stands keeper.old }
    ensures stop { StopLeaves S.kept S.leaves (Commits ask (R.txn_state txn) ∷ Releases ask.author ask.tokens ∷ [])
        keeper.old keeper.new }
{
    if turns_away(keeper, seat) {
        drop((ask, txn));
        return Err(NotCommitted {
            fault: ChangeFault::Halted,
            path: None,
        });
    }
    if !keeper.meet(seat) {
        drop((ask, txn));
        return Err(NotCommitted {
            fault: ChangeFault::NoMemory,
            path: None,
        });
    }
    let answer = make_commit(keeper, rt, seat, ask, txn);
    let _archive = keeper.archive();
    answer
}

/// Locks the path of a file, in place of a lock that stands there if that may be stolen.
pub fn lock<
    R: Repository,
    S: Archive<R>,
    J: Naming,
    T: Absorb<O> + Carries<Published<R, J>> + Drop,
    O: Sets<Published<R, J>> + Drop,
    W: Wait,
>(
    keeper: &mut Keeper<R, S, J, T, O>,
    rt: &W,
    seat: &mut Seat<R, J, T>,
    ask: LockAsk,
) -> Result<(), ChangeFault>
    ensures calls { Calls S.kept S.stands (LocksAt shared_rules ask) seat.old keeper.old result
        seat.new keeper.new }
    ensures steady { IsSteady S.kept S.stands keeper.old }
    ensures stop { StopLeaves S.kept S.leaves (Locks ask ∷ [])
        keeper.old keeper.new }
{
    if turns_away(keeper, seat) {
        drop(ask);
        return Err(ChangeFault::Halted);
    }
    if !keeper.meet(seat) {
        drop(ask);
        return Err(ChangeFault::NoMemory);
    }
    let answer = make_lock(keeper, rt, seat, ask);
    let _archive = keeper.archive();
    answer
}

/// Takes the lock at a path away.
pub fn unlock<
    R: Repository,
    S: Archive<R>,
    J: Naming,
    T: Absorb<O> + Carries<Published<R, J>> + Drop,
    O: Sets<Published<R, J>> + Drop,
    W: Wait,
>(
    keeper: &mut Keeper<R, S, J, T, O>,
    rt: &W,
    seat: &mut Seat<R, J, T>,
    ask: &UnlockAsk,
) -> Result<(), ChangeFault>
    ensures calls { Calls S.kept S.stands (UnlocksAt shared_rules ask.now) seat.old keeper.old result
        seat.new keeper.new }
    ensures steady { IsSteady S.kept S.stands keeper.old }
    ensures stop { StopLeaves S.kept S.leaves (Unlocks ask.now ∷ [])
        keeper.old keeper.new }
{
    if turns_away(keeper, seat) {
        return Err(ChangeFault::Halted);
    }
    if !keeper.meet(seat) {
        return Err(ChangeFault::NoMemory);
    }
    let answer = make_unlock(keeper, rt, seat, ask);
    let _archive = keeper.archive();
    answer
}

/// Makes this the value of a property of a revision, or takes the property out where there is no value, if the
/// value before is the one that is asked for.
pub fn set_rev_prop<
    R: Repository,
    S: Archive<R>,
    J: Naming,
    T: Absorb<O> + Carries<Published<R, J>> + Drop,
    O: Sets<Published<R, J>> + Drop,
    W: Wait,
>(
    keeper: &mut Keeper<R, S, J, T, O>,
    rt: &W,
    seat: &mut Seat<R, J, T>,
    ask: PropertyAsk,
) -> Result<(), ChangeFault>
    ensures calls { Calls S.kept S.stands (ChangesPropertyAt shared_rules ask) seat.old keeper.old result
        seat.new keeper.new }
    ensures steady { IsSteady S.kept S.stands keeper.old }
    ensures stop { StopLeaves S.kept S.leaves (ChangesProperty ask ∷ [])
        keeper.old keeper.new }
{
    if turns_away(keeper, seat) {
        drop(ask);
        return Err(ChangeFault::Halted);
    }
    if !keeper.meet(seat) {
        drop(ask);
        return Err(ChangeFault::NoMemory);
    }
    let answer = make_property(keeper, rt, seat, ask);
    let _archive = keeper.archive();
    answer
}

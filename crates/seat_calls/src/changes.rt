//! The changes that a keeper makes: each is made, saved, and published.
ghost use Rattle.std.specs.Prelude.{◌≡◌, false, true, [], ◌∷◌, None};
ghost use Rattle.access.specs.{Changing.{ChangesPropertyAt, CommitsAt, LocksAt, ReplacesAt, UnlocksAt}, Points.content_of, Refused.{HasPath, without_path}};
ghost use Rattle.repo_api.specs.{Accepted.Accepted.{ChangesProperty, Commits, Locks, Releases, Unlocks}, Commits.IsRefusedAt, Locking.releases};
ghost use Rattle.repo_api.specs.Transactions.{MayCommit};
ghost use Rattle.published.specs.{Events.knowing, Moments.shared_rules};
ghost use Rattle.keepers.specs.Standing.{HappensAt, StopLeaves, now_of};
ghost use Rattle.seat_calls.specs.Releasing.{ReleasesHanded, ReleasesTo, Revises, released_as, releases_of};

use access::{Committed, Handed, NotCommitted, Released, handed_locks, refused_commit};
use archives::Archive;
use keepers::Keeper;
use left_right::Absorb;
use noted::Noted;
use published::{AskedChange, Carries, Naming, Published, Sets, commits_are_right};
use repo_api::{ChangeFault, CommitAsk, LockAsk, PropertyAsk, Repository, UnlockAsk};
use seats::Seat;
use std::alloc::AllocError;
use std::mem::drop;
use std::sync::Wait;

/// Says what a release is reported as.
fn released(answer: Result<(), ChangeFault>) -> Released
    ensures { result ≡ released_as answer }
{
    match answer {
        Ok(()) => Released::Settled,
        Err(ChangeFault::NoMemory) => Released::NoMemory,
        Err(_) => Released::StoreFailed,
    }
}

/// Makes the transaction the next revision. A refusal comes with a path at which the commit is refused, if it is at
/// one.
fn make_revision<
    R: Repository,
    S: Archive<R>,
    J: Naming,
    T: Absorb<O> + Carries<Published<R, J>> + Drop,
    O: Sets<Published<R, J>> + Drop,
    W: Wait,
>(
    keeper: &mut Keeper<R, S, J, T, O>,
    rt: &W,
    seat: &mut Seat<R, J, T>,
    ask: CommitAsk,
    txn: R::Txn,
) -> Result<u64, NotCommitted>
    requires met { seat.old ≡ knowing seat.old.number keeper.old.list }
    requires may { MayCommit (content_of (now_of seat.old.number keeper.old)) (R.txn_state txn) }
    ensures point { HappensAt (Revises ask (R.txn_state txn)) seat.old.number keeper.old
        (without_path result) keeper.new }
    ensures path { HasPath result
        (IsRefusedAt (content_of (now_of seat.old.number keeper.new)) ask (R.txn_state txn)) }
    ensures told { seat.new ≡ knowing seat.old.number keeper.new.list }
    ensures stop { StopLeaves S.kept S.leaves (Commits ask (R.txn_state txn) ∷ []) keeper.old keeper.new }
{
    commits_are_right();
    match keeper.readiness() {
        Err(fault) => {
            drop((ask, txn));
            Err(NotCommitted { fault, path: None })
        }
        Ok(()) => {
            let asked = AskedChange::Commit(Noted::of(&ask), Noted::of(&txn));
            match keeper.archive().committed(&ask, &txn) {
                Err(fault) => {
                    drop(asked);
                    let refused = refused_commit(keeper.repository(), &ask, &txn, fault);
                    drop((ask, txn));
                    Err(refused)
                }
                Ok(made) => {
                    drop((ask, txn));
                    let revision = made.0.youngest();
                    match keeper.settle(rt, seat, made, asked) {
                        Ok(()) => Ok(revision),
                        Err(fault) => Err(NotCommitted { fault, path: None }),
                    }
                }
            }
        }
    }
}

/// Takes the locks away that were handed in, of which there is one.
fn take_locks<
    R: Repository,
    S: Archive<R>,
    J: Naming,
    T: Absorb<O> + Carries<Published<R, J>> + Drop,
    O: Sets<Published<R, J>> + Drop,
    W: Wait,
>(
    keeper: &mut Keeper<R, S, J, T, O>,
    rt: &W,
    seat: &mut Seat<R, J, T>,
    handed: &Handed,
) -> Result<(), ChangeFault>
    requires met { seat.old ≡ knowing seat.old.number keeper.old.list }
    requires wanted { releases handed.now.user handed.now.tokens
        (content_of (now_of seat.old.number keeper.old)).locks ≡ true }
    ensures point { HappensAt (ReplacesAt shared_rules None
        (Releases handed.now.user handed.now.tokens)) seat.old.number keeper.old result keeper.new }
    ensures told { seat.new ≡ knowing seat.old.number keeper.new.list }
    ensures stop { StopLeaves S.kept S.leaves (Releases handed.now.user handed.now.tokens ∷ []) keeper.old keeper.new }
{
    match keeper.readiness() {
        Err(fault) => Err(fault),
        Ok(()) => {
            let asked = AskedChange::Release(Noted::of(handed));
            match keeper.archive().released(handed) {
                Err(fault) => {
                    drop(asked);
                    Err(fault)
                }
                Ok(made) => keeper.settle(rt, seat, made, asked),
            }
        }
    }
}

/// Releases what was handed in.
fn release<
    R: Repository,
    S: Archive<R>,
    J: Naming,
    T: Absorb<O> + Carries<Published<R, J>> + Drop,
    O: Sets<Published<R, J>> + Drop,
    W: Wait,
>(keeper: &mut Keeper<R, S, J, T, O>, rt: &W, seat: &mut Seat<R, J, T>, handed: &Handed) -> Released
    requires met { seat.old ≡ knowing seat.old.number keeper.old.list }
    requires running { (now_of seat.old.number keeper.old).halted ≡ false }
    ensures point { HappensAt (ReleasesTo handed.now) seat.old.number keeper.old result keeper.new }
    ensures told { seat.new ≡ knowing seat.old.number keeper.new.list }
    ensures stop { StopLeaves S.kept S.leaves (Releases handed.now.user handed.now.tokens ∷ []) keeper.old keeper.new }
{
    if !keeper
        .repository()
        .releases(handed.user.as_ref(), &handed.tokens)
    {
        let _archive = keeper.archive();
        return Released::Settled;
    }
    released(take_locks(keeper, rt, seat, handed))
}

/// Releases what was handed in, if something was.
fn release_handed<
    R: Repository,
    S: Archive<R>,
    J: Naming,
    T: Absorb<O> + Carries<Published<R, J>> + Drop,
    O: Sets<Published<R, J>> + Drop,
    W: Wait,
>(
    keeper: &mut Keeper<R, S, J, T, O>,
    rt: &W,
    seat: &mut Seat<R, J, T>,
    handed: Option<Handed>,
) -> Released
    requires met { seat.old ≡ knowing seat.old.number keeper.old.list }
    requires running { (now_of seat.old.number keeper.old).halted ≡ false }
    ensures point { HappensAt (ReleasesHanded handed) seat.old.number keeper.old result keeper.new }
    ensures told { seat.new ≡ knowing seat.old.number keeper.new.list }
    ensures stop { StopLeaves S.kept S.leaves (releases_of handed) keeper.old keeper.new }
{
    match handed {
        None => {
            let _archive = keeper.archive();
            Released::Settled
        }
        Some(handed) => release(keeper, rt, seat, &handed),
    }
}

/// Commits, and then releases what was handed in.
pub(crate) fn make_commit<
    R: Repository,
    S: Archive<R>,
    J: Naming,
    T: Absorb<O> + Carries<Published<R, J>> + Drop,
    O: Sets<Published<R, J>> + Drop,
    W: Wait,
>(
    keeper: &mut Keeper<R, S, J, T, O>,
    rt: &W,
    seat: &mut Seat<R, J, T>,
    ask: CommitAsk,
    txn: R::Txn,
) -> Result<Committed, NotCommitted>
    requires met { seat.old ≡ knowing seat.old.number keeper.old.list }
    requires may { MayCommit (content_of (now_of seat.old.number keeper.old)) (R.txn_state txn) }
    ensures point { HappensAt (CommitsAt shared_rules ask (R.txn_state txn)) seat.old.number keeper.old
        (without_path result) keeper.new }
    ensures path { HasPath result
        (IsRefusedAt (content_of (now_of seat.old.number keeper.new)) ask (R.txn_state txn)) }
    ensures told { seat.new ≡ knowing seat.old.number keeper.new.list }
    ensures stop { StopLeaves S.kept S.leaves (Commits ask (R.txn_state txn) ∷ Releases ask.author ask.tokens ∷ []) keeper.old keeper.new }
{
    let _archive = keeper.archive();
    match handed_locks(&ask) {
        Err(AllocError) => {
            drop((ask, txn));
            Err(NotCommitted {
                fault: ChangeFault::NoMemory,
                path: None,
            })
        }
        Ok(handed) => match make_revision(keeper, rt, seat, ask, txn) {
            Err(refused) => {
                drop(handed);
                Err(refused)
            }
            Ok(revision) => {
                let _archive = keeper.archive();
                Ok(Committed {
                    revision,
                    released: release_handed(keeper, rt, seat, handed),
                })
            }
        },
    }
}

/// Locks.
pub(crate) fn make_lock<
    R: Repository,
    S: Archive<R>,
    J: Naming,
    T: Absorb<O> + Carries<Published<R, J>> + Drop,
    O: Sets<Published<R, J>> + Drop,
    W: Wait,
>(
    keeper: &mut Keeper<R, S, J, T, O>,
    rt: &W,
    seat: &mut Seat<R, J, T>,
    ask: LockAsk,
) -> Result<(), ChangeFault>
    requires met { seat.old ≡ knowing seat.old.number keeper.old.list }
    ensures point { HappensAt (LocksAt shared_rules ask) seat.old.number keeper.old result keeper.new }
    ensures told { seat.new ≡ knowing seat.old.number keeper.new.list }
    ensures stop { StopLeaves S.kept S.leaves (Locks ask ∷ []) keeper.old keeper.new }
{
    match keeper.readiness() {
        Err(fault) => {
            drop(ask);
            Err(fault)
        }
        Ok(()) => {
            let asked = AskedChange::Lock(Noted::of(&ask));
            match keeper.archive().locked(ask) {
                Err(fault) => {
                    drop(asked);
                    Err(fault)
                }
                Ok(made) => keeper.settle(rt, seat, made, asked),
            }
        }
    }
}

/// Unlocks.
pub(crate) fn make_unlock<
    R: Repository,
    S: Archive<R>,
    J: Naming,
    T: Absorb<O> + Carries<Published<R, J>> + Drop,
    O: Sets<Published<R, J>> + Drop,
    W: Wait,
>(
    keeper: &mut Keeper<R, S, J, T, O>,
    rt: &W,
    seat: &mut Seat<R, J, T>,
    ask: &UnlockAsk,
) -> Result<(), ChangeFault>
    requires met { seat.old ≡ knowing seat.old.number keeper.old.list }
    ensures point { HappensAt (UnlocksAt shared_rules ask.now) seat.old.number keeper.old result keeper.new }
    ensures told { seat.new ≡ knowing seat.old.number keeper.new.list }
    ensures stop { StopLeaves S.kept S.leaves (Unlocks ask.now ∷ []) keeper.old keeper.new }
{
    match keeper.readiness() {
        Err(fault) => Err(fault),
        Ok(()) => {
            let asked = AskedChange::Unlock(Noted::of(ask));
            match keeper.archive().unlocked(ask) {
                Err(fault) => {
                    drop(asked);
                    Err(fault)
                }
                Ok(made) => keeper.settle(rt, seat, made, asked),
            }
        }
    }
}

/// Changes a property of a revision.
pub(crate) fn make_property<
    R: Repository,
    S: Archive<R>,
    J: Naming,
    T: Absorb<O> + Carries<Published<R, J>> + Drop,
    O: Sets<Published<R, J>> + Drop,
    W: Wait,
>(
    keeper: &mut Keeper<R, S, J, T, O>,
    rt: &W,
    seat: &mut Seat<R, J, T>,
    ask: PropertyAsk,
) -> Result<(), ChangeFault>
    requires met { seat.old ≡ knowing seat.old.number keeper.old.list }
    ensures point { HappensAt (ChangesPropertyAt shared_rules ask) seat.old.number keeper.old result keeper.new }
    ensures told { seat.new ≡ knowing seat.old.number keeper.new.list }
    ensures stop { StopLeaves S.kept S.leaves (ChangesProperty ask ∷ []) keeper.old keeper.new }
{
    match keeper.readiness() {
        Err(fault) => {
            drop(ask);
            Err(fault)
        }
        Ok(()) => {
            let asked = AskedChange::Property(Noted::of(&ask));
            match keeper.archive().property_changed(ask) {
                Err(fault) => {
                    drop(asked);
                    Err(fault)
                }
                Ok(made) => keeper.settle(rt, seat, made, asked),
            }
        }
    }
}

//! The keeper under a lock, by which threads change the repository, each by a seat of its own.
ghost use Rattle.std.specs.Prelude.{◌≡◌, [], ◌∷◌, IfOk};
ghost use Rattle.access.specs.{Changing.{ChangesPropertyAt, CommitsAt, LocksAt, UnlocksAt}, Points.content_of, Refused.{HasPath, without_path}};
ghost use Rattle.published.specs.{Events.point_of, Files.MayOpen, Moments.shared_rules};
ghost use Rattle.repo_api.specs.{Accepted.Accepted.{ChangesProperty, Commits, Locks, Releases, Unlocks}, Commits.IsRefusedAt, Transactions.MayCommit};
ghost use Rattle.keepers.specs.Standing.{HaveSeenOpening};
ghost use Rattle.seat_calls.specs.Calls.{Answers, CallsUnderLock};

use access::{Committed, NotCommitted};
use archives::Archive;
use keepers::Keeper;
use left_right::Absorb;
use published::{Carries, Naming, NewHistory, Published, Sets, Setting, Shown};
use repo_api::{ChangeFault, CommitAsk, LockAsk, PropertyAsk, Repository, UnlockAsk};
use seats::Seat;
use std::alloc::{AllocError, Global};
use std::sync::atomic::{AtomicBool, Ordering};
use std::sync::{Mutex, Wait};

/// A keeper that threads share, and whether changes have come to a halt: that is read without a wait.
pub struct Locked<
    R: Repository,
    S: Archive<R>,
    J: Naming,
    T: Absorb<O> + Carries<Published<R, J>> + Drop,
    O: Sets<Published<R, J>> + Drop,
> {
    keeper: Mutex<Keeper<R, S, J, T, O>>,
    has_halted: AtomicBool,
}

impl<
    R: Repository,
    S: Archive<R>,
    J: Naming,
    T: Absorb<O> + Carries<Published<R, J>> + Drop,
    O: Sets<Published<R, J>> + Drop,
> Drop for Locked<R, S, J, T, O> {
    fn drop(self) {
        let Locked {
            keeper: _,
            has_halted: _,
        } = self;
    }
}

/// The shared repository.
pub type SharedRepo<R, S, J> = Locked<R, S, J, Shown<Published<R, J>>, Setting<Published<R, J>>>;

impl<
    R: Repository,
    S: Archive<R>,
    J: Naming,
    T: Absorb<O> + Carries<Published<R, J>> + Drop,
    O: Sets<Published<R, J>> + Drop,
> Locked<R, S, J, T, O> {
    /// Makes a shared repository, whose files the archive has, and so many seats.
    pub fn open(
        alloc: Global,
        repository: R,
        archive: S,
        seats: usize,
        history: NewHistory,
    ) -> Result<(Locked<R, S, J, T, O>, Vec<Seat<R, J, T>>), AllocError>
        requires book { history.seen.book ≡ J.book }
        requires alike { (x y : T) → T.state x ≡ T.state y }
        requires stands { MayOpen (S.kept archive) (R.content repository) }
        ensures { IfOk result (λ r. HaveSeenOpening (R.content repository)
            (S.kept archive).failures r.1.items) }
    {
        let (keeper, seats) = Keeper::open(alloc, repository, archive, seats, history)?;
        Ok((
            Locked {
                keeper: Mutex::new(keeper),
                has_halted: AtomicBool::new(false),
            },
            seats,
        ))
    }

    /// Ends it, unless memory is refused: looks and changes are then refused.
    pub fn end<W: Wait>(&self, rt: &W) -> Result<(), AllocError>
        requires { (x y : T) → T.state x ≡ T.state y }
    {
        self.keeper.lock(rt).end(rt)
    }

    /// Says whether some call has found that changes have come to a halt. It waits for nobody.
    pub fn has_halted(&self) -> bool {
        self.has_halted.load(Ordering::SeqCst)
    }

    /// Notes for all what a seat has learned.
    fn note(&self, seat: &Seat<R, J, T>) {
        if seat.is_halted() {
            self.has_halted.store(true, Ordering::SeqCst);
        }
    }

    /// Makes the transaction the next revision, and then, unless the locks are to stay, releases those of
    /// the user's that were handed in. A refusal comes with a path at which the commit is refused, if it is at one.
    pub fn commit<W: Wait>(
        &self,
        rt: &W,
        seat: &mut Seat<R, J, T>,
        ask: CommitAsk,
        txn: R::Txn,
    ) -> Result<Committed, NotCommitted>
        requires { MayCommit (content_of (point_of seat.old)) (R.txn_state txn) }
        ensures answers { Answers (CommitsAt shared_rules ask (R.txn_state txn)) seat.old
            (without_path result) seat.new }
        ensures path { HasPath result
            (IsRefusedAt (content_of (point_of seat.new)) ask (R.txn_state txn)) }
        ensures lock { CallsUnderLock S.kept S.stands S.leaves (CommitsAt shared_rules ask (R.txn_state txn))
            (Commits ask (R.txn_state txn) ∷ Releases ask.author ask.tokens ∷ []) seat.old
            (without_path result) seat.new }
    {
        let answer = seat_calls::commit(&mut self.keeper.lock(rt), rt, seat, ask, txn);
        self.note(seat);
        answer
    }

    /// Locks the path of a file, in place of a lock that stands there if that may be stolen.
    pub fn lock<W: Wait>(
        &self,
        rt: &W,
        seat: &mut Seat<R, J, T>,
        ask: LockAsk,
    ) -> Result<(), ChangeFault>
        ensures answers { Answers (LocksAt shared_rules ask) seat.old result seat.new }
        ensures lock { CallsUnderLock S.kept S.stands S.leaves (LocksAt shared_rules ask)
            (Locks ask ∷ []) seat.old result seat.new }
    {
        let answer = seat_calls::lock(&mut self.keeper.lock(rt), rt, seat, ask);
        self.note(seat);
        answer
    }

    /// Takes the lock at a path away.
    pub fn unlock<W: Wait>(
        &self,
        rt: &W,
        seat: &mut Seat<R, J, T>,
        ask: &UnlockAsk,
    ) -> Result<(), ChangeFault>
        ensures answers { Answers (UnlocksAt shared_rules ask.now) seat.old result seat.new }
        ensures lock { CallsUnderLock S.kept S.stands S.leaves (UnlocksAt shared_rules ask.now)
            (Unlocks ask.now ∷ []) seat.old result seat.new }
    {
        let answer = seat_calls::unlock(&mut self.keeper.lock(rt), rt, seat, ask);
        self.note(seat);
        answer
    }

    /// Makes this the value of a property of a revision, or takes the property out where there is no
    /// value, if the value before is the one that is asked for.
    pub fn set_rev_prop<W: Wait>(
        &self,
        rt: &W,
        seat: &mut Seat<R, J, T>,
        ask: PropertyAsk,
    ) -> Result<(), ChangeFault>
        ensures answers { Answers (ChangesPropertyAt shared_rules ask) seat.old result seat.new }
        ensures lock { CallsUnderLock S.kept S.stands S.leaves (ChangesPropertyAt shared_rules ask)
            (ChangesProperty ask ∷ []) seat.old result seat.new }
    {
        let answer = seat_calls::set_rev_prop(&mut self.keeper.lock(rt), rt, seat, ask);
        self.note(seat);
        answer
    }
}

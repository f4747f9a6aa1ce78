//! An access in two parts: one looks, and has nothing by which it could wait, and one changes.
ghost use Rattle.std.specs.Prelude.{◌≡◌, ◌≤◌, true, IfOk, [], ◌∷◌, ◌++◌};
ghost use Rattle.repo_api.specs.{Accepted.{Accepted, changed}, Commits.IsRefusedAt, Soundness.AreSound, States.IsBeginning, Transactions.MayCommit};
ghost use Rattle.access.specs.{Points.{Point, AccessRules, content_of}, Changing.{CommitsAt, LocksAt, UnlocksAt, ChangesPropertyAt, Happens}};
ghost use Rattle.access.specs.Refused.{HasPath, without_path};

use crate::access::{Committed, RepoAccess, SharedAccess};
use crate::not_committed::NotCommitted;
use repo_api::{ChangeFault, CommitAsk, LockAsk, PropertyAsk, Repository, UnlockAsk};
use std::alloc::AllocError;

/// The part of an access that looks at a repository which others change too.
pub trait Looks {
    /// The repository at one moment.
    type View: Repository;

    /// The last moment that was shown.
    ghost point: { Self → Point };

    /// What leads from one moment to another.
    ghost rules: { AccessRules };

    /// Gives the repository as it is now.
    fn look(&mut self) -> Result<Self::View, AllocError>
        ensures view { IfOk result (λ view. Self.View.content view ≡ content_of (point self.new)) }
        ensures later { rules.between (point self.old) (point self.new) };

    /// Says whether no change is made any more.
    fn is_halted(&self) -> bool
        ensures { result ≡ (point self.now).halted };

    ghost stays: { (p : Point) → rules.between p p };

    ghost goes_on: { (p q r : Point) → rules.between p q → rules.between q r → rules.between p r };

    /// What is shown never goes back.
    ghost keeps: { (p q : Point) → rules.between p q
        → IsBeginning (content_of p).revisions (content_of q).revisions };

    /// Others leave the trees of the repository sound.
    ghost sound: { (p q : Point) → rules.between p q
        → AreSound (content_of p).revisions → AreSound (content_of q).revisions };

    /// Changes that have come to a halt are not made again, what was being saved then stays known, and the count
    /// of failures never falls.
    ghost lasts: { (p q : Point) → rules.between p q
        → (p.halted ≡ true → (q.halted ≡ true) × (q.pending ≡ p.pending)) × (p.failures ≤ q.failures) };

    /// An own change is the one that was asked for.
    ghost counts: { (p : Point) (e : Accepted) (q : Point) → rules.adds p e q
        → (content_of q ≡ changed (content_of p) e) × (q.halted ≡ p.halted) × (q.failures ≡ p.failures)
        × (q.pending ≡ p.pending) };

    /// No change between two calls is one's own.
    ghost others: { (p q : Point) → rules.between p q → q.own ≡ p.own };

    /// A change of one's own is one more of these.
    ghost counted: { (p : Point) (e : Accepted) (q : Point) → rules.adds p e q
        → q.own ≡ p.own ++ e ∷ [] };
}

/// The part of an access that changes the repository, for the one that looks. It may wait for others.
pub trait Changes<L: Looks> {
    /// Makes the transaction the next revision, and then, unless the locks are to stay, releases those of the user's that
    /// were handed in, as `RepoAccess::commit` says.
    fn commit(
        &mut self,
        looks: &mut L,
        ask: CommitAsk,
        txn: <L::View as Repository>::Txn,
    ) -> Result<Committed, NotCommitted>
        requires { MayCommit (content_of (L.point looks.old)) (L.View.txn_state txn) }
        ensures change { Happens L.rules (CommitsAt L.rules ask (L.View.txn_state txn))
            (L.point looks.old) (without_path result) (L.point looks.new) }
        ensures path { HasPath result
            (IsRefusedAt (content_of (L.point looks.new)) ask (L.View.txn_state txn)) };

    /// Locks the path of a file, in place of a lock that stands there if that may be stolen.
    fn lock(&mut self, looks: &mut L, ask: LockAsk) -> Result<(), ChangeFault>
        ensures { Happens L.rules (LocksAt L.rules ask) (L.point looks.old) result (L.point looks.new) };

    /// Takes the lock at a path away.
    fn unlock(&mut self, looks: &mut L, ask: &UnlockAsk) -> Result<(), ChangeFault>
        ensures { Happens L.rules (UnlocksAt L.rules ask.now) (L.point looks.old) result
            (L.point looks.new) };

    /// Makes this the value of a property of a revision, or takes the property out where there is no
    /// value, if the value before is the one that is asked for.
    fn set_rev_prop(&mut self, looks: &mut L, ask: PropertyAsk) -> Result<(), ChangeFault>
        ensures { Happens L.rules (ChangesPropertyAt L.rules ask) (L.point looks.old) result
            (L.point looks.new) };
}

/// An access of two parts.
pub struct SplitAccess<L: Drop, C: Drop> {
    pub looks: L,
    pub changes: C,
}

impl<L: Drop, C: Drop> Drop for SplitAccess<L, C> {
    fn drop(self) {
        let SplitAccess {
            looks: _,
            changes: _,
        } = self;
    }
}

impl<L: Looks + Drop, C: Changes<L> + Drop> RepoAccess for SplitAccess<L, C> {
    type View = L::View;

    ghost point = { λ a. L.point a.looks };

    ghost rules = { L.rules };

    ghost stays = { L.stays };

    ghost goes_on = { L.goes_on };

    ghost keeps = { L.keeps };

    ghost sound = { L.sound };

    ghost lasts = { L.lasts };

    ghost counts = { L.counts };

    fn look(&mut self) -> Result<L::View, AllocError> {
        self.looks.look()
    }

    fn is_halted(&self) -> bool {
        self.looks.is_halted()
    }

    fn commit(
        &mut self,
        ask: CommitAsk,
        txn: <L::View as Repository>::Txn,
    ) -> Result<Committed, NotCommitted> {
        self.changes.commit(&mut self.looks, ask, txn)
    }

    fn lock(&mut self, ask: LockAsk) -> Result<(), ChangeFault> {
        self.changes.lock(&mut self.looks, ask)
    }

    fn unlock(&mut self, ask: &UnlockAsk) -> Result<(), ChangeFault> {
        self.changes.unlock(&mut self.looks, ask)
    }

    fn set_rev_prop(&mut self, ask: PropertyAsk) -> Result<(), ChangeFault> {
        self.changes.set_rev_prop(&mut self.looks, ask)
    }
}

impl<L: Looks + Drop, C: Changes<L> + Drop> SharedAccess for SplitAccess<L, C> {
    ghost others = { L.others };

    ghost counted = { L.counted };
}

//! A repository as a session reaches it.
ghost use Rattle.std.specs.Prelude.{◌≡◌, ◌≤◌, true, IfOk, [], ◌∷◌, ◌++◌};
ghost use Rattle.repo_api.specs.{Accepted.{Accepted, changed}, Commits.IsRefusedAt, Soundness.AreSound, States.IsBeginning, Transactions.MayCommit};
ghost use Rattle.access.specs.{Points.{Point, AccessRules, content_of}, Changing.{CommitsAt, LocksAt, UnlocksAt, ChangesPropertyAt, Happens}};
ghost use Rattle.access.specs.Refused.{HasPath, without_path};

use crate::not_committed::NotCommitted;
use repo_api::{ChangeFault, CommitAsk, LockAsk, PropertyAsk, Repository, UnlockAsk};
use std::alloc::AllocError;

/// What became of the locks that were handed in with a commit.
#[derive(Clone, Copy)]
pub enum Released {
    /// They are released, unless no release is wanted.
    Settled,
    /// Memory was refused for their release, and they stand.
    NoMemory,
    /// The store failed at their release: they stand; or nobody knows whether they do, and no change is made any more.
    StoreFailed,
}

/// A commit that was made: the number of its revision, and what became of the locks that were handed in.
#[derive(Clone, Copy)]
pub struct Committed {
    pub revision: u64,
    pub released: Released,
}

/// A repository as a session reaches it: others may change it between two of the session's inputs.
pub trait RepoAccess {
    /// The repository at one moment.
    type View: Repository;

    /// The last moment that was shown.
    ghost point: { Self → Point };

    /// What leads from one moment to another.
    ghost rules: { AccessRules };

    /// Gives the repository as it is now.
    fn look(&mut self) -> Result<Self::View, AllocError>
        ensures view { IfOk result (λ view. Self.View.content view ≡ content_of (point self.new)) }
        ensures later { rules.between (point self.old) (point self.new) };

    /// Says whether no change is made any more.
    fn is_halted(&self) -> bool
        ensures { result ≡ (point self.now).halted };

    /// Makes the transaction the next revision, and then, unless the locks are to stay, releases those of
    /// the user's that were handed in, each by its path and its token: one that was stolen since then stays,
    /// and nobody changes the repository between the two. The transaction was last shown revisions that this
    /// access has shown, its tree is a tree, and its marks name what they mark. A refusal comes with a path at which
    /// the commit is refused, if it is at one: the repository is then as it was when it refused the commit.
    fn commit(
        &mut self,
        ask: CommitAsk,
        txn: <Self::View as Repository>::Txn,
    ) -> Result<Committed, NotCommitted>
        requires { MayCommit (content_of (point self.old)) (Self.View.txn_state txn) }
        ensures change { Happens rules (CommitsAt rules ask (Self.View.txn_state txn))
            (point self.old) (without_path result) (point self.new) }
        ensures path { HasPath result
            (IsRefusedAt (content_of (point self.new)) ask (Self.View.txn_state txn)) };

    /// Locks the path of a file, in place of a lock that stands there if that may be stolen.
    fn lock(&mut self, ask: LockAsk) -> Result<(), ChangeFault>
        ensures { Happens rules (LocksAt rules ask) (point self.old) result (point self.new) };

    /// Takes the lock at a path away.
    fn unlock(&mut self, ask: &UnlockAsk) -> Result<(), ChangeFault>
        ensures { Happens rules (UnlocksAt rules ask.now) (point self.old) result (point self.new) };

    /// Makes this the value of a property of a revision, or takes the property out where there is no
    /// value, if the value before is the one that is asked for.
    fn set_rev_prop(&mut self, ask: PropertyAsk) -> Result<(), ChangeFault>
        ensures { Happens rules (ChangesPropertyAt rules ask) (point self.old) result (point self.new) };

    ghost stays: { (p : Point) → rules.between p p };

    ghost goes_on: { (p q r : Point) → rules.between p q → rules.between q r → rules.between p r };

    /// What is shown never goes back.
    ghost keeps: { (p q : Point) → rules.between p q
        → IsBeginning (content_of p).revisions (content_of q).revisions };

    /// Others leave the trees of the repository sound.
    ghost sound: { (p q : Point) → rules.between p q
        → AreSound (content_of p).revisions → AreSound (content_of q).revisions };

    /// Changes that have come to a halt are not made again, what was being saved then stays known, and the count
    /// of failures never falls.
    ghost lasts: { (p q : Point) → rules.between p q
        → (p.halted ≡ true → (q.halted ≡ true) × (q.pending ≡ p.pending)) × (p.failures ≤ q.failures) };

    /// An own change is the one that was asked for.
    ghost counts: { (p : Point) (e : Accepted) (q : Point) → rules.adds p e q
        → (content_of q ≡ changed (content_of p) e) × (q.halted ≡ p.halted) × (q.failures ≡ p.failures)
        × (q.pending ≡ p.pending) };
}

/// An access that others share: its own changes are told from theirs.
pub trait SharedAccess: RepoAccess {
    /// No change between two calls is one's own.
    ghost others: { (p q : Point) → Self.rules.between p q → q.own ≡ p.own };

    /// A change of one's own is one more of these.
    ghost counted: { (p : Point) (e : Accepted) (q : Point) → Self.rules.adds p e q
        → q.own ≡ p.own ++ e ∷ [] };
}

/// An access that nobody shares: nothing changes between two calls.
pub trait SoleAccess: RepoAccess {
    ghost alone: { (p q : Point) → Self.rules.between p q
        → (content_of p ≡ content_of q) × (p.halted ≡ q.halted) × (p.failures ≡ q.failures)
        × (p.pending ≡ q.pending) };
}

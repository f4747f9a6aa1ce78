//! A repository in files as a session reaches it.
ghost use Rattle.std.specs.Prelude.{◌≡◌, [], ◌∷◌, Err, false};
ghost use Rattle.access.specs.{Changing.{ChangesPropertyAt, CommitsAt, Happens, LocksAt, UnlocksAt}, Handed.IsHandedIn, Points.content_of};
ghost use Rattle.access.specs.{Refused.{HasPath, IfRefusal, without_path}, Sole.sole_rules};
ghost use Rattle.repo_api.specs.{Accepted.Accepted.{ChangesProperty, Commits, Locks, Releases, Unlocks}, Commits.IsRefusedAt, Transactions.MayCommit};
ghost use Rattle.stored_repository.specs.Stored.{StopLeaves, point_of};

use crate::change::{SavedChange, copied};
use crate::filed::Filed;
use crate::stored::StoredRepository;
use access::{
    Committed, Handed, NotCommitted, RepoAccess, SoleAccess, handed_locks, refused_commit,
};
use repo_api::{ChangeFault, CommitAsk, LockAsk, PropertyAsk, UnlockAsk};
use std::alloc::AllocError;
use store_files::Store;

impl<F: Filed, S: Store> StoredRepository<F, S> {
    /// Makes the transaction the next revision, and then releases what was handed in with it. A stop at any moment
    /// of the call leaves the files of the repository from before it, with the revision, or without the
    /// released locks too. A refusal comes with a path at which the commit is refused, if it is at one.
    pub fn commit_in_files(
        &mut self,
        ask: CommitAsk,
        txn: F::Txn,
    ) -> Result<Committed, NotCommitted>
        requires { MayCommit (F.content self.old.repository) (F.txn_state txn) }
        ensures point { CommitsAt sole_rules ask (F.txn_state txn) (point_of self.old)
            (without_path result) (point_of self.new) }
        ensures path { HasPath result
            (IsRefusedAt (content_of (point_of self.new)) ask (F.txn_state txn)) }
        ensures stop { StopLeaves (Commits ask (F.txn_state txn) ∷ Releases ask.author ask.tokens ∷ [])
            self.old self.new }
    {
        if self.saves.is_halted() {
            std::mem::drop((ask, txn));
            return Err(NotCommitted {
                fault: ChangeFault::Halted,
                path: None,
            });
        }
        match handed_locks(&ask) {
            Ok(handed) => self.commit_and_release(ask, txn, handed),
            Err(AllocError) => {
                std::mem::drop((ask, txn));
                Err(NotCommitted {
                    fault: ChangeFault::NoMemory,
                    path: None,
                })
            }
        }
    }

    /// Commits, and then releases what was handed in with it.
    fn commit_and_release(
        &mut self,
        ask: CommitAsk,
        txn: F::Txn,
        handed: Option<Handed>,
    ) -> Result<Committed, NotCommitted>
        requires goes_on { self.old.saves.is_halted ≡ false }
        requires may { MayCommit (F.content self.old.repository) (F.txn_state txn) }
        requires handed_in { IsHandedIn ask handed }
        ensures point { CommitsAt sole_rules ask (F.txn_state txn) (point_of self.old)
            (without_path result) (point_of self.new) }
        ensures path { HasPath result
            (IsRefusedAt (content_of (point_of self.new)) ask (F.txn_state txn)) }
        ensures stop { StopLeaves (Commits ask (F.txn_state txn) ∷ Releases ask.author ask.tokens ∷ [])
            self.old self.new }
    {
        match self.repository.committed(&ask, &txn) {
            Ok((next, new)) => {
                match self.settle_revision(next, &new, SavedChange::Commit(ask, txn)) {
                    Ok(()) => Ok(Committed {
                        revision: new.number,
                        released: self.release_handed(handed),
                    }),
                    Err(fault) => {
                        std::mem::drop(handed);
                        Err(NotCommitted { fault, path: None })
                    }
                }
            }
            Err(fault) => {
                let refused = self.refuse_commit(&ask, &txn, fault);
                std::mem::drop((ask, txn, handed));
                Err(refused)
            }
        }
    }

    /// Makes the answer to a commit that was not made, and has changed nothing.
    fn refuse_commit(&self, ask: &CommitAsk, txn: &F::Txn, fault: ChangeFault) -> NotCommitted
        requires may { MayCommit (F.content self.now.repository) (F.txn_state txn.now) }
        requires came { CommitsAt sole_rules ask.now (F.txn_state txn.now) (point_of self.now)
            (Err fault) (point_of self.now) }
        ensures point { CommitsAt sole_rules ask.now (F.txn_state txn.now) (point_of self.now)
            (Err result.fault) (point_of self.now) }
        ensures path { IfRefusal result.fault (IsRefusedAt (content_of (point_of self.now)) ask.now
            (F.txn_state txn.now) result.path) }
    {
        refused_commit(&self.repository, ask, txn, fault)
    }

    /// Locks the path of a file, in place of a lock that stands there if that may be stolen. A stop at any moment of
    /// the call leaves the files of the repository from before it, or with the lock.
    pub fn lock_in_files(&mut self, ask: LockAsk) -> Result<(), ChangeFault>
        ensures point { LocksAt sole_rules ask (point_of self.old) result (point_of self.new) }
        ensures stop { StopLeaves (Locks ask ∷ []) self.old self.new }
    {
        if self.saves.is_halted() {
            return Err(ChangeFault::Halted);
        }
        match self.repository.locked(&ask) {
            Ok((next, file)) => self.settle_locks(next, &file, SavedChange::Lock(ask)),
            Err(fault) => Err(fault),
        }
    }

    /// Takes the lock at a path away. A stop at any moment of the call leaves the files of the repository
    /// from before it, or without the lock.
    pub fn unlock_in_files(&mut self, ask: &UnlockAsk) -> Result<(), ChangeFault>
        ensures point { UnlocksAt sole_rules ask.now (point_of self.old) result
            (point_of self.new) }
        ensures stop { StopLeaves (Unlocks ask.now ∷ []) self.old self.new }
    {
        if self.saves.is_halted() {
            return Err(ChangeFault::Halted);
        }
        let Ok(asked) = copied(ask) else {
            return Err(ChangeFault::NoMemory);
        };
        match self.repository.unlocked(&asked) {
            Ok((next, file)) => self.settle_locks(next, &file, SavedChange::Unlock(asked)),
            Err(fault) => Err(fault),
        }
    }

    /// Makes this the value of a property of a revision, or takes the property out where there is no value, if the
    /// value before is the one that is asked for. A stop at any moment of the call leaves the files of the repository
    /// from before it, or with the change.
    pub fn change_property_in_files(&mut self, ask: PropertyAsk) -> Result<(), ChangeFault>
        ensures point { ChangesPropertyAt sole_rules ask (point_of self.old) result
            (point_of self.new) }
        ensures stop { StopLeaves (ChangesProperty ask ∷ []) self.old self.new }
    {
        if self.saves.is_halted() {
            return Err(ChangeFault::Halted);
        }
        match self.repository.property_changed(&ask) {
            Ok((next, new)) => self.settle_properties(next, &new, SavedChange::Property(ask)),
            Err(fault) => Err(fault),
        }
    }
}

impl<F: Filed, S: Store> RepoAccess for StoredRepository<F, S> {
    ghost use Rattle.std.specs.Prelude.{◌≡◌, refl};
    ghost use Rattle.std.proofs.Common.{◌∙◌};
    ghost use Rattle.access.specs.Sole.{adds_counts, same_keeps, same_lasts, same_sound, sole_rules};

    type View = F;

    ghost point = { point_of };

    ghost rules = { sole_rules };

    ghost stays = { λ p. refl };

    ghost goes_on = { λ p q r a b. b ∙ a };

    ghost keeps = { same_keeps };

    ghost sound = { same_sound };

    ghost lasts = { same_lasts };

    ghost counts = { adds_counts };

    fn look(&mut self) -> Result<F, AllocError> {
        self.repository.share()
    }

    fn is_halted(&self) -> bool {
        self.saves.is_halted()
    }

    fn commit(&mut self, ask: CommitAsk, txn: F::Txn) -> Result<Committed, NotCommitted>
        requires { MayCommit (F.content self.old.repository) (F.txn_state txn) }
        ensures change { Happens sole_rules (CommitsAt sole_rules ask (F.txn_state txn))
            (point_of self.old) (without_path result) (point_of self.new) }
        ensures path { HasPath result
            (IsRefusedAt (content_of (point_of self.new)) ask (F.txn_state txn)) }
        ensures stop { StopLeaves (Commits ask (F.txn_state txn) ∷ Releases ask.author ask.tokens ∷ [])
            self.old self.new }
    {
        self.commit_in_files(ask, txn)
    }

    fn lock(&mut self, ask: LockAsk) -> Result<(), ChangeFault>
        ensures point { Happens sole_rules (LocksAt sole_rules ask) (point_of self.old) result
            (point_of self.new) }
        ensures stop { StopLeaves (Locks ask ∷ []) self.old self.new }
    {
        self.lock_in_files(ask)
    }

    fn unlock(&mut self, ask: &UnlockAsk) -> Result<(), ChangeFault>
        ensures point { Happens sole_rules (UnlocksAt sole_rules ask.now) (point_of self.old) result
            (point_of self.new) }
        ensures stop { StopLeaves (Unlocks ask.now ∷ []) self.old self.new }
    {
        self.unlock_in_files(ask)
    }

    fn set_rev_prop(&mut self, ask: PropertyAsk) -> Result<(), ChangeFault>
        ensures point { Happens sole_rules (ChangesPropertyAt sole_rules ask) (point_of self.old) result
            (point_of self.new) }
        ensures stop { StopLeaves (ChangesProperty ask ∷ []) self.old self.new }
    {
        self.change_property_in_files(ask)
    }
}

impl<F: Filed, S: Store> SoleAccess for StoredRepository<F, S> {
    ghost use Rattle.access.specs.Sole.{same_alone};

    ghost alone = { same_alone };
}

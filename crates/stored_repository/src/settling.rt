//! Changes saved, and then made.
ghost use Rattle.std.specs.Prelude.{◌≡◌, [], ◌∷◌, Some, false, true};
ghost use Rattle.repo_api.specs.Accepted.Accepted.{Releases};
ghost use Rattle.stored_repository.specs.{Filing.{WritesLocks, WritesProperties, WritesRevision}, Pending.accepted_by};
ghost use Rattle.stored_repository.specs.Stored.{IsAcceptedBy, IsMadeBy, Settles, StopLeaves, point_of, ReleasesBy, ReleasesKept, released_as, releases_of};

use crate::change::{SavedChange, forget};
use crate::filed::{Filed, NewProperties, NewRevision};
use crate::stored::StoredRepository;
use access::{Handed, Released};
use repo_api::ChangeFault;
use store_files::{Store, StoreFault};

/// Says how a save that failed is answered, by whether saves have come to a halt: the change of which nobody knows
/// whether it was saved is kept.
fn failed<T: Drop>(
    pending: &mut Option<SavedChange<T>>,
    is_halted: bool,
    fault: StoreFault,
    change: SavedChange<T>,
) -> ChangeFault
    ensures memory { fault ≡ StoreFault.NoMemory
        → (result ≡ ChangeFault.NoMemory) × (pending.new ≡ pending.old) }
    ensures halted { (fault ≡ StoreFault.NoMemory → ⊥) → is_halted ≡ true
        → (result ≡ ChangeFault.Halted) × (pending.new ≡ Some change) }
    ensures other { (fault ≡ StoreFault.NoMemory → ⊥) → is_halted ≡ false
        → (result ≡ ChangeFault.StoreFailed) × (pending.new ≡ pending.old) }
{
    if let StoreFault::NoMemory = fault {
        forget(change);
        return ChangeFault::NoMemory;
    }
    if !is_halted {
        forget(change);
        return ChangeFault::StoreFailed;
    }
    *pending = Some(change);
    ChangeFault::Halted
}

/// Says what a release is answered as.
fn released(answer: Result<(), ChangeFault>) -> Released
    ensures { result ≡ released_as answer }
{
    match answer {
        Ok(()) => Released::Settled,
        Err(ChangeFault::NoMemory) => Released::NoMemory,
        Err(_) => Released::StoreFailed,
    }
}

impl<F: Filed, S: Store> StoredRepository<F, S> {
    /// Saves the locks, and then has this repository.
    pub(crate) fn settle_locks(
        &mut self,
        next: F,
        file: &[u8],
        change: SavedChange<F::Txn>,
    ) -> Result<(), ChangeFault>
        requires goes_on { self.old.saves.is_halted ≡ false }
        requires accepted { IsAcceptedBy self.old change }
        requires made { IsMadeBy self.old change next }
        requires files { WritesLocks F.is_of self.old.repository file.now next }
        ensures point { Settles change next self.old result self.new }
        ensures stop { StopLeaves (accepted_by F.txn_state change ∷ []) self.old self.new }
    {
        match self.saves.save_locks(file) {
            Ok(()) => {
                forget(change);
                self.repository = next;
                Ok(())
            }
            Err(fault) => {
                let is_halted = self.saves.is_halted();
                Err(failed(&mut self.pending, is_halted, fault, change))
            }
        }
    }

    /// Saves the properties of a revision, and then has this repository.
    pub(crate) fn settle_properties(
        &mut self,
        next: F,
        new: &NewProperties,
        change: SavedChange<F::Txn>,
    ) -> Result<(), ChangeFault>
        requires goes_on { self.old.saves.is_halted ≡ false }
        requires accepted { IsAcceptedBy self.old change }
        requires made { IsMadeBy self.old change next }
        requires files { WritesProperties F.is_of self.old.repository new.now.revision
            new.now.file.items next }
        ensures point { Settles change next self.old result self.new }
        ensures stop { StopLeaves (accepted_by F.txn_state change ∷ []) self.old self.new }
    {
        match self.saves.save_rev_prop(new.revision, &new.file) {
            Ok(()) => {
                forget(change);
                self.repository = next;
                Ok(())
            }
            Err(fault) => {
                let is_halted = self.saves.is_halted();
                Err(failed(&mut self.pending, is_halted, fault, change))
            }
        }
    }

    /// Saves a revision, and then has this repository.
    pub(crate) fn settle_revision(
        &mut self,
        next: F,
        new: &NewRevision,
        change: SavedChange<F::Txn>,
    ) -> Result<(), ChangeFault>
        requires goes_on { self.old.saves.is_halted ≡ false }
        requires accepted { IsAcceptedBy self.old change }
        requires made { IsMadeBy self.old change next }
        requires files { WritesRevision F.is_of self.old.repository new.now next }
        ensures point { Settles change next self.old result self.new }
        ensures stop { StopLeaves (accepted_by F.txn_state change ∷ []) self.old self.new }
    {
        match self
            .saves
            .save_commit(&new.revision, &new.properties, &new.current)
        {
            Ok(()) => {
                forget(change);
                self.repository = next;
                Ok(())
            }
            Err(fault) => {
                let is_halted = self.saves.is_halted();
                Err(failed(&mut self.pending, is_halted, fault, change))
            }
        }
    }

    /// Releases what was handed in.
    pub(crate) fn release_handed(&mut self, handed: Option<Handed>) -> Released
        requires { self.old.saves.is_halted ≡ false }
        ensures point { ReleasesKept handed (point_of self.old) result (point_of self.new) }
        ensures stop { StopLeaves (releases_of handed) self.old self.new }
    {
        match handed {
            None => Released::Settled,
            Some(handed) => self.release(handed),
        }
    }

    /// Releases the locks that are the user's and were handed in, if there are any.
    fn release(&mut self, handed: Handed) -> Released
        requires { self.old.saves.is_halted ≡ false }
        ensures point { ReleasesBy handed.user handed.tokens (point_of self.old) result
            (point_of self.new) }
        ensures stop { StopLeaves (Releases handed.user handed.tokens ∷ []) self.old self.new }
    {
        if !self
            .repository
            .releases(handed.user.as_ref(), &handed.tokens)
        {
            return Released::Settled;
        }
        match self
            .repository
            .released(handed.user.as_ref(), &handed.tokens)
        {
            Ok((next, file)) => {
                released(self.settle_locks(next, &file, SavedChange::Release(handed)))
            }
            Err(_) => Released::NoMemory,
        }
    }
}

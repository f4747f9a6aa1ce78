//! A repository in files that one hub alone has.
ghost use Rattle.std.specs.Prelude.{◌≡◌, false, None};
ghost use Rattle.repostore.specs.Saving.{Stands};
ghost use Rattle.stored_repository.specs.{Keeping.{HaltKeeps, HasRepository, Keeps}, Pending.pending_in};

use crate::change::SavedChange;
use crate::filed::Filed;
use repostore::Saves;
use store_files::Store;

/// A repository in files that one hub alone has: each change is saved, and then made. Where a save
/// fails, nothing is changed; where nobody knows whether a file was replaced, no change is made any more.
pub struct StoredRepository<F: Filed, S: Store> {
    pub(crate) repository: F,
    pub(crate) saves: Saves<S>,
    /// The change that was being saved when changes came to a halt.
    pub(crate) pending: Option<SavedChange<F::Txn>>,
    ghost kept: { ∥ Keeps S.Store F.is_of saves repository ∥₁ },
    ghost halt: { ∥ HaltKeeps F.content F.is_of S.Store saves repository
        (pending_in F.txn_state pending) ∥₁ },
}

impl<F: Filed, S: Store> Drop for StoredRepository<F, S> {
    fn drop(self) {
        let StoredRepository {
            repository: _,
            saves: _,
            pending: _,
        } = self;
    }
}

impl<F: Filed, S: Store> StoredRepository<F, S> {
    /// Makes the access to a repository and its files.
    pub fn new(repository: F, saves: Saves<S>) -> Self
        requires kept { ∥ Keeps S.Store F.is_of saves repository ∥₁ }
        requires goes_on { saves.is_halted ≡ false }
        ensures repository { result.repository ≡ repository }
        ensures saves { result.saves ≡ saves }
        ensures pending { result.pending ≡ None }
    {
        StoredRepository {
            repository,
            saves,
            pending: None,
        }
    }

    /// Gives the repository that the files stand for.
    pub fn repository(&self) -> &F
        ensures { result.now ≡ self.now.repository }
    {
        &self.repository
    }

    /// Gives the repository and its saves. While changes are made, its files are those of the repository.
    pub fn into_parts(self) -> (F, Saves<S>)
        ensures repository { result.0 ≡ self.repository }
        ensures saves { result.1 ≡ self.saves }
        ensures kept { ∥ Keeps S.Store F.is_of result.1 result.0 ∥₁ }
    {
        let StoredRepository {
            repository,
            saves,
            pending,
        } = self;
        std::mem::drop(pending);
        (repository, saves)
    }

    /// Gives the store of the files. While changes are made, what it reads has the files of the repository, and so has
    /// what a stop leaves now. Once they have come to a halt, it has those of the repository before the change that was
    /// being saved, or behind it.
    pub fn store(&self) -> &S
        ensures store { result.now ≡ self.now.saves.store }
        ensures stands { S.is_honest self.now.saves.store → self.now.saves.is_halted ≡ false
            → Stands S.Store self.now.saves.store
            (λ f. ∥ HasRepository F.content F.is_of (F.content self.now.repository) f ∥₁) }
        ensures halted { ∥ HaltKeeps F.content F.is_of S.Store self.now.saves self.now.repository
            (pending_in F.txn_state self.now.pending) ∥₁ }
    {
        self.saves.store()
    }

    /// Lets go of the repository: the store of its files.
    pub fn into_store(self) -> S
        ensures { result ≡ self.saves.store }
    {
        let (repository, saves) = self.into_parts();
        std::mem::drop(repository);
        saves.into_store()
    }
}

//! A repository in files that a keeper alone changes.
ghost use Rattle.std.specs.Prelude.{◌≡◌, false};
ghost use Rattle.repostore.specs.Saving.{Stands};
ghost use Rattle.stored_repository.specs.Keeping.{Keeps, HasRepository};

use repostore::Saves;
use store_files::Store;
use stored_repository::{Filed, StoredRepository};

/// A repository in files. While changes are saved, the files are those of the repository.
pub struct FiledArchive<F: Filed, S: Store> {
    pub(crate) repository: F,
    pub(crate) saves: Saves<S>,
    ghost kept: { ∥ Keeps S.Store F.is_of saves repository ∥₁ },
}

impl<F: Filed, S: Store> Drop for FiledArchive<F, S> {
    fn drop(self) {
        let FiledArchive {
            repository: _,
            saves: _,
        } = self;
    }
}

impl<F: Filed, S: Store> FiledArchive<F, S> {
    /// Makes the archive of a repository that was opened or made.
    pub fn new(stored: StoredRepository<F, S>) -> Self
        ensures repository { result.repository ≡ stored.repository }
        ensures saves { result.saves ≡ stored.saves }
    {
        let (repository, saves) = stored.into_parts();
        FiledArchive { repository, saves }
    }

    /// Gives the repository for which the files stand while changes are saved.
    pub fn repository(&self) -> &F
        ensures { result.now ≡ self.now.repository }
    {
        &self.repository
    }

    /// Gives the store of the files. While changes are saved, what it reads has the files of the repository, and so has
    /// what a stop leaves now.
    pub fn store(&self) -> &S
        ensures store { result.now ≡ self.now.saves.store }
        ensures stands { S.is_honest self.now.saves.store → self.now.saves.is_halted ≡ false
            → Stands S.Store self.now.saves.store
            (λ f. ∥ HasRepository F.content F.is_of (F.content self.now.repository) f ∥₁) }
    {
        self.saves.store()
    }
}

//! A repository opened from its files.
ghost use Rattle.std.specs.Prelude.{◌≡◌, Some, IfOk, IfErr, length};
ghost use Rattle.store_files.specs.Folders.{Folder, IsSame};
ghost use Rattle.repostore.specs.{Current.count_in, Files.Files, Opening.{IsUnopened, OnlyReads}};
ghost use Rattle.stored_repository.specs.Stored.{BeginsOver, IsOpened};

use crate::filed::Filed;
use crate::stored::StoredRepository;
use repostore::{Reader, Unopened, open};
use std::alloc::Global;
use store_files::{Store, StoreFault};

/// Makes a repository once it has taken all files.
pub trait Loader: Reader {
    type Repository: Filed;

    /// Gives the repository of the files that it has taken, where those of all revisions are among them.
    fn finish(self) -> Self::Repository
        ensures { (files : Files) → Self.took self files
            → count_in files.current ≡ Some (length files.revisions)
            → Self.Repository.is_of result files };
}

/// Opens a repository: whatever a stop has left, it finds the repository for which the files stand that are
/// reached from `current`. Whether it is opened or not, nothing is written.
pub fn open_repository<S: Store, L: Loader>(
    alloc: Global,
    store: S,
) -> Result<StoredRepository<L::Repository, S>, Unopened<S>>
    requires { S.is_honest store → (f : Folder) → S.may_leave store f → IsSame (S.holds store) f }
    // Where the folder has the files of a repository, it is this one.
    ensures found { IfOk result (IsOpened store) }
    // What is opened is not halted, has no pending change, and counts no failure of its own.
    ensures begins { IfOk result (BeginsOver store) }
    ensures reads { IfOk result (λ opened. OnlyReads S.Store store opened.saves.store) }
    ensures unopened { IfErr result (λ unopened. IsUnopened S.Store L.faulty store unopened) }
{
    let (saves, loader) = open::<S, L>(alloc, store)?;
    Ok(StoredRepository::new(loader.finish(), saves))
}

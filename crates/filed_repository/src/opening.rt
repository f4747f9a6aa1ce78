//! A repository opened from its files.
ghost use Rattle.std.specs.Prelude.{IfOk, IfErr};
ghost use Rattle.store_files.specs.Folders.{Folder, IsSame};
ghost use Rattle.repostore.specs.Opening.{IsUnopened, OnlyReads};
ghost use Rattle.stored_repository.specs.Stored.{BeginsOver, IsOpened};
ghost use Rattle.filed_repository.specs.Faults.{IsHindered, folder_faults};

use crate::filed_world::FiledWorld;
use crate::reader::FolderReader;
use repostore::Unopened;
use std::alloc::Global;
use store_files::Store;
use stored_repository::{StoredRepository, open_repository};

/// A repository in files that share what did not change.
pub type FolderRepository<S> = StoredRepository<FiledWorld, S>;

/// Opens a repository: whatever a stop has left, it finds the repository for which the files stand that
/// are reached from `current`. Whether it is opened or not, nothing is written.
pub fn open<S: Store>(alloc: Global, store: S) -> Result<FolderRepository<S>, Unopened<S>>
    requires { S.is_honest store → (f : Folder) → S.may_leave store f → IsSame (S.holds store) f }
    // Where the folder has the files of a repository, it finds this one, unless the device or memory fails.
    ensures found { IfOk result (IsOpened store) }
    // What is opened is not halted, has no pending change, and counts no failure of its own.
    ensures begins { IfOk result (BeginsOver store) }
    ensures reads { IfOk result (λ opened. OnlyReads S.Store store opened.saves.store) }
    ensures failed { IfErr result (IsHindered S.Store store) }
    ensures unopened { IfErr result (λ unopened. IsUnopened S.Store folder_faults store unopened) }
{
    open_repository::<S, FolderReader>(alloc, store)
}

//! A repository of format 2 copied into a new folder, in format 3.
ghost use Rattle.std.specs.Prelude.{◌≡◌, ◌⊎◌, ℕ, List, None, Option, Some, IfErr, IfOk, IsErr, IsErrOf, IsSome, OnOk};
ghost use Rattle.repo_api.specs.States.{RepoState};
ghost use Rattle.store_files.specs.{Folders.text_of, Moments.HasRisen};
ghost use Rattle.repostore.specs.{Current.count_in, Opening.{OnlyReads, Reads}, Reading.IfStoreFindsFaulty, Saving.Stands};
ghost use Rattle.repository_creation.specs.Creating.{IsFreeWith};
ghost use Rattle.stored_repository.specs.Keeping.{HasRepository};
ghost use Rattle.filed_repository.specs.{Files.{IsOf, filed_content}, CreatingFolder.format_in, Migrating.{AreSmall, IsHindrance, IsOld, Migrates}};

use crate::creating::{KIND, REPOSITORY_FORMAT};
use crate::creating_folder::new_format;
use crate::reader::{FolderReader, read_format_file};
use crate::written::{current_file, format_file, locks_file};
use fsfs_nodes::Current;
use fsfs_text::{FileFault, Format};
use repository_creation::{Moved, Progress, copy_files};
use repostore::read_all;
use std::alloc::{AllocError, Global};
use store_files::{FileName, Store, StoreFault};
use stored_repository::Loader;

/// The files of a copy that are not copied, and how many revisions it has.
#[derive(Drop)]
struct SmallFiles {
    format: Vec<u8>,
    current: Vec<u8>,
    no_locks: Vec<u8>,
    count: u32,
}

impl SmallFiles {
    /// Gives the files as bytes, with those that are the same in each copy.
    fn moved(&self) -> Moved<'_>
        ensures format { result.format.now ≡ self.now.format.items }
        ensures current { result.current.now ≡ self.now.current.items }
        ensures no_locks { result.no_locks.now ≡ self.now.no_locks.items }
        ensures count { result.count ≡ self.now.count }
    {
        Moved {
            format: self.format.as_slice(),
            repository_format: REPOSITORY_FORMAT,
            kind: KIND,
            current: self.current.as_slice(),
            no_locks: self.no_locks.as_slice(),
            count: self.count,
        }
    }
}

/// Makes the small files of a copy of this many revisions.
fn small_files(alloc: Global, count: u32) -> Result<SmallFiles, AllocError>
    ensures { IfOk result (AreSmall count) }
{
    let current = Current {
        format: new_format(3),
        youngest: count.saturating_sub(1),
        ids: None,
    };
    Ok(SmallFiles {
        format: format_file(alloc, current.format)?,
        current: current_file(alloc, current)?,
        no_locks: locks_file(alloc, &[])?,
        count,
    })
}

/// Checks that no repository is in a store.
///
/// # Errors
///
/// `Exists` where one is there; as the store's calls.
pub fn check_free<T: Store>(alloc: Global, store: &mut T) -> Result<(), StoreFault>
    ensures reads { Reads T.Store store.old store.new result }
    ensures exists { T.is_honest store.new → IsErrOf result StoreFault.Exists
        → IsSome (T.holds store.old FileName.Format) }
    ensures free { T.is_honest store.new
        → OnOk result (T.holds store.old FileName.Format ≡ None) }
{
    if store.read(alloc, FileName::Format)?.is_some() {
        return Err(StoreFault::Exists);
    }
    Ok(())
}

/// Checks that the files of a store are of format 2.
fn check_format_2<S: Store>(alloc: Global, store: &mut S) -> Result<(), StoreFault>
    ensures reads { Reads S.Store store.old store.new result }
    ensures right { S.is_honest store.new
        → OnOk result (format_in (S.holds store.old) ≡ Some Format.Two) }
    ensures wrong { S.is_honest store.new → IfStoreFindsFaulty result
        (format_in (S.holds store.old) ≡ Some Format.Two → ⊥) }
{
    let format = store.read(alloc, FileName::Format)?;
    match read_format_file(&format) {
        Ok(Format::Two) => Ok(()),
        _ => Err(StoreFault::File(FileFault::WrongFormat)),
    }
}

/// Reads a repository of format 2 as opening it does, keeps nothing of it, and answers how many revisions it has.
///
/// # Errors
///
/// `File(WrongFormat)` where its files say another format; else as `open`.
pub fn judged<S: Store>(alloc: Global, from: &mut S) -> Result<u32, StoreFault>
    ensures reads { Reads S.Store from.old from.new result }
    ensures there { S.is_honest from.new → IfOk result (IsOld (S.holds from.old)) }
    // A repository of format 2 is found right, unless the device or memory fails.
    ensures right { S.is_honest from.new → format_in (S.holds from.old) ≡ Some Format.Two
        → (c : RepoState) → HasRepository filed_content IsOf c (S.holds from.old)
        → IfErr result IsHindrance }
{
    check_format_2(alloc, from)?;
    let (reader, count, _) = read_all::<S, FolderReader>(alloc, from)?;
    std::mem::drop(reader.finish());
    Ok(count)
}

/// Copies a repository, whose files say this many revisions, into a store without one, in format 3. The store that it
/// is copied from is only read.
///
/// # Errors
///
/// As the calls of both stores; `NoMemory`.
pub fn copy_repository<S: Store, T: Store, P: Progress>(
    alloc: Global,
    from: &mut S,
    to: &mut T,
    count: u32,
    told: &mut P,
) -> Result<(), StoreFault>
    ensures reads { OnlyReads S.Store from.old from.new }
    ensures migrates { S.is_honest from.new → T.is_honest to.new
        → count_in (text_of (S.holds from.old FileName.Current)) ≡ Some count
        → (there : Option (List ℕ)) → Stands T.Store to.old (IsFreeWith there)
        → Migrates T.Store to.old to.new result (S.holds from.old) }
    ensures device { IsErrOf result StoreFault.Device
        → HasRisen (S.failed from.old) (S.failed from.new)
        ⊎ HasRisen (T.failed to.old) (T.failed to.new) }
    ensures only { IsErr result → IsErrOf result StoreFault.Device
        ⊎ IsErrOf result StoreFault.NoMemory }
{
    let files = small_files(alloc, count)?;
    copy_files(alloc, from, to, files.moved(), told)
}

//! The files of a repository read back.
ghost use Rattle.std.specs.Prelude.{◌≡◌, ◌⊎◌, false, Some, IfOk, IfErr, OnOk};
ghost use Rattle.store_files.specs.{Folders.{bytes_of, Folder, IsSame, text_of}, Moments.HasCause};
ghost use Rattle.repostore.specs.{Current.count_in, Files.{Files, HasFiles, revision_files, reached}, Reading.{Faulty, HasTaken, IsFaulty, HasFaultyRevision}};
ghost use Rattle.repostore.specs.Reading.{IfFindsFaulty, IfStoreFindsFaulty, with_head, with_one_more, with_read_locks, read_below};
ghost use Rattle.repostore.specs.{Opening.{IsUnopened, OnlyReads, Reads}, Saving.IsSaved};
ghost use Rattle.fsfs_text.specs.Formats.{layout_in};

use crate::saves::Saves;
use fsfs_text::{FileFault, Layout, layout_in};
use std::alloc::Global;
use store_files::{FileName, Store, StoreFault};

/// Makes a repository of its files, which it takes one after another.
pub trait Reader: Drop {
    /// It has taken these files.
    ghost took: { Self → Files → Type 0 };

    /// What it finds faulty.
    ghost faulty: { Faulty };

    /// Begins with the first files, and answers how many revisions there are.
    fn begin(
        alloc: Global,
        format: Option<Vec<u8>>,
        uuid: Vec<u8>,
        current: Vec<u8>,
    ) -> Result<(Self, u32), FileFault>
        ensures took { IfOk result (λ begun. took begun.0
            (with_head (bytes_of format) uuid.items current.items)) }
        ensures count { IfOk result (λ begun. count_in current.items ≡ Some begun.1) }
        ensures faulty { IfFindsFaulty result (faulty.head (bytes_of format) uuid.items current.items) };

    /// Takes the file of the next revision, and that of its properties.
    fn take_revision(&mut self, revision: Vec<u8>, properties: Vec<u8>) -> Result<(), FileFault>
        ensures took { OnOk result ((files : Files) → took self.old files
            → took self.new (with_one_more files (revision.items, properties.items))) }
        ensures faulty { (files : Files) → took self.old files
            → IfFindsFaulty result (faulty.revision files.revisions
            (revision.items, properties.items)) };

    /// Takes the locks, if there is a file of them.
    fn take_locks(&mut self, locks: Option<Vec<u8>>) -> Result<(), FileFault>
        ensures took { OnOk result ((files : Files) → took self.old files
            → took self.new (with_read_locks files (bytes_of locks))) }
        ensures faulty { IfFindsFaulty result (faulty.locks (bytes_of locks)) };
}

/// A repository that was not opened: why, and the store of its files.
#[derive(Drop)]
pub struct Unopened<S: Store> {
    pub fault: StoreFault,
    pub store: S,
}

/// Opens a repository: whatever a stop has left, its reader takes the files that are reached from `current`.
/// Whether it is opened or not, nothing is written: what a stop leaves is what it would have left before.
pub fn open<S: Store, R: Reader>(alloc: Global, store: S) -> Result<(Saves<S>, R), Unopened<S>>
    ensures found { IfOk result (λ opened. S.is_honest opened.0.store
        → HasTaken R.took (S.holds store) opened.1) }
    ensures saved { IfOk result (λ opened. S.is_honest opened.0.store
        → ((f : Folder) → S.may_leave store f → IsSame (S.holds store) f)
        → (files : Files) → HasFiles files (S.holds store)
        → IsSaved S.Store opened.0 files) }
    ensures goes_on { IfOk result (λ opened. opened.0.is_halted ≡ false) }
    ensures reads { IfOk result (λ opened. OnlyReads S.Store store opened.0.store) }
    // No failure is counted in an opening that answers Ok.
    ensures steady { IfOk result (λ opened. S.failed opened.0.store ≡ S.failed store) }
    ensures unopened { IfErr result (λ unopened. IsUnopened S.Store R.faulty store unopened) }
{
    let mut store = store;
    match read_all(alloc, &mut store) {
        Ok((reader, count, layout)) => Ok((
            Saves {
                store,
                count,
                layout,
                is_halted: false,
            },
            reader,
        )),
        Err(fault) => Err(Unopened { fault, store }),
    }
}

/// Reads all files, and answers how many revisions there are.
pub fn read_all<S: Store, R: Reader>(
    alloc: Global,
    store: &mut S,
) -> Result<(R, u32, Layout), StoreFault>
    ensures reads { Reads S.Store store.old store.new result }
    ensures steady { OnOk result (S.failed store.new ≡ S.failed store.old) }
    ensures found { S.is_honest store.new → IfOk result (λ read. HasTaken R.took
        (S.holds store.old) read.0) }
    ensures count { S.is_honest store.new → IfOk result (λ read. count_in
        (text_of (S.holds store.old FileName.Current)) ≡ Some read.1) }
    ensures layout { S.is_honest store.new → IfOk result (λ read. read.2
        ≡ layout_in (S.holds store.old FileName.Format)) }
    ensures faulty { S.is_honest store.new → IfStoreFindsFaulty result (IsFaulty R.faulty
        (S.holds store.old)) }
{
    let (mut reader, count, layout) = read_head(alloc, store)?;
    match read_rest(alloc, store, &mut reader, layout, count) {
        Ok(()) => Ok((reader, count, layout)),
        Err(fault) => {
            std::mem::drop(reader);
            Err(fault)
        }
    }
}

/// Reads the files that say what is there, and begins with them.
fn read_head<S: Store, R: Reader>(
    alloc: Global,
    store: &mut S,
) -> Result<(R, u32, Layout), StoreFault>
    ensures reads { Reads S.Store store.old store.new result }
    ensures steady { OnOk result (S.failed store.new ≡ S.failed store.old) }
    ensures took { S.is_honest store.new → IfOk result (λ begun. R.took begun.0
        (read_below begun.2 (S.holds store.old) 0)) }
    ensures count { S.is_honest store.new → IfOk result (λ begun. count_in
        (text_of (S.holds store.old FileName.Current)) ≡ Some begun.1) }
    ensures layout { S.is_honest store.new → IfOk result (λ begun. begun.2
        ≡ layout_in (S.holds store.old FileName.Format)) }
    ensures faulty { S.is_honest store.new → IfStoreFindsFaulty result (R.faulty.head
        (S.holds store.old FileName.Format) (text_of (S.holds store.old FileName.Uuid))
        (text_of (S.holds store.old FileName.Current))) }
{
    let format = store.read(alloc, FileName::Format)?;
    let uuid = read_text(alloc, store, FileName::Uuid)?;
    let current = read_text(alloc, store, FileName::Current)?;
    let layout = layout_of(&format);
    let (reader, count) = R::begin(alloc, format, uuid, current)?;
    Ok((reader, count, layout))
}

/// Gives the layout that the file `format` says.
pub fn layout_of(format: &Option<Vec<u8>>) -> Layout
    ensures { result ≡ layout_in (bytes_of format.now) }
{
    match format {
        Some(bytes) => layout_in(Some(bytes.as_slice())),
        None => layout_in(None),
    }
}

/// Reads so many revisions, and the locks.
fn read_rest<S: Store, R: Reader>(
    alloc: Global,
    store: &mut S,
    reader: &mut R,
    layout: Layout,
    count: u32,
) -> Result<(), StoreFault>
    ensures reads { Reads S.Store store.old store.new result }
    ensures steady { OnOk result (S.failed store.new ≡ S.failed store.old) }
    ensures took { S.is_honest store.new → R.took reader.old (read_below layout (S.holds store.old) 0)
        → OnOk result (R.took reader.new (reached layout (S.holds store.old) count)) }
    ensures faulty { S.is_honest store.new → R.took reader.old (read_below layout (S.holds store.old) 0)
        → IfStoreFindsFaulty result (HasFaultyRevision R.faulty layout (S.holds store.old) count
        ⊎ R.faulty.locks (S.holds store.old FileName.Locks)) }
{
    read_revisions(alloc, store, reader, layout, count)?;
    read_locks(alloc, store, reader)
}

/// Reads the bytes of a file; one that is missing has none.
pub fn read_text<S: Store>(
    alloc: Global,
    store: &mut S,
    name: FileName,
) -> Result<Vec<u8>, StoreFault>
    ensures reads { OnlyReads S.Store store.old store.new }
    ensures found { S.is_honest store.new → IfOk result (λ found. found.items
        ≡ text_of (S.holds store.old name)) }
    ensures cause { HasCause (S.failed store.old) (S.failed store.new) result }
{
    match store.read(alloc, name)? {
        Some(bytes) => Ok(bytes),
        None => Ok(Vec::new(alloc)),
    }
}

/// Reads so many revisions.
fn read_revisions<S: Store, R: Reader>(
    alloc: Global,
    store: &mut S,
    reader: &mut R,
    layout: Layout,
    count: u32,
) -> Result<(), StoreFault>
    ensures reads { Reads S.Store store.old store.new result }
    ensures steady { OnOk result (S.failed store.new ≡ S.failed store.old) }
    ensures took { S.is_honest store.new → R.took reader.old (read_below layout (S.holds store.old) 0)
        → OnOk result (R.took reader.new (read_below layout (S.holds store.old) count)) }
    ensures faulty { S.is_honest store.new → R.took reader.old (read_below layout (S.holds store.old) 0)
        → IfStoreFindsFaulty result (HasFaultyRevision R.faulty layout (S.holds store.old) count) }
{
    for number in 0..count {
        read_revision(alloc, store, reader, layout, number)?;
    }
    Ok(())
}

/// Reads a revision.
fn read_revision<S: Store, R: Reader>(
    alloc: Global,
    store: &mut S,
    reader: &mut R,
    layout: Layout,
    number: u32,
) -> Result<(), StoreFault>
    ensures reads { Reads S.Store store.old store.new result }
    ensures steady { OnOk result (S.failed store.new ≡ S.failed store.old) }
    ensures took { S.is_honest store.new → OnOk result ((files : Files) → R.took reader.old files
        → R.took reader.new (with_one_more files (revision_files layout (S.holds store.old) number))) }
    ensures faulty { S.is_honest store.new → (files : Files) → R.took reader.old files
        → IfStoreFindsFaulty result (R.faulty.revision files.revisions
        (revision_files layout (S.holds store.old) number)) }
{
    let shard = layout.shard(number);
    let revision = read_text(alloc, store, FileName::Revision(shard, number))?;
    let properties = read_text(alloc, store, FileName::Properties(shard, number))?;
    Ok(reader.take_revision(revision, properties)?)
}

/// Reads the locks.
fn read_locks<S: Store, R: Reader>(
    alloc: Global,
    store: &mut S,
    reader: &mut R,
) -> Result<(), StoreFault>
    ensures reads { Reads S.Store store.old store.new result }
    ensures steady { OnOk result (S.failed store.new ≡ S.failed store.old) }
    ensures took { S.is_honest store.new → OnOk result ((files : Files) → R.took reader.old files
        → R.took reader.new (with_read_locks files (S.holds store.old FileName.Locks))) }
    ensures faulty { S.is_honest store.new → IfStoreFindsFaulty result (R.faulty.locks
        (S.holds store.old FileName.Locks)) }
{
    let locks = store.read(alloc, FileName::Locks)?;
    Ok(reader.take_locks(locks)?)
}

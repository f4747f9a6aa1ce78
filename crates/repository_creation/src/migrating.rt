//! The files of a repository copied into another store.
ghost use Rattle.std.specs.Prelude.{◌≡◌, ◌⊎◌, ◌+◌, ◌≤◌, ◌↔◌, Option, List, ℕ, None, Some, IfOk, IsErr, IsErrOf, OnOk, length};
ghost use Rattle.fsfs_text.specs.{Formats.layout_in, declared.format.Layout.Layout};
ghost use Rattle.store_files.specs.{Folders.{Folder, text_of}, Moments.{HasCause, HasRisen}};
ghost use Rattle.repostore.specs.{Files.{Files, HasFiles, reached, revision_files}, Current.count_in, Opening.OnlyReads, Saving.{Going, Stands}};
ghost use Rattle.repository_creation.specs.{Creating.IsFreeWith, Migrating.{HasSome, IsFree, IsStep, Makes, moved_files, moved_locks}};

use fsfs_text::{Layout, layout_in};
use repostore::{layout_of, read_text};
use std::alloc::Global;
use store_files::{FileName, Store, StoreFault};

/// Is told how far a copy is.
pub trait Progress {
    /// Tells that so many revisions of this many are copied.
    fn tell(&mut self, done: u32, count: u32);
}

/// The small files of a copy, as bytes, and how many revisions it has.
#[derive(Clone, Copy)]
pub struct Moved<'a> {
    pub format: &'a [u8],
    /// The format of the folder around the files, for other programs.
    pub repository_format: &'a [u8],
    pub kind: &'a [u8],
    pub current: &'a [u8],
    /// The file of locks where there is none.
    pub no_locks: &'a [u8],
    pub count: u32,
}

/// Which revisions are copied, and the layouts of their files.
#[derive(Clone, Copy)]
struct Course {
    from: Layout,
    to: Layout,
    count: u32,
}

/// Writes the files that say which repository it is.
fn write_head<T: Store>(to: &mut T, moved: Moved<'_>, uuid: &[u8]) -> Result<(), StoreFault>
    ensures going { (there : Option (List ℕ)) → Stands T.Store to.old (IsFreeWith there)
        → Going T.Store to.old to.new IsFree IsFree }
    ensures made { (there : Option (List ℕ)) (from layout : Layout) (copied : Folder)
        → Stands T.Store to.old (IsFreeWith there) → uuid.now ≡ text_of (copied FileName.Uuid)
        → OnOk result (Stands T.Store to.new (HasSome there from copied layout 0)) }
    ensures honest { T.is_honest to.old ↔ T.is_honest to.new }
    ensures doubt { T.in_doubt to.new ≡ T.in_doubt to.old }
    ensures cause { HasCause (T.failed to.old) (T.failed to.new) result }
{
    to.write_new(FileName::RepositoryFormat, moved.repository_format)?;
    to.write_new(FileName::Kind, moved.kind)?;
    to.write_new(FileName::Uuid, uuid)
}

/// Writes `current`, and then puts `format` in its place at once, with which the repository is there.
fn publish<T: Store>(to: &mut T, moved: Moved<'_>) -> Result<(), StoreFault>
    ensures makes { (there : Option (List ℕ)) (from : Layout) (copied : Folder)
        → Stands T.Store to.old (HasSome (moved_locks moved.entry.no_locks.now
        (copied FileName.Locks) there)
        from copied (layout_in (Some moved.entry.format.now)) moved.entry.count)
        → count_in moved.entry.current.now ≡ Some moved.entry.count
        → Makes T.Store (moved_files moved.entry there (reached from copied moved.entry.count))
        to.old to.new result }
    ensures honest { T.is_honest to.old ↔ T.is_honest to.new }
    ensures cause { HasCause (T.failed to.old) (T.failed to.new) result }
{
    to.write_new(FileName::Current, moved.current)?;
    match to.replace(FileName::Format, moved.format) {
        Ok(()) => Ok(()),
        Err(fault) => Err(StoreFault::from(fault)),
    }
}

/// Writes the files of the next revision, where the layout has them.
fn write_pair<T: Store>(
    to: &mut T,
    layout: Layout,
    number: u32,
    revision: &[u8],
    properties: &[u8],
) -> Result<(), StoreFault>
    ensures going { (there : Option (List ℕ)) (from : Layout) (copied : Folder)
        → Stands T.Store to.old (HasSome there from copied layout number)
        → Going T.Store to.old to.new IsFree IsFree }
    ensures made { (there : Option (List ℕ)) (from : Layout) (copied : Folder)
        → Stands T.Store to.old (HasSome there from copied layout number)
        → revision_files from copied number ≡ (revision.now, properties.now)
        → OnOk result (Stands T.Store to.new (HasSome there from copied layout (number + 1))) }
    ensures honest { T.is_honest to.old ↔ T.is_honest to.new }
    ensures doubt { T.in_doubt to.new ≡ T.in_doubt to.old }
    ensures cause { HasCause (T.failed to.old) (T.failed to.new) result }
{
    let shard = layout.shard(number);
    to.write_new(FileName::Revision(shard, number), revision)?;
    to.write_new(FileName::Properties(shard, number), properties)
}

/// Reads which repository it is, and writes it.
fn copy_head<S: Store, T: Store>(
    alloc: Global,
    from: &mut S,
    to: &mut T,
    moved: Moved<'_>,
) -> Result<(), StoreFault>
    ensures step { IsStep S.Store T.Store from.old from.new to.old to.new result }
    ensures going { S.is_honest from.new → (there : Option (List ℕ))
        → Stands T.Store to.old (IsFreeWith there)
        → Going T.Store to.old to.new IsFree IsFree }
    ensures made { S.is_honest from.new → (there : Option (List ℕ)) (layout after : Layout)
        → Stands T.Store to.old (IsFreeWith there)
        → OnOk result (Stands T.Store to.new (HasSome there layout (S.holds from.old) after 0)) }
{
    let uuid = read_text(alloc, from, FileName::Uuid)?;
    write_head(to, moved, uuid.as_slice())
}

/// Copies the files of a revision from one layout to another.
fn copy_revision<S: Store, T: Store>(
    alloc: Global,
    from: &mut S,
    to: &mut T,
    course: Course,
    number: u32,
) -> Result<(), StoreFault>
    ensures step { IsStep S.Store T.Store from.old from.new to.old to.new result }
    ensures going { S.is_honest from.new → (there : Option (List ℕ))
        → Stands T.Store to.old (HasSome there course.from (S.holds from.old) course.to number)
        → Going T.Store to.old to.new IsFree IsFree }
    ensures made { S.is_honest from.new → (there : Option (List ℕ))
        → Stands T.Store to.old (HasSome there course.from (S.holds from.old) course.to number)
        → OnOk result (Stands T.Store to.new
        (HasSome there course.from (S.holds from.old) course.to (number + 1))) }
{
    let shard = course.from.shard(number);
    let revision = read_text(alloc, from, FileName::Revision(shard, number))?;
    let properties = read_text(alloc, from, FileName::Properties(shard, number))?;
    write_pair(
        to,
        course.to,
        number,
        revision.as_slice(),
        properties.as_slice(),
    )
}

/// Copies the files of so many revisions from one layout to another, one after another.
fn copy_revisions<S: Store, T: Store, P: Progress>(
    alloc: Global,
    from: &mut S,
    to: &mut T,
    course: Course,
    told: &mut P,
) -> Result<(), StoreFault>
    ensures step { IsStep S.Store T.Store from.old from.new to.old to.new result }
    ensures going { S.is_honest from.new → (there : Option (List ℕ))
        → Stands T.Store to.old (HasSome there course.from (S.holds from.old) course.to 0)
        → Going T.Store to.old to.new IsFree IsFree }
    ensures made { S.is_honest from.new → (there : Option (List ℕ))
        → Stands T.Store to.old (HasSome there course.from (S.holds from.old) course.to 0)
        → OnOk result (Stands T.Store to.new
        (HasSome there course.from (S.holds from.old) course.to course.count)) }
{
    for number in 0..course.count {
        copy_revision(alloc, from, to, course, number)?;
        told.tell(number + 1, course.count);
    }
    Ok(())
}

/// Copies the locks. Where there are none, these bytes are written over a file of others.
fn copy_locks<S: Store, T: Store>(
    alloc: Global,
    from: &mut S,
    to: &mut T,
    no_locks: &[u8],
) -> Result<(), StoreFault>
    ensures step { IsStep S.Store T.Store from.old from.new to.old to.new result }
    ensures going { T.is_honest to.new
        → (there : Option (List ℕ)) (layout after : Layout) (copied : Folder) (n : ℕ)
        → Stands T.Store to.old (HasSome there layout copied after n)
        → Going T.Store to.old to.new IsFree IsFree }
    ensures made { S.is_honest from.new → T.is_honest to.new
        → (there : Option (List ℕ)) (layout after : Layout) (copied : Folder) (n : ℕ)
        → Stands T.Store to.old (HasSome there layout copied after n)
        → OnOk result (Stands T.Store to.new
        (HasSome (moved_locks no_locks.now (S.holds from.old FileName.Locks) there)
        layout copied after n)) }
{
    match from.read(alloc, FileName::Locks)? {
        Some(locks) => to.write_new(FileName::Locks, locks.as_slice()),
        None => clear_locks(alloc, to, no_locks),
    }
}

/// Writes these bytes over a file of locks, if there is one.
fn clear_locks<T: Store>(alloc: Global, to: &mut T, no_locks: &[u8]) -> Result<(), StoreFault>
    ensures honest { T.is_honest to.new → T.is_honest to.old }
    ensures going { T.is_honest to.new
        → (there : Option (List ℕ)) (layout after : Layout) (copied : Folder) (n : ℕ)
        → Stands T.Store to.old (HasSome there layout copied after n)
        → Going T.Store to.old to.new IsFree IsFree }
    ensures made { T.is_honest to.new
        → (there : Option (List ℕ)) (layout after : Layout) (copied : Folder) (n : ℕ)
        → Stands T.Store to.old (HasSome there layout copied after n)
        → OnOk result (Stands T.Store to.new
        (HasSome (moved_locks no_locks.now None there) layout copied after n)) }
    ensures doubt { T.in_doubt to.new ≡ T.in_doubt to.old }
    ensures cause { HasCause (T.failed to.old) (T.failed to.new) result }
{
    match to.read(alloc, FileName::Locks)? {
        Some(others) => {
            std::mem::drop(others);
            to.write_new(FileName::Locks, no_locks)
        }
        None => Ok(()),
    }
}

/// Reads the layout of the files that are copied.
fn read_course<S: Store>(
    alloc: Global,
    from: &mut S,
    moved: Moved<'_>,
) -> Result<Course, StoreFault>
    ensures reads { OnlyReads S.Store from.old from.new }
    ensures layout { S.is_honest from.new → IfOk result (λ course. course.from
        ≡ layout_in (S.holds from.old FileName.Format)) }
    ensures to { IfOk result (λ course. course.to ≡ layout_in (Some moved.entry.format.now)) }
    ensures count { IfOk result (λ course. course.count ≡ moved.entry.count) }
    ensures cause { HasCause (S.failed from.old) (S.failed from.new) result }
{
    let format = from.read(alloc, FileName::Format)?;
    Ok(Course {
        from: layout_of(&format),
        to: layout_in(Some(moved.format)),
        count: moved.count,
    })
}

/// Copies all files but the two with which the copy is there.
fn copy_contents<S: Store, T: Store, P: Progress>(
    alloc: Global,
    from: &mut S,
    to: &mut T,
    moved: Moved<'_>,
    told: &mut P,
) -> Result<(), StoreFault>
    ensures step { IsStep S.Store T.Store from.old from.new to.old to.new result }
    ensures going { S.is_honest from.new → T.is_honest to.new → (there : Option (List ℕ))
        → Stands T.Store to.old (IsFreeWith there)
        → Going T.Store to.old to.new IsFree IsFree }
    ensures made { S.is_honest from.new → T.is_honest to.new → (there : Option (List ℕ))
        → Stands T.Store to.old (IsFreeWith there)
        → OnOk result (Stands T.Store to.new
        (HasSome (moved_locks moved.entry.no_locks.now (S.holds from.old FileName.Locks) there)
        (layout_in (S.holds from.old FileName.Format)) (S.holds from.old)
        (layout_in (Some moved.entry.format.now)) moved.entry.count)) }
{
    let course = read_course(alloc, from, moved)?;
    copy_head(alloc, from, to, moved)?;
    copy_revisions(alloc, from, to, course, told)?;
    copy_locks(alloc, from, to, moved.no_locks)
}

/// Copies the files of a repository that are reached into a store without one, `format` last and at once. What is moved says
/// how many revisions there are.
pub fn copy_files<S: Store, T: Store, P: Progress>(
    alloc: Global,
    from: &mut S,
    to: &mut T,
    moved: Moved<'_>,
    told: &mut P,
) -> Result<(), StoreFault>
    ensures reads { OnlyReads S.Store from.old from.new }
    // A stop at any moment of the call leaves no repository there, or the whole copy.
    ensures makes { S.is_honest from.new → T.is_honest to.new
        → (there : Option (List ℕ)) (files : Files)
        → Stands T.Store to.old (IsFreeWith there) → HasFiles files (S.holds from.old)
        → length files.revisions ≡ moved.entry.count
        → count_in moved.entry.current.now ≡ Some moved.entry.count
        → Makes T.Store (moved_files moved.entry there files) to.old to.new result }
    ensures device { IsErrOf result StoreFault.Device
        → HasRisen (S.failed from.old) (S.failed from.new)
        ⊎ HasRisen (T.failed to.old) (T.failed to.new) }
    ensures only { IsErr result → IsErrOf result StoreFault.Device
        ⊎ IsErrOf result StoreFault.NoMemory }
{
    copy_contents(alloc, from, to, moved, told)?;
    publish(to, moved)
}

//! The reader of a folder.
ghost use Rattle.std.specs.Prelude.{◌≡◌, Some, IfOk, option_and_then};
ghost use Rattle.store_files.specs.Folders.{bytes_of};
ghost use Rattle.repostore.specs.Files.{Files};
ghost use Rattle.fsfs_text.specs.Formats.{format_of};
ghost use Rattle.filed_repository.specs.{Reading.{AreFirst, HasRead, ReadsLocks}, Faults.{ReadsOne, SaysCurrent}};

use crate::counting::count_of;
use crate::filed_world::FiledWorld;
use fsfs::KnownDumps;
use fsfs_nodes::{Current, read_current, read_uuid};
use fsfs_text::{FileFault, Format, read_format};
use repostore::Reader;
use std::alloc::{AllocError, Global};
use stored_repository::Loader;
use world::World;

/// Reads the files of a repository, and has what they say of it, and what is known of directories.
#[derive(Drop)]
pub struct FolderReader {
    alloc: Global,
    filed: FiledWorld,
    known: KnownDumps,
}

/// Reads the file `format`, which has to be there.
pub(crate) fn read_format_file(file: &Option<Vec<u8>>) -> Result<Format, FileFault>
    ensures { ReadsOne (λ format.
        option_and_then format_of (bytes_of file.now) ≡ Some format) result }
{
    match file {
        Some(bytes) => read_format(bytes.as_slice()),
        None => Err(FileFault::WrongFormat),
    }
}

/// Reads the file `current` of a folder of the format.
fn read_current_file(format: Format, bytes: &[u8]) -> Result<Current, FileFault>
    ensures says { ReadsOne (SaysCurrent format bytes.now) result }
    ensures format { IfOk result (λ current. current.format ≡ format) }
{
    let current = read_current(format, bytes)?;
    match count_of(bytes) {
        Some(count) if count - 1 == current.youngest => Ok(current),
        _ => Err(FileFault::BadLine),
    }
}

/// Begins with a new repository of this name, of which nothing has been read.
fn unread(alloc: Global, uuid: u128, current: Current) -> Result<FiledWorld, AllocError>
    ensures { IfOk result (λ made. (files : Files) → AreFirst uuid current files → HasRead made files) }
{
    let world = World::new(alloc, uuid, 0)?;
    FiledWorld::unread(alloc, world, current)
}

/// Takes the file of locks, if there is one.
fn with_lock_file(filed: &FiledWorld, locks: &Option<Vec<u8>>) -> Result<FiledWorld, FileFault>
    ensures { ReadsLocks filed.now (bytes_of locks.now) result }
{
    match locks {
        Some(bytes) => filed.with_read_locks(Some(bytes.as_slice())),
        None => filed.with_read_locks(None),
    }
}

impl Reader for FolderReader {
    ghost use Rattle.filed_repository.specs.{Reading.HasRead, Faults.folder_faults};

    ghost took = { λ r files. HasRead r.filed files };

    ghost faulty = { folder_faults };

    fn begin(
        alloc: Global,
        format: Option<Vec<u8>>,
        uuid: Vec<u8>,
        current: Vec<u8>,
    ) -> Result<(Self, u32), FileFault> {
        let stated = read_format_file(&format)?;
        let name = read_uuid(uuid.as_slice())?;
        let said = read_current_file(stated, current.as_slice())?;
        let filed = unread(alloc, name, said)?;
        let known = KnownDumps::new(alloc);
        let reader = FolderReader {
            alloc,
            filed,
            known,
        };
        Ok((reader, said.youngest + 1))
    }

    fn take_revision(&mut self, revision: Vec<u8>, properties: Vec<u8>) -> Result<(), FileFault> {
        let known = &mut self.known;
        self.filed = self
            .filed
            .with_next_revision(known, revision.as_slice(), properties.as_slice())?;
        Ok(())
    }

    fn take_locks(&mut self, locks: Option<Vec<u8>>) -> Result<(), FileFault> {
        self.filed = with_lock_file(&self.filed, &locks)?;
        Ok(())
    }
}

impl Loader for FolderReader {
    type Repository = FiledWorld;

    fn finish(self) -> FiledWorld {
        let FolderReader {
            alloc: _,
            filed,
            known: _,
        } = self;
        filed.read_whole();
        filed
    }
}

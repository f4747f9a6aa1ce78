//! A repository copied into another format.

use crate::beside::make_beside;
use crate::fault::ProgramFault;
use crate::repositories::{DiskStore, files_folder, open_files};
use command_line::NewFormat;
use filed_repository::{copy_repository, judged};
use fsfs_text::FileFault;
use repository_creation::Progress;
use std::fs;
use std::io::IsTerminal;
use store_files::{Store, StoreFault};
use store_folder::FolderStore;

/// How many revisions are copied before it is said again how far that is.
const STRIDE: u32 = 100;

/// Says on standard error how far a copy is, on one line that is written over, if somebody is to read it.
#[derive(Drop)]
struct Telling<'a> {
    rt: &'a HostRuntime,
    is_read: bool,
}

impl Progress for Telling<'_> {
    fn tell(&mut self, done: u32, count: u32) {
        if !self.is_read || (done % STRIDE != 0 && done != count) {
            return;
        }
        let (rt, end) = (self.rt, if done == count { "\n" } else { "" });
        // what cannot be said is not needed
        let _ = eprint!(rt; "\r{done} of {count} revisions are copied{end}");
    }
}

/// Makes sure that no repository is in the folder of the copy, as far as that can be seen.
fn check_free(rt: &HostRuntime, new: &str) -> Result<(), ProgramFault> {
    let format = format!(in rt.alloc(); "{new}/db/format")?;
    match fs::exists(rt, format.as_str()) {
        Ok(true) => Err(ProgramFault::NewStore(StoreFault::Exists)),
        // a look that fails is made again before anything is copied
        Ok(false) | Err(_) => Ok(()),
    }
}

/// Judges the repository in a folder as opening it would, and says how many revisions it has.
fn count_of(rt: &HostRuntime, store: &mut DiskStore) -> Result<u32, ProgramFault> {
    match judged(rt.alloc(), store) {
        Ok(count) => Ok(count),
        Err(StoreFault::File(FileFault::WrongFormat)) => Err(ProgramFault::NotOfFormatTwo),
        Err(fault) => Err(ProgramFault::Unread(fault, store.inner().last_read())),
    }
}

/// Copies so many revisions from a store into a folder, which is made where it is missing.
fn copy_into(
    rt: &HostRuntime,
    old: &mut DiskStore,
    new: &str,
    count: u32,
    quiet: bool,
) -> Result<(), ProgramFault> {
    let folder = files_folder(rt.alloc(), new)?;
    let mut store = FolderStore::make(*rt, folder).map_err(ProgramFault::NewFolder)?;
    filed_repository::check_free(rt.alloc(), &mut store).map_err(ProgramFault::NewStore)?;
    make_beside(rt, new, NewFormat::Three).map_err(ProgramFault::NewFolder)?;
    let mut telling = Telling {
        rt,
        is_read: !quiet && rt.stderr().is_terminal(),
    };
    match copy_repository(rt.alloc(), old, &mut store, count, &mut telling) {
        Ok(()) => Ok(()),
        Err(fault) if old.failures() > 0 => Err(ProgramFault::Store(fault)),
        Err(fault) => Err(ProgramFault::NewStore(fault)),
    }
}

/// Copies the repository of format 2 in a folder into a new one, of format 3. The new folder is made once the old one was
/// judged, and has no repository until all of it is copied.
pub fn migrate_folder(
    rt: &HostRuntime,
    folder: &str,
    new: &str,
    quiet: bool,
) -> Result<(), ProgramFault> {
    check_free(rt, new)?;
    let mut old = open_files(rt, files_folder(rt.alloc(), folder)?, quiet)?;
    match count_of(rt, &mut old) {
        Ok(count) => copy_into(rt, &mut old, new, count, quiet),
        Err(fault) => Err(fault),
    }
}

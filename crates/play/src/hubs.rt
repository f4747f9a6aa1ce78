//! The hubs of a script.
ghost use Rattle.hub.specs.{Calls.CallStep, declared.calls.Outcome.Outcome};

use crate::plan::MemoryHub;
use access::SoleAccess;
use filed_repository::{create, open};
use flatrepo::InMemory;
use hub::{Call, FolderHub, Hub, Options, SessionId, hub_over, make_call, store_of};
use script_lines::{Failing, LineFault, NamedFile, NewFormat, NewHub, answer_line};
use std::alloc::{AllocError, Global};
use std::fs;
use std::io::ErrorKind;
use std::mem::drop;
use store_files::{FuseStore, MemoryStore, Store, StoreFault};
use store_folder::FolderStore;

/// The files of a repository in a folder.
type DiskStore = FolderStore<HostRuntime>;

/// A hub over files that may fail.
pub type FailingHub<S> = FolderHub<FuseStore<S>>;

/// A hub of a script.
pub enum PlayedHub<R: InMemory> {
    /// Its repository has no files.
    Plain(MemoryHub<R>),
    /// Its files are in memory.
    Memory(FailingHub<MemoryStore>),
    /// Its files are in this folder.
    Folder(FailingHub<DiskStore>, String),
}

impl<R: InMemory> Drop for PlayedHub<R> {
    fn drop(self) {
        match self {
            PlayedHub::Plain(_) => {}
            PlayedHub::Memory(_) => {}
            PlayedHub::Folder(_, _) => {}
        }
    }
}

/// Makes a call, and gives the line that it is answered by.
fn answer_call<A: SoleAccess>(
    alloc: Global,
    hub: &mut Hub<A>,
    call: &Call,
) -> Result<String, AllocError>
    ensures { (outcome : Outcome) × CallStep hub.old call.now outcome hub.new }
{
    let outcome = make_call(hub, call);
    answer_line(alloc, call, &outcome)
}

/// Gives the folder of a repository's files.
fn files_folder(alloc: Global, folder: &str) -> Result<String, AllocError> {
    format!(in alloc; "{folder}/db")
}

/// Opens a repository in memory.
fn open_memory(
    alloc: Global,
    store: MemoryStore,
    options: Options,
    failing: Failing,
) -> Result<FailingHub<MemoryStore>, LineFault> {
    store.is_at_rest();
    match open(alloc, FuseStore::new(store, failing.passes, failing.left)) {
        Ok(stored) => Ok(hub_over(alloc, stored, options)),
        Err(unopened) => Err(LineFault::Store(unopened.fault)),
    }
}

/// Opens the repository in a folder.
fn open_folder(
    rt: &HostRuntime,
    folder: &str,
    options: Options,
    failing: Failing,
) -> Result<FailingHub<DiskStore>, LineFault> {
    let store = FolderStore::open(*rt, files_folder(rt.alloc(), folder)?)?;
    match open(
        rt.alloc(),
        FuseStore::new(store, failing.passes, failing.left),
    ) {
        Ok(stored) => Ok(hub_over(rt.alloc(), stored, options)),
        Err(unopened) => Err(LineFault::Store(unopened.fault)),
    }
}

/// Makes a hub over a new repository in memory.
pub fn new_memory_hub(
    alloc: Global,
    asked: NewHub,
    format: NewFormat,
    failing: Failing,
) -> Result<FailingHub<MemoryStore>, LineFault> {
    let mut store = MemoryStore::new(alloc);
    create(alloc, &mut store, asked.uuid, asked.moment, format.number())?;
    open_memory(alloc, store, asked.options, failing)
}

/// Makes a repository in a folder, where there is none.
fn create_in_folder(
    rt: &HostRuntime,
    folder: &str,
    asked: &NewHub,
    format: NewFormat,
) -> Result<(), LineFault> {
    let mut store: DiskStore = FolderStore::make(*rt, files_folder(rt.alloc(), folder)?)?;
    match create(
        rt.alloc(),
        &mut store,
        asked.uuid,
        asked.moment,
        format.number(),
    ) {
        Ok(()) | Err(StoreFault::Exists) => Ok(()),
        Err(fault) => Err(LineFault::Store(fault)),
    }
}

/// Makes a hub over the repository in a folder, which is made where it is missing.
pub fn new_folder_hub(
    rt: &HostRuntime,
    folder: &str,
    asked: NewHub,
    format: NewFormat,
    failing: Failing,
) -> Result<FailingHub<DiskStore>, LineFault> {
    match create_in_folder(rt, folder, &asked, format) {
        Ok(()) => open_folder(rt, folder, asked.options, failing),
        Err(fault) => {
            drop(asked);
            Err(fault)
        }
    }
}

/// Lets go of a hub: its store and its options.
fn into_store<S: Store>(hub: FailingHub<S>) -> (S, Options) {
    let (repository, options) = hub.into_parts();
    (repository.into_store().into_inner(), options)
}

/// Lets go of a hub and its store: its options.
fn into_options<S: Store>(hub: FailingHub<S>) -> Options {
    let (store, options) = into_store(hub);
    drop(store);
    options
}

/// Reads the bytes of a file in a folder, if it exists.
fn read_file(rt: &HostRuntime, folder: &str, name: &str) -> Result<Option<Vec<u8>>, LineFault> {
    let path = format!(in rt.alloc(); "{folder}/db/{name}")?;
    match fs::read(rt, path.as_str()) {
        Ok(bytes) => Ok(Some(bytes)),
        Err(error) if error.kind() == ErrorKind::NotFound => Ok(None),
        Err(_) => Err(LineFault::Store(StoreFault::Device)),
    }
}

/// Makes a copy of bytes, if they are there.
fn copied(alloc: Global, bytes: Option<&[u8]>) -> Result<Option<Vec<u8>>, AllocError> {
    match bytes {
        Some(bytes) => Ok(Some(bytes.to_vec(alloc)?)),
        None => Ok(None),
    }
}

impl<R: InMemory> PlayedHub<R> {
    /// Makes a call, and gives the line that it is answered by.
    pub fn answer(&mut self, alloc: Global, call: &Call) -> Result<String, AllocError> {
        match self {
            PlayedHub::Plain(hub) => answer_call(alloc, hub, call),
            PlayedHub::Memory(hub) => answer_call(alloc, hub, call),
            PlayedHub::Folder(hub, _) => answer_call(alloc, hub, call),
        }
    }

    /// Says whether a session is open.
    pub fn is_open(&self, session: SessionId) -> bool {
        match self {
            PlayedHub::Plain(hub) => hub.is_open(session),
            PlayedHub::Memory(hub) => hub.is_open(session),
            PlayedHub::Folder(hub, _) => hub.is_open(session),
        }
    }

    /// Gives the bytes of a file of its repository, if it exists.
    pub fn file(&self, rt: &HostRuntime, file: &NamedFile) -> Result<Option<Vec<u8>>, LineFault> {
        match self {
            PlayedHub::Plain(_) => Err(LineFault::NoFiles),
            PlayedHub::Memory(hub) => {
                let bytes = store_of(hub).inner().bytes(file.name);
                Ok(copied(rt.alloc(), bytes)?)
            }
            PlayedHub::Folder(_, folder) => read_file(rt, folder, &file.text),
        }
    }

    /// Makes a hub over its repository, which is opened again from its files.
    pub fn reopened(self, rt: &HostRuntime, failing: Failing) -> Result<Self, LineFault> {
        match self {
            PlayedHub::Plain(hub) => {
                drop(hub);
                Err(LineFault::NoFiles)
            }
            PlayedHub::Memory(hub) => {
                let (store, options) = into_store(hub);
                match open_memory(rt.alloc(), store, options, failing) {
                    Ok(hub) => Ok(PlayedHub::Memory(hub)),
                    Err(fault) => Err(fault),
                }
            }
            PlayedHub::Folder(hub, folder) => {
                let options = into_options(hub);
                PlayedHub::in_folder(rt, folder, options, failing)
            }
        }
    }

    /// Makes a hub over the repository in a folder.
    fn in_folder(
        rt: &HostRuntime,
        folder: String,
        options: Options,
        failing: Failing,
    ) -> Result<Self, LineFault> {
        match open_folder(rt, &folder, options, failing) {
            Ok(hub) => Ok(PlayedHub::Folder(hub, folder)),
            Err(fault) => {
                drop(folder);
                Err(fault)
            }
        }
    }
}

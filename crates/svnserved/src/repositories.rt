//! The repositories that are made and served.
ghost use Rattle.std.specs.Prelude.{◌≡◌, [], List, IfOk};
ghost use Rattle.store_files.specs.{Folders.{Folder, IsSame}, Note.{Known, folder_of}, Replay.{Leaves, held}};
ghost use Rattle.stored_repository.specs.Stored.{IsOpened};
ghost use Rattle.filed_repository.specs.Files.{filed_content};
ghost use Rattle.hub.specs.Opening.{IsFoundIn};

use crate::beside::make_beside;
use crate::fault::ProgramFault;
use command_line::NewFormat;
use filed_repository::{FolderRepository, check_free, create, open};
use hub::{FolderHub, Options, hub_over};
use rand::rngs::StdRng;
use repostore::Unopened;
use serving::moment_now;
use std::alloc::{AllocError, Global};
use std::mem::drop;
use store_files::{MemoryStore, Store};
use store_folder::FolderStore;
use store_progress::ProgressStore;
use uuid::Uuid;

/// The files of a repository in a folder of the system, of which it is said how far a start is.
pub type DiskStore = ProgressStore<FolderStore<HostRuntime>, HostRuntime>;

/// The UUID of an empty repository in memory.
const EMPTY_UUID: u128 = 0x0000_0000_0000_4000_8000_0000_0000_0000;

/// Gives the folder of the files of a repository.
pub fn files_folder(alloc: Global, folder: &str) -> Result<String, AllocError> {
    format!(in alloc; "{folder}/db")
}

/// Makes a UUID of the system's random bytes.
fn new_uuid(rt: &HostRuntime) -> Result<u128, ProgramFault> {
    let Ok(mut words) = rand::make_rng::<StdRng, HostRuntime>(rt) else {
        return Err(ProgramFault::Random);
    };
    Ok(Uuid::new_v4(&mut words).as_u128())
}

/// Makes an empty repository of a format in a folder, which is made where it is missing, and before it what Subversion's tools
/// look for beside its files.
pub fn create_in_folder(
    rt: &HostRuntime,
    folder: &str,
    format: NewFormat,
) -> Result<(), ProgramFault> {
    let uuid = new_uuid(rt)?;
    let mut store = FolderStore::make(*rt, files_folder(rt.alloc(), folder)?)?;
    check_free(rt.alloc(), &mut store)?;
    make_beside(rt, folder, format)?;
    create(
        rt.alloc(),
        &mut store,
        uuid,
        moment_now(rt),
        format.number(),
    )?;
    Ok(())
}

/// Opens a repository, which nobody else has.
fn opened<S: Store>(alloc: Global, store: S) -> Result<FolderRepository<S>, Unopened<S>>
    requires { S.is_honest store → (f : Folder) → S.may_leave store f → IsSame (S.holds store) f }
    ensures { IfOk result (IsOpened store) }
{
    open(alloc, store)
}

/// Says why the repository in a folder is not opened, and which of its files was read last.
fn unread(unopened: Unopened<DiskStore>) -> ProgramFault {
    let Unopened { fault, store } = unopened;
    let last = store.inner().last_read();
    drop(store);
    ProgramFault::Unread(fault, last)
}

/// Opens the folder of the files of a repository. How far its start is, is said on standard error unless it is quiet.
pub fn open_files(
    rt: &HostRuntime,
    files: String,
    is_quiet: bool,
) -> Result<DiskStore, ProgramFault>
    ghost was: { List Known }
    ensures start { IfOk result (λ store. (store.inner.log.start ≡ was) × (store.inner.log.events ≡ [])) }
    ensures rests { IfOk result (λ store. (f : Folder)
        → Leaves (folder_of store.inner.log.start) store.inner.log.events f
        → IsSame (held (folder_of store.inner.log.start) store.inner.log.events) f) }
{
    let store = FolderStore::open(*rt, files)?;
    Ok(ProgressStore::new(store, *rt, is_quiet))
}

/// Opens the repository in a folder: whatever files were there, it contains what they stand for, where a read has not
/// shown that they are not honest.
pub fn open_folder(
    rt: &HostRuntime,
    folder: &String,
    is_quiet: bool,
) -> Result<FolderRepository<DiskStore>, ProgramFault>
    ghost was: { List Known }
    ensures { IfOk result (λ stored. ⟦<DiskStore as Store>⟧.is_honest stored.saves.store
        → IsFoundIn (folder_of was) (filed_content stored.repository)) }
{
    let store = open_files(rt, files_folder(rt.alloc(), folder)?, is_quiet)?;
    match opened(rt.alloc(), store) {
        Ok(stored) => Ok(stored),
        Err(unopened) => Err(unread(unopened)),
    }
}

/// Makes a hub over the repository in a folder, with these options.
pub fn folder_hub(
    rt: &HostRuntime,
    folder: &String,
    options: Options,
) -> Result<FolderHub<DiskStore>, ProgramFault>
    ensures { IfOk result (λ hub. hub.settings ≡ options) }
{
    match open_folder(rt, folder, false) {
        Ok(stored) => Ok(hub_over(rt.alloc(), stored, options)),
        Err(fault) => Err(fault),
    }
}

/// Makes a hub over an empty repository in memory, with these options.
pub fn empty_hub(alloc: Global, options: Options) -> Result<FolderHub<MemoryStore>, ProgramFault>
    ensures { IfOk result (λ hub. hub.settings ≡ options) }
{
    let mut store = MemoryStore::new(alloc);
    create(alloc, &mut store, EMPTY_UUID, 0, 3)?;
    store.is_at_rest();
    match opened(alloc, store) {
        Ok(stored) => Ok(hub_over(alloc, stored, options)),
        Err(unopened) => Err(ProgramFault::Store(unopened.fault)),
    }
}

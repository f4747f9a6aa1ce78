//! Rooms for tests, stores in them, and what is asked of both.
use std::alloc::{AllocError, Global};
use std::os::unix::fs::MetadataExt;
use std::test::Fail;
use std::{fs, io};
use store_files::{FileName, Store};
use store_folder::{FolderFault, FolderStore};

/// Makes a room for a test, without what an earlier run has left there.
pub(crate) fn begin(rt: &HostRuntime, room: &str) -> io::Result<()> {
    let _removed = fs::remove_dir_all(rt, room);
    fs::create_dir(rt, room)
}

/// Makes the name of the folder that a test opens in its room.
pub(crate) fn name(alloc: Global, room: &str) -> Result<String, AllocError> {
    format!(in alloc; "{room}/repo/db")
}

/// Makes a store in a room without anything.
pub(crate) fn made(rt: &HostRuntime, room: &str) -> Result<FolderStore<HostRuntime>, Fail> {
    begin(rt, room)?;
    Ok(FolderStore::make(*rt, name(rt.alloc(), room)?)?)
}

/// Opens a folder, and says why it is not opened, if it is not.
pub(crate) fn fault_of(rt: &HostRuntime, folder: &str) -> Option<FolderFault> {
    let Ok(folder) = String::from_str(rt.alloc(), folder) else {
        return Some(FolderFault::NoMemory);
    };
    let opened: Result<FolderStore<HostRuntime>, FolderFault> = FolderStore::open(*rt, folder);
    opened.err()
}

/// Writes a file, and says whether that was done.
pub(crate) fn writes<S: Store>(store: &mut S, name: FileName, bytes: &[u8]) -> bool {
    store.write_new(name, bytes).is_ok()
}

/// Replaces a file, and says whether that was done.
pub(crate) fn replaces<S: Store>(store: &mut S, name: FileName, bytes: &[u8]) -> bool {
    store.replace(name, bytes).is_ok()
}

/// Says whether a store reads these bytes of a file.
pub(crate) fn reads<S: Store>(alloc: Global, store: &mut S, name: FileName, bytes: &[u8]) -> bool {
    match store.read(alloc, name) {
        Ok(Some(found)) => found.as_slice() == bytes,
        _ => false,
    }
}

/// Says whether a store reads that there is no such file.
pub(crate) fn reads_none<S: Store>(alloc: Global, store: &mut S, name: FileName) -> bool {
    matches!(store.read(alloc, name), Ok(None))
}

/// Says whether a store fails to read a file.
pub(crate) fn fails_to_read<S: Store>(alloc: Global, store: &mut S, name: FileName) -> bool {
    store.read(alloc, name).is_err()
}

/// Says whether a file of the system has these bytes.
pub(crate) fn holds(rt: &HostRuntime, path: &str, bytes: &[u8]) -> bool {
    match fs::read(rt, path) {
        Ok(found) => found.as_slice() == bytes,
        Err(_) => false,
    }
}

/// Says whether nothing in the system has a name.
pub(crate) fn is_missing(rt: &HostRuntime, path: &str) -> bool {
    match fs::exists(rt, path) {
        Ok(is_there) => !is_there,
        Err(_) => false,
    }
}

/// Says whether a plain file has a name, and not a link.
pub(crate) fn is_file(rt: &HostRuntime, path: &str) -> bool {
    match fs::symlink_metadata(rt, path) {
        Ok(found) => found.is_file(),
        Err(_) => false,
    }
}

/// Says whether this is who may do what with a file or folder.
pub(crate) fn has_mode(rt: &HostRuntime, path: &str, mode: u32) -> bool {
    match fs::symlink_metadata(rt, path) {
        Ok(found) => found.mode() & 0o777 == mode,
        Err(_) => false,
    }
}

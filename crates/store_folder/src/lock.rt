//! The lock of a folder.
use crate::looking::{TRIES, look_at};
use std::fs::{File, Metadata, TryLockError};
use std::io::{self, ErrorKind};
use std::os::unix::fs::MetadataExt;

/// Locks folders, so that no other store opens them.
pub trait LockFolder {
    /// A lock, which ends with this value, and so with its process.
    type Lock: Drop;

    /// Locks a folder that is there: `None` where another store has its lock.
    fn lock_folder(&self, folder: &str) -> io::Result<Option<Self::Lock>>;

    /// Says whether what has this name is the folder of the lock, and neither another one nor a link.
    fn has_locked(&self, lock: &Self::Lock, folder: &str) -> io::Result<bool>;
}

/// The lock of a folder of the system: the open folder, and which one it is, as no other is while it is open.
#[derive(Drop)]
pub struct FolderLock {
    file: File,
    device: u64,
    inode: u64,
}

/// Asks what an open file is.
fn metadata_of(file: &File) -> io::Result<Metadata> {
    for _ in 0..TRIES {
        match file.metadata() {
            Err(error) if error.kind() == ErrorKind::Interrupted => {}
            answer => return answer,
        }
    }
    Err(io::Error::from(ErrorKind::Interrupted))
}

/// Notes which folder is locked.
fn lock_of(file: File) -> io::Result<FolderLock> {
    let found = metadata_of(&file)?;
    Ok(FolderLock {
        file,
        device: found.dev(),
        inode: found.ino(),
    })
}

impl LockFolder for HostRuntime {
    type Lock = FolderLock;

    fn lock_folder(&self, folder: &str) -> io::Result<Option<FolderLock>> {
        let file = File::open(self, folder)?;
        match file.try_lock() {
            Ok(()) => Ok(Some(lock_of(file)?)),
            Err(TryLockError::WouldBlock) => Ok(None),
            Err(TryLockError::Error(error)) => Err(error),
        }
    }

    fn has_locked(&self, lock: &FolderLock, folder: &str) -> io::Result<bool> {
        match look_at(self, folder)? {
            Some(found) => Ok(found.dev() == lock.device && found.ino() == lock.inode),
            None => Ok(false),
        }
    }
}

//! A folder that is locked, and its files.
use crate::fault::{FolderFault, Trouble};
use crate::lock::LockFolder;
use crate::looking::{check_contents, check_root, read_file};
use crate::writing::{Unsettled, check_writable, replace, settle_names, write_new};
use std::alloc::Global;
use std::rt::Files;
use store_files::{FileName, ReplaceFault};

/// A folder of files that is locked, so that nobody else writes into it.
pub(crate) struct OwnFolder<R: Files + AllocGlobal + LockFolder + Drop> {
    rt: R,
    path: String,
    /// The lock of the folder, which ends with this value, and so with its process.
    lock: R::Lock,
    unsettled: Unsettled,
}

impl<R: Files + AllocGlobal + LockFolder + Drop> Drop for OwnFolder<R> {
    fn drop(self) {
        let OwnFolder {
            rt: _,
            path: _,
            lock: _,
            unsettled: _,
        } = self;
    }
}

/// Takes the lock of a folder, unless another store has it.
fn locked<R: LockFolder>(rt: &R, path: &str) -> Result<R::Lock, FolderFault> {
    match rt.lock_folder(path) {
        Ok(Some(lock)) => Ok(lock),
        Ok(None) => Err(FolderFault::InUse),
        Err(error) => Err(FolderFault::from(Trouble::from(error))),
    }
}

impl<R: Files + AllocGlobal + LockFolder + Drop> OwnFolder<R> {
    /// Locks a folder that exists, looks at what is in it, and waits until the disk has what an earlier server put there.
    pub fn open(rt: R, path: String) -> Result<Self, FolderFault> {
        check_root(&rt, &path)?;
        let lock = locked(&rt, &path)?;
        check_contents(&rt, &path)?;
        settle_names(&rt, &path)?;
        Ok(OwnFolder {
            rt,
            path,
            lock,
            unsettled: Unsettled::none(),
        })
    }

    /// Makes sure that the folder of this name is the one that is locked, and no other that was put in its place.
    fn check_own(&self) -> Result<(), Trouble> {
        if self.rt.has_locked(&self.lock, &self.path)? {
            Ok(())
        } else {
            Err(Trouble::Device)
        }
    }

    /// Finds out whether files can be made in the folder, and in those in it.
    pub fn is_writable(&self) -> Result<(), FolderFault> {
        let answer = match self.check_own() {
            Ok(()) => check_writable(&self.rt, &self.path),
            Err(trouble) => Err(trouble),
        };
        match answer {
            Ok(()) => Ok(()),
            Err(Trouble::Device) => Err(FolderFault::Unwritable),
            Err(Trouble::NoMemory) => Err(FolderFault::NoMemory),
        }
    }

    /// Reads the bytes of a file, if it exists.
    pub fn read(&self, alloc: Global, name: FileName) -> Result<Option<Vec<u8>>, Trouble> {
        read_file(&self.rt, alloc, &self.path, name)
    }

    /// Writes a file, in place of one that is there.
    pub fn write_new(&mut self, name: FileName, bytes: &[u8]) -> Result<(), Trouble> {
        self.check_own()?;
        write_new(&self.rt, &self.path, &mut self.unsettled, name, bytes)
    }

    /// Puts a file with these bytes in the place of one.
    pub fn replace(&mut self, name: FileName, bytes: &[u8]) -> Result<(), ReplaceFault> {
        self.check_own()?;
        replace(&self.rt, &self.path, &mut self.unsettled, name, bytes)
    }
}

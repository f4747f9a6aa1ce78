//! A system whose calls a signal interrupts, or which fails to wait for the disk.
use std::alloc::{Alloc, Allocator, Global};
use std::cell::Cell;
use std::fs::{File, Metadata, OpenOptions};
use std::io::{self, ErrorKind};
use std::rt::Files;
use store_folder::{FolderLock, LockFolder};

/// What is wrong with a system.
#[derive(Clone, Copy)]
pub(crate) enum Flaws {
    /// Every fifth call of each kind is interrupted before it is made, the first among them.
    Signals,
    /// So many waits for a folder whose path ends so fail, the first ones.
    Waits(&'static str, u32),
}

/// The system's files, with flaws.
#[derive(Drop)]
pub(crate) struct Flawed {
    rt: HostRuntime,
    flaws: Flaws,
    /// How many looks, renamings, new folders and removals are still made before one is interrupted.
    looks: Cell<u32>,
    renames: Cell<u32>,
    folders: Cell<u32>,
    removals: Cell<u32>,
    /// How many waits have failed.
    waits: Cell<u32>,
}

impl Flawed {
    /// Makes a system of these flaws.
    pub fn new(rt: HostRuntime, flaws: Flaws) -> Self {
        Flawed {
            rt,
            flaws,
            looks: Cell::new(0),
            renames: Cell::new(0),
            folders: Cell::new(0),
            removals: Cell::new(0),
            waits: Cell::new(0),
        }
    }

    /// Interrupts a call, where none is to be made before.
    fn interrupt(&self, left: &Cell<u32>) -> io::Result<()> {
        if let Flaws::Waits(_, _) = self.flaws {
            return Ok(());
        }
        match left.get() {
            0 => {
                left.set(4);
                Err(io::Error::from(ErrorKind::Interrupted))
            }
            more => {
                left.set(more - 1);
                Ok(())
            }
        }
    }

    /// Fails at opening a folder to wait for it, where that is to fail.
    fn wait(&self, path: &str) -> io::Result<()> {
        match self.flaws {
            Flaws::Waits(folder, count) if self.waits.get() < count && path.ends_with(folder) => {
                self.waits.set(self.waits.get().saturating_add(1));
                Err(io::Error::from(ErrorKind::Other))
            }
            _ => Ok(()),
        }
    }
}

impl Alloc for Flawed {
    type A = Global;

    fn alloc(&self) -> Global {
        self.rt.alloc()
    }
}

impl LockFolder for Flawed {
    type Lock = FolderLock;

    fn lock_folder(&self, folder: &str) -> io::Result<Option<FolderLock>> {
        self.rt.lock_folder(folder)
    }

    fn has_locked(&self, lock: &FolderLock, folder: &str) -> io::Result<bool> {
        self.rt.has_locked(lock, folder)
    }
}

impl Files for Flawed {
    type File = File;

    type Dir = <HostRuntime as Files>::Dir;

    fn open_file(&self, how: &OpenOptions, path: &str) -> io::Result<File> {
        self.wait(path)?;
        self.rt.open_file(how, path)
    }

    fn open_dir(&self, path: &str) -> io::Result<Self::Dir> {
        self.rt.open_dir(path)
    }

    fn metadata(&self, path: &str) -> io::Result<Metadata> {
        self.interrupt(&self.looks)?;
        self.rt.metadata(path)
    }

    fn symlink_metadata(&self, path: &str) -> io::Result<Metadata> {
        self.interrupt(&self.looks)?;
        self.rt.symlink_metadata(path)
    }

    fn copy(&self, from: &str, to: &str) -> io::Result<u64> {
        self.rt.copy(from, to)
    }

    fn rename(&self, from: &str, to: &str) -> io::Result<()> {
        self.interrupt(&self.renames)?;
        self.rt.rename(from, to)
    }

    fn remove_file(&self, path: &str) -> io::Result<()> {
        self.interrupt(&self.removals)?;
        self.rt.remove_file(path)
    }

    fn create_dir(&self, path: &str) -> io::Result<()> {
        self.rt.create_dir(path)
    }

    fn remove_dir(&self, path: &str) -> io::Result<()> {
        self.rt.remove_dir(path)
    }

    fn remove_dir_all<B: Allocator>(&self, alloc: B, path: &str) -> io::Result<()> {
        self.rt.remove_dir_all(alloc, path)
    }

    fn create_dir_with_mode(&self, path: &str, mode: u32) -> io::Result<()> {
        self.interrupt(&self.folders)?;
        self.rt.create_dir_with_mode(path, mode)
    }
}

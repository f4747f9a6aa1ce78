//! What Subversion's own tools look for in the folder of a repository, beside its files.

use command_line::NewFormat;
use std::alloc::Global;
use std::fs::{DirBuilder, OpenOptions};
use std::io::{self, ErrorKind};
use std::mem::drop;
use std::os::unix::fs::{DirBuilderExt, OpenOptionsExt};
use store_folder::FolderFault;

/// The folder of locks, which `svnadmin hotcopy` looks into. It stays empty: this server has none there.
const LOCKS: &str = "locks";

/// The folder of transactions that are under way, which `svnadmin lstxns` looks into. It stays empty.
const TRANSACTIONS: &str = "db/transactions";

/// The file of the last transaction's number, which `svnadmin hotcopy` copies. It stays empty.
const LAST_TRANSACTION: &str = "db/txn-current";

/// Who may look into a folder: its owner.
const FOLDER_MODE: u32 = 0o700;

/// Who may read and write a file: its owner.
const FILE_MODE: u32 = 0o600;

/// How often a call is made at most that a signal interrupts.
const TRIES: u32 = 100;

/// Takes what is there already for made; none where a signal has interrupted the call.
fn settled(made: io::Result<()>) -> Option<io::Result<()>> {
    match made {
        Err(error) if error.kind() == ErrorKind::Interrupted => None,
        Err(error) if error.kind() == ErrorKind::AlreadyExists => Some(Ok(())),
        made => Some(made),
    }
}

/// Makes a folder, where it is missing.
fn make_folder(rt: &HostRuntime, path: &str) -> io::Result<()> {
    let mut how = DirBuilder::new();
    how.mode(FOLDER_MODE);
    for _ in 0..TRIES {
        if let Some(made) = settled(how.create(rt, path)) {
            return made;
        }
    }
    Err(io::Error::from(ErrorKind::Interrupted))
}

/// Makes an empty file, where it is missing.
fn make_file(rt: &HostRuntime, path: &str) -> io::Result<()> {
    let mut options = OpenOptions::new();
    options.write(true).create_new(true).mode(FILE_MODE);
    for _ in 0..TRIES {
        if let Some(made) = settled(options.open(rt, path).map(drop)) {
            return made;
        }
    }
    Err(io::Error::from(ErrorKind::Interrupted))
}

/// Gives the path of what has a name in a folder.
fn path_in(alloc: Global, folder: &str, name: &str) -> Result<String, FolderFault> {
    format!(in alloc; "{folder}/{name}").map_err(|_| FolderFault::NoMemory)
}

/// Says that a folder cannot be written, where something in it is not made.
fn or_unwritable(made: io::Result<()>) -> Result<(), FolderFault> {
    made.map_err(|_| FolderFault::Unwritable)
}

/// Makes what Subversion's tools look for in the folder of a repository of a format, where it is missing. This server reads
/// none of it. In format 2 a client that commits into the folder itself asks for a folder of transactions alone, and what it
/// writes this server may not read, so there is none.
pub fn make_beside(rt: &HostRuntime, folder: &str, format: NewFormat) -> Result<(), FolderFault> {
    let locks = path_in(rt.alloc(), folder, LOCKS)?;
    or_unwritable(make_folder(rt, locks.as_str()))?;
    if format == NewFormat::Two {
        return Ok(());
    }
    let transactions = path_in(rt.alloc(), folder, TRANSACTIONS)?;
    or_unwritable(make_folder(rt, transactions.as_str()))?;
    let last = path_in(rt.alloc(), folder, LAST_TRANSACTION)?;
    or_unwritable(make_file(rt, last.as_str()))
}

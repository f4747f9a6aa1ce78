//! What is in a folder is looked at before it is opened, and no link is followed.
use crate::fault::{FolderFault, Trouble};
use crate::paths::Place;
use std::alloc::Global;
use std::fs::{self, File, Metadata};
use std::io::{self, ErrorKind, Read};
use std::rt::Files;
use store_files::FileName;

/// How often a call is made at most that a signal interrupts.
pub(crate) const TRIES: u32 = 100;

/// How many bytes a file of a line or two may have.
const LINE_LIMIT: u64 = 1024;

/// The files of a folder that have no number.
const LONE_FILES: [FileName; 6] = [
    FileName::RepositoryFormat,
    FileName::Format,
    FileName::Kind,
    FileName::Uuid,
    FileName::Current,
    FileName::Locks,
];

/// Files of the folders that have no number.
pub(crate) const FIRST_FILES: [FileName; 2] = [
    FileName::Revision(None, 0),
    FileName::Properties(None, 0),
];

/// Looks at what has a name, if anything has it. A link is looked at itself.
pub(crate) fn look_at<R: Files>(rt: &R, path: &str) -> io::Result<Option<Metadata>> {
    for _ in 0..TRIES {
        match fs::symlink_metadata(rt, path) {
            Ok(found) => return Ok(Some(found)),
            Err(error) => match error.kind() {
                ErrorKind::NotFound => return Ok(None),
                ErrorKind::Interrupted => {}
                _ => return Err(error),
            },
        }
    }
    Err(io::Error::from(ErrorKind::Interrupted))
}

/// Says whether there is a folder of this name. What else has the name is the device's failure.
pub(crate) fn has_folder<R: Files>(rt: &R, path: &str) -> Result<bool, Trouble> {
    match look_at(rt, path)? {
        Some(found) if found.is_dir() => Ok(true),
        Some(_) => Err(Trouble::Device),
        None => Ok(false),
    }
}

/// Makes sure that a folder has this name.
pub(crate) fn check_root<R: Files>(rt: &R, path: &str) -> Result<(), FolderFault> {
    match look_at(rt, path).map_err(Trouble::from)? {
        Some(found) if found.is_dir() => Ok(()),
        Some(_) => Err(FolderFault::NotPlain),
        None => Err(FolderFault::Missing),
    }
}

/// Makes sure that nothing but a folder has this name, if anything has it.
fn check_folder<R: Files>(rt: &R, path: &str) -> Result<(), FolderFault> {
    match look_at(rt, path).map_err(Trouble::from)? {
        Some(found) if !found.is_dir() => Err(FolderFault::NotPlain),
        _ => Ok(()),
    }
}

/// Makes sure that nothing but a plain file has this name, if anything has it.
fn check_file<R: Files>(rt: &R, path: &str) -> Result<(), FolderFault> {
    match look_at(rt, path).map_err(Trouble::from)? {
        Some(found) if !found.is_file() => Err(FolderFault::NotPlain),
        _ => Ok(()),
    }
}

/// Makes sure that what is in a store's folder under the names that it always has is of its kind. What is missing is no
/// fault, and shards and the files of revisions are looked at as they are read.
pub(crate) fn check_contents<R: Files + AllocGlobal>(
    rt: &R,
    root: &str,
) -> Result<(), FolderFault> {
    for name in FIRST_FILES {
        let place = Place::new(rt.alloc(), root, name).map_err(Trouble::from)?;
        check_folder(rt, place.folder())?;
    }
    for name in LONE_FILES {
        let place = Place::new(rt.alloc(), root, name).map_err(Trouble::from)?;
        check_file(rt, &place.path)?;
    }
    Ok(())
}

/// Says how many bytes a file may have: one that has revisions, their properties or the locks, as many as there is memory for.
fn length_limit(name: FileName) -> u64 {
    match name {
        FileName::Revision(_, _) | FileName::Properties(_, _) | FileName::Locks => u64::MAX,
        _ => LINE_LIMIT,
    }
}

/// Reads the first bytes of a file, which are all that it has. The memory for them is taken before.
fn read_first<R: Files>(
    rt: &R,
    alloc: Global,
    path: &str,
    length: u64,
) -> Result<Vec<u8>, Trouble> {
    let Ok(length) = usize::try_from(length) else {
        return Err(Trouble::NoMemory);
    };
    let mut bytes = Vec::new(alloc);
    bytes.resize(length, 0)?;
    File::open(rt, path)?.read_exact(&mut bytes)?;
    Ok(bytes)
}

/// Reads the bytes of a file, if it exists. What is no plain file, too long, or behind a link, is not opened.
pub(crate) fn read_file<R: Files>(
    rt: &R,
    alloc: Global,
    root: &str,
    name: FileName,
) -> Result<Option<Vec<u8>>, Trouble> {
    let place = Place::new(alloc, root, name)?;
    if !has_folder(rt, place.folder())? {
        return Ok(None);
    }
    match look_at(rt, &place.path)? {
        None => Ok(None),
        Some(found) if found.is_file() && found.len() <= length_limit(name) => {
            Ok(Some(read_first(rt, alloc, &place.path, found.len())?))
        }
        Some(_) => Err(Trouble::Device),
    }
}

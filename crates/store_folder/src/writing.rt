//! Files and folders that are made anew, by nobody but their owner to be read.
use crate::fault::Trouble;
use crate::looking::{FIRST_FILES, TRIES, has_folder, look_at};
use crate::paths::{Place, folder_around};
use std::fs::{self, DirBuilder, File, OpenFile, OpenOptions};
use std::io::{self, ErrorKind, Write};
use std::os::unix::fs::{DirBuilderExt, OpenOptionsExt};
use std::rt::Files;
use store_files::{FileName, ReplaceFault};

/// Who may read and write a file: its owner.
const FILE_MODE: u32 = 0o600;

/// Who may look into a folder: its owner.
const FOLDER_MODE: u32 = 0o700;

/// How many shards there are at most.
const SHARDS: u32 = 262_144;

/// The folders in which one was made whose name the disk may not have, since waiting for it has failed.
#[derive(Clone, Copy)]
pub(crate) struct Unsettled {
    /// The folder of the store.
    pub root: bool,
    /// That of the shards of revisions.
    pub revisions: bool,
    /// That of the shards of their properties.
    pub properties: bool,
}

impl Unsettled {
    /// Says that there is none.
    pub fn none() -> Self {
        Unsettled {
            root: false,
            revisions: false,
            properties: false,
        }
    }
}

/// Removes a file, also where a signal interrupts that.
fn remove<R: Files>(rt: &R, path: &str) -> io::Result<()> {
    for _ in 0..TRIES {
        match fs::remove_file(rt, path) {
            Err(error) if error.kind() == ErrorKind::Interrupted => {}
            answer => return answer,
        }
    }
    Err(io::Error::from(ErrorKind::Interrupted))
}

/// Makes a file of a name that nothing has, not even a link.
fn make_file<R: Files>(rt: &R, path: &str) -> io::Result<R::File> {
    let mut options = OpenOptions::new();
    options.write(true).create_new(true).mode(FILE_MODE);
    options.open(rt, path)
}

/// Makes a file. What has its name, as an earlier stop may have left it, is removed; what a link names is left alone.
fn make_file_anew<R: Files>(rt: &R, path: &str) -> io::Result<R::File> {
    match make_file(rt, path) {
        Err(error) if error.kind() == ErrorKind::AlreadyExists => {
            remove(rt, path)?;
            make_file(rt, path)
        }
        made => made,
    }
}

/// Puts these bytes into a file that was just made, and waits until the disk has them.
fn fill_file<F: Write + OpenFile + Drop>(mut file: F, bytes: &[u8]) -> Result<(), Trouble> {
    file.write_all(bytes)?;
    Ok(file.sync_all()?)
}

/// Removes a file that could not be written, as far as that can be done: what is left of it is of no use. The answer is
/// handed on.
fn removed_unless_written<R: Files>(
    rt: &R,
    path: &str,
    written: Result<(), Trouble>,
) -> Result<(), Trouble> {
    if written.is_err() {
        let _removed = remove(rt, path);
    }
    written
}

/// Writes a file under the name that it has until it is whole, and waits until the disk has it. One that could not be
/// written is removed.
fn write_unfinished<R: Files>(rt: &R, place: &Place, bytes: &[u8]) -> Result<(), Trouble> {
    let file = make_file_anew(rt, &place.unfinished)?;
    removed_unless_written(rt, &place.unfinished, fill_file(file, bytes))
}

/// Gives a file another name, also where a signal interrupts that.
fn rename<R: Files>(rt: &R, from: &str, to: &str) -> io::Result<()> {
    for _ in 0..TRIES {
        match fs::rename(rt, from, to) {
            Err(error) if error.kind() == ErrorKind::Interrupted => {}
            answer => return answer,
        }
    }
    Err(io::Error::from(ErrorKind::Interrupted))
}

/// Gives a file that is whole its name, and waits until the disk has it. One that has not got it is removed.
fn finish<R: Files>(rt: &R, place: &Place) -> Result<(), Trouble> {
    if let Err(error) = rename(rt, &place.unfinished, &place.path) {
        let _removed = remove(rt, &place.unfinished);
        return Err(Trouble::from(error));
    }
    sync_folder(rt, place.folder())
}

/// Waits until the disk has the names in a folder.
fn sync_folder<R: Files>(rt: &R, folder: &str) -> Result<(), Trouble> {
    Ok(File::open(rt, folder)?.sync_all()?)
}

/// Waits until the disk has the names in a folder that exists. That a file system cannot do so is no fault.
fn settle_folder<R: Files>(rt: &R, folder: &str) -> Result<(), Trouble> {
    match File::open(rt, folder)?.sync_all() {
        Ok(()) => Ok(()),
        Err(error)
            if matches!(
                error.kind(),
                ErrorKind::ReadOnlyFilesystem | ErrorKind::InvalidInput
            ) => Ok(()),
        Err(error) => Err(Trouble::from(error)),
    }
}

/// Gives the names of a file in a shard, if there is such a shard in the folder of files like this one.
fn shard_place<R: Files + AllocGlobal>(
    rt: &R,
    root: &str,
    like: FileName,
    shard: u32,
) -> Result<Option<Place>, Trouble> {
    let name = match like {
        FileName::Properties(_, _) => FileName::Properties(Some(shard), 0),
        _ => FileName::Revision(Some(shard), 0),
    };
    let place = Place::new(rt.alloc(), root, name)?;
    match look_at(rt, place.folder())? {
        Some(found) if found.is_dir() => Ok(Some(place)),
        _ => Ok(None),
    }
}

/// Waits until the disk has the names in the shards of properties, which are numbered from 0 without a gap.
fn settle_shards<R: Files + AllocGlobal>(rt: &R, root: &str) -> Result<(), Trouble> {
    for shard in 0..SHARDS {
        match shard_place(rt, root, FileName::Properties(None, 0), shard)? {
            Some(place) => settle_folder(rt, place.folder())?,
            None => return Ok(()),
        }
    }
    Ok(())
}

/// Waits until the disk has the names of the files that a server may have put in their places just before it was stopped:
/// `current` and the locks, and the properties of revisions. It has those of the folders then, too.
pub(crate) fn settle_names<R: Files + AllocGlobal>(rt: &R, root: &str) -> Result<(), Trouble> {
    settle_folder(rt, root)?;
    if let Some(first) = shard_place(rt, root, FileName::Revision(None, 0), 0)? {
        settle_folder(rt, folder_around(first.folder()))?;
    }
    let properties = Place::new(rt.alloc(), root, FileName::Properties(None, 0))?;
    if has_folder(rt, properties.folder())? {
        settle_folder(rt, properties.folder())?;
        settle_shards(rt, root)?;
    }
    Ok(())
}

/// Makes a folder, also where a signal interrupts that. Where a look at a folder above was interrupted, the answer is that it
/// exists.
fn create_folder<R: Files>(rt: &R, how: &DirBuilder, path: &str) -> io::Result<()> {
    for _ in 0..TRIES {
        match how.create(rt, path) {
            Err(error)
                if matches!(
                    error.kind(),
                    ErrorKind::Interrupted | ErrorKind::AlreadyExists
                ) => {}
            answer => return answer,
        }
    }
    Err(io::Error::from(ErrorKind::Interrupted))
}

/// Makes the folder of a store where it is missing, and waits until the disk has its name, and that of the folder around
/// it: the latter as far as that can be done, since who may make a folder need not be able to read the one above.
pub(crate) fn make_root<R: Files + AllocGlobal>(rt: &R, root: &str) -> Result<(), Trouble> {
    if look_at(rt, root)?.is_none() {
        let mut how = DirBuilder::new();
        how.recursive(true).mode(FOLDER_MODE);
        create_folder(rt, &how, root)?;
    }
    let around = format!(in rt.alloc(); "{root}/..")?;
    settle_folder(rt, &around)?;
    let above = format!(in rt.alloc(); "{root}/../..")?;
    let _settled = settle_folder(rt, &above);
    Ok(())
}

/// Makes a folder in one that exists, where it is missing, and waits until the disk has its name. Where that has failed
/// before, it waits again: a folder that is there need not be on the disk.
fn make_folder<R: Files>(rt: &R, folder: &str, is_unsettled: &mut bool) -> Result<(), Trouble> {
    if !has_folder(rt, folder)? {
        let mut how = DirBuilder::new();
        how.mode(FOLDER_MODE);
        *is_unsettled = true;
        create_folder(rt, &how, folder)?;
    }
    if *is_unsettled {
        sync_folder(rt, folder_around(folder))?;
        *is_unsettled = false;
    }
    Ok(())
}

/// Makes the folder that a file is in, where it is missing: that of all revisions or properties, and that of a shard.
fn make_folders<R: Files>(
    rt: &R,
    place: &Place,
    name: FileName,
    unsettled: &mut Unsettled,
) -> Result<(), Trouble> {
    let folder = place.folder();
    match name {
        FileName::Revision(None, _) | FileName::Properties(None, _) => {
            make_folder(rt, folder, &mut unsettled.root)
        }
        FileName::Revision(Some(_), _) => {
            make_folder(rt, folder_around(folder), &mut unsettled.root)?;
            make_folder(rt, folder, &mut unsettled.revisions)
        }
        FileName::Properties(Some(_), _) => {
            make_folder(rt, folder_around(folder), &mut unsettled.root)?;
            make_folder(rt, folder, &mut unsettled.properties)
        }
        _ => Ok(()),
    }
}

/// Writes a file, in place of one that is there. One that could not be written is removed.
pub(crate) fn write_new<R: Files + AllocGlobal>(
    rt: &R,
    root: &str,
    unsettled: &mut Unsettled,
    name: FileName,
    bytes: &[u8],
) -> Result<(), Trouble> {
    let place = Place::new(rt.alloc(), root, name)?;
    make_folders(rt, &place, name, unsettled)?;
    write_unfinished(rt, &place, bytes)?;
    removed_unless_written(rt, &place.path, finish(rt, &place))
}

/// Puts a file with these bytes in the place of one, which is left alone until they are on the disk. From then on, whatever
/// fails, nobody knows which of the two is there.
pub(crate) fn replace<R: Files + AllocGlobal>(
    rt: &R,
    root: &str,
    unsettled: &mut Unsettled,
    name: FileName,
    bytes: &[u8],
) -> Result<(), ReplaceFault> {
    let place = Place::new(rt.alloc(), root, name).map_err(Trouble::from)?;
    make_folders(rt, &place, name, unsettled)?;
    write_unfinished(rt, &place, bytes)?;
    match finish(rt, &place) {
        Ok(()) => Ok(()),
        Err(_) => Err(ReplaceFault::InDoubt),
    }
}

/// Makes sure that a file can be made in a folder, if there is one: one is made, and removed.
fn check_can_make<R: Files + AllocGlobal>(rt: &R, folder: &str) -> Result<(), Trouble> {
    if !has_folder(rt, folder)? {
        return Ok(());
    }
    let path = format!(in rt.alloc(); "{folder}/writable.new")?;
    std::mem::drop(make_file_anew(rt, &path)?);
    Ok(remove(rt, &path)?)
}

/// Makes sure that files can be made in the shards, which are numbered from 0 without a gap, of files like this one.
fn check_shards<R: Files + AllocGlobal>(rt: &R, root: &str, like: FileName) -> Result<(), Trouble> {
    for shard in 0..SHARDS {
        match shard_place(rt, root, like, shard)? {
            Some(place) => check_can_make(rt, place.folder())?,
            None => return Ok(()),
        }
    }
    Ok(())
}

/// Makes sure that files can be made in the folder of a store, and in those in it.
pub(crate) fn check_writable<R: Files + AllocGlobal>(rt: &R, root: &str) -> Result<(), Trouble> {
    check_can_make(rt, root)?;
    for name in FIRST_FILES {
        let place = Place::new(rt.alloc(), root, name)?;
        check_can_make(rt, place.folder())?;
        check_shards(rt, root, name)?;
    }
    Ok(())
}

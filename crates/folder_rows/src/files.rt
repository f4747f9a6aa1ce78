//! Files that are written, replaced and read back.
use crate::flawed::{Flawed, Flaws};
use crate::rooms::{
    begin, fails_to_read, has_mode, holds, is_missing, made, name, reads, reads_none, replaces,
    writes,
};
use std::fs;
use std::test::Fail;
use store_files::{FileName, Store};
use store_folder::{FolderFault, FolderStore};

/// Writes some files into folders that are missing, and replaces one that is not there, and one that is.
fn are_written(store: &mut FolderStore<HostRuntime>) -> bool {
    writes(store, FileName::Revision(None, 0), b"zero")
        && writes(store, FileName::Properties(None, 0), b"END\n")
        && replaces(store, FileName::Current, b"0 1 1\n")
        && replaces(store, FileName::Current, b"1 2 1\n")
        && writes(store, FileName::RepositoryFormat, b"5\n")
        && replaces(store, FileName::Format, b"2\n")
}

/// Says whether those files are read back.
fn are_read(rt: &HostRuntime, store: &mut FolderStore<HostRuntime>) -> bool {
    reads(rt.alloc(), store, FileName::Current, b"1 2 1\n")
        && reads(rt.alloc(), store, FileName::Revision(None, 0), b"zero")
        && reads(rt.alloc(), store, FileName::RepositoryFormat, b"5\n")
        && holds(rt, "files/repo/format", b"5\n")
        && store.failures() == 0
}

/// Files that are written, replaced and read back, some in folders that are missing.
#[test]
fn files_come_back(rt: HostRuntime) -> Result<(), Fail> {
    let mut store = made(&rt, "files")?;
    assert!(rt;
        reads_none(rt.alloc(), &mut store, FileName::Current)
            && are_written(&mut store)
            && are_read(&rt, &mut store)
    );
    fs::remove_dir_all(&rt, "files")?;
    Ok(())
}

/// Says whether a file of one line is read up to its limit, and not past it, and a revision past it, too.
fn limits_are_kept(rt: &HostRuntime, store: &mut FolderStore<HostRuntime>) -> bool {
    let line = [b'1'; 1024];
    let more = [b'1'; 1025];
    replaces(store, FileName::Uuid, &line)
        && replaces(store, FileName::Current, &more)
        && writes(store, FileName::Revision(None, 0), &more)
        && reads(rt.alloc(), store, FileName::Uuid, &line)
        && fails_to_read(rt.alloc(), store, FileName::Current)
        && reads(rt.alloc(), store, FileName::Revision(None, 0), &more)
}

/// A file of one line is read up to its limit, and not past it.
#[test]
fn a_long_file_is_not_read(rt: HostRuntime) -> Result<(), Fail> {
    let mut store = made(&rt, "long")?;
    assert!(rt; limits_are_kept(&rt, &mut store));
    fs::remove_dir_all(&rt, "long")?;
    Ok(())
}

/// Says whether writes fail in whose places there are folders, and leave no file that is not whole.
fn failures_leave_nothing(rt: &HostRuntime, store: &mut FolderStore<HostRuntime>) -> bool {
    fs::create_dir_all(rt, "failed/repo/db/revs/1").is_ok()
        && fs::create_dir_all(rt, "failed/repo/db/current").is_ok()
        && !writes(store, FileName::Revision(None, 1), b"one")
        && !replaces(store, FileName::Current, b"1 2 1\n")
        && is_missing(rt, "failed/repo/db/revs/1.new")
        && is_missing(rt, "failed/repo/db/current.new")
}

/// A write that fails leaves no file that is not whole.
#[test]
fn a_failed_write_leaves_nothing(rt: HostRuntime) -> Result<(), Fail> {
    let mut store = made(&rt, "failed")?;
    assert!(rt; failures_leave_nothing(&rt, &mut store));
    fs::remove_dir_all(&rt, "failed")?;
    Ok(())
}

/// Says whether what is made is for its owner alone.
fn is_for_its_owner(rt: &HostRuntime, store: &mut FolderStore<HostRuntime>) -> bool {
    writes(store, FileName::Revision(None, 0), b"zero")
        && replaces(store, FileName::Current, b"0 1 1\n")
        && has_mode(rt, "modes/repo", 0o700)
        && has_mode(rt, "modes/repo/db", 0o700)
        && has_mode(rt, "modes/repo/db/revs", 0o700)
        && has_mode(rt, "modes/repo/db/revs/0", 0o600)
        && has_mode(rt, "modes/repo/db/current", 0o600)
}

/// What is made is for its owner alone.
#[test]
fn others_see_nothing(rt: HostRuntime) -> Result<(), Fail> {
    let mut store = made(&rt, "modes")?;
    assert!(rt; is_for_its_owner(&rt, &mut store));
    fs::remove_dir_all(&rt, "modes")?;
    Ok(())
}

/// Says whether a folder is found to be one to write into, without leaving anything in it, and not to be one where a file
/// can't be made in that of the revisions.
fn is_tried(rt: &HostRuntime, store: &mut FolderStore<HostRuntime>) -> bool {
    writes(store, FileName::Revision(None, 0), b"zero")
        && store.is_writable().is_ok()
        && is_missing(rt, "writable/repo/db/writable.new")
        && is_missing(rt, "writable/repo/db/revs/writable.new")
        && fs::create_dir(rt, "writable/repo/db/revs/writable.new").is_ok()
        && store.is_writable() == Err(FolderFault::Unwritable)
}

/// That a folder can be written is found out without leaving anything in it.
#[test]
fn a_folder_can_be_written(rt: HostRuntime) -> Result<(), Fail> {
    let mut store = made(&rt, "writable")?;
    assert!(rt; is_tried(&rt, &mut store));
    fs::remove_dir_all(&rt, "writable")?;
    Ok(())
}

/// Says whether calls are made that a signal interrupts.
fn is_made_again(rt: &HostRuntime, store: &mut FolderStore<Flawed>) -> bool {
    writes(store, FileName::Revision(None, 0), b"zero")
        && replaces(store, FileName::Current, b"0 1 1\n")
        && reads(rt.alloc(), store, FileName::Revision(None, 0), b"zero")
        && store.failures() == 0
        && store.is_writable().is_ok()
}

/// A look, a renaming, a new folder or a removal that a signal interrupts is made again.
#[test]
fn interrupted_calls_are_made_again(rt: HostRuntime) -> Result<(), Fail> {
    begin(&rt, "interrupted")?;
    let mut store = FolderStore::make(
        Flawed::new(rt, Flaws::Signals),
        name(rt.alloc(), "interrupted")?,
    )?;
    assert!(rt; is_made_again(&rt, &mut store));
    fs::remove_dir_all(&rt, "interrupted")?;
    Ok(())
}

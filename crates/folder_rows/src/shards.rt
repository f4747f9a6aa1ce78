//! Files in shards, whose folders are made with the first file in them.
use crate::flawed::{Flawed, Flaws};
use crate::rooms::{
    begin, fails_to_read, fault_of, has_mode, holds, is_missing, made, name, reads, reads_none,
    replaces, writes,
};
use std::fs;
use std::os::unix::fs::symlink;
use std::test::Fail;
use store_files::{FileName, Store};
use store_folder::{FolderFault, FolderStore};

const LAST: FileName = FileName::Revision(Some(0), 999);

const NEXT: FileName = FileName::Revision(Some(1), 1000);

const VALUES: FileName = FileName::Properties(Some(1), 1000);

/// Writes files in shards that are missing, and in one that is there.
fn are_written(rt: &HostRuntime, store: &mut FolderStore<HostRuntime>) -> bool {
    reads_none(rt.alloc(), store, LAST)
        && writes(store, LAST, b"last")
        && fs::create_dir(rt, "shards/repo/db/revs/1").is_ok()
        && writes(store, NEXT, b"next")
        && writes(store, VALUES, b"END\n")
        && replaces(store, VALUES, b"K 1\na\nV 0\n\nEND\n")
}

/// Says whether the files have their places.
fn have_places(rt: &HostRuntime) -> bool {
    holds(rt, "shards/repo/db/revs/0/999", b"last")
        && holds(rt, "shards/repo/db/revs/1/1000", b"next")
        && holds(
            rt,
            "shards/repo/db/revprops/1/1000",
            b"K 1\na\nV 0\n\nEND\n",
        )
        && has_mode(rt, "shards/repo/db/revs/0", 0o700)
        && has_mode(rt, "shards/repo/db/revs/0/999", 0o600)
}

/// Says whether the files are read back.
fn are_read(rt: &HostRuntime, store: &mut FolderStore<HostRuntime>) -> bool {
    reads(rt.alloc(), store, LAST, b"last")
        && reads(rt.alloc(), store, NEXT, b"next")
        && reads(rt.alloc(), store, VALUES, b"K 1\na\nV 0\n\nEND\n")
        && store.failures() == 0
}

/// Shards are made with the first file in them, also where one is there.
#[test]
fn shards_are_made(rt: HostRuntime) -> Result<(), Fail> {
    let mut store = made(&rt, "shards")?;
    assert!(rt; are_written(&rt, &mut store) && have_places(&rt) && are_read(&rt, &mut store));
    fs::remove_dir_all(&rt, "shards")?;
    Ok(())
}

/// Puts links in the places of shards.
fn are_links(rt: &HostRuntime) -> bool {
    fs::create_dir(rt, "linked/outside").is_ok()
        && fs::write(rt, "linked/outside/1000", b"mine").is_ok()
        && symlink(rt, "../../../outside", "linked/repo/db/revs/1").is_ok()
        && symlink(rt, "../../../outside", "linked/repo/db/revprops").is_ok()
}

/// Says whether they are neither read nor written through.
fn are_not_followed(rt: &HostRuntime, store: &mut FolderStore<HostRuntime>) -> bool {
    fails_to_read(rt.alloc(), store, NEXT)
        && !writes(store, NEXT, b"next")
        && !replaces(store, NEXT, b"next")
        && !writes(store, VALUES, b"END\n")
        && holds(rt, "linked/outside/1000", b"mine")
        && is_missing(rt, "linked/outside/1")
}

/// A link in the place of a shard is not followed.
#[test]
fn a_link_is_no_shard(rt: HostRuntime) -> Result<(), Fail> {
    let mut store = made(&rt, "linked")?;
    assert!(rt;
        writes(&mut store, LAST, b"last") && are_links(&rt) && are_not_followed(&rt, &mut store)
    );
    fs::remove_dir_all(&rt, "linked")?;
    Ok(())
}

/// Says whether files can be made in the shards, and none can where something is in the way in this one.
fn is_tried(rt: &HostRuntime, store: &FolderStore<HostRuntime>, way: &str) -> bool {
    store.is_writable().is_ok()
        && fs::create_dir(rt, way).is_ok()
        && store.is_writable() == Err(FolderFault::Unwritable)
        && fs::remove_dir(rt, way).is_ok()
}

/// Shards are tried, too, where it is found out whether a folder can be written.
#[test]
fn a_shard_can_be_written(rt: HostRuntime) -> Result<(), Fail> {
    let mut store = made(&rt, "tried")?;
    assert!(rt;
        writes(&mut store, LAST, b"last")
            && writes(&mut store, FileName::Properties(Some(0), 0), b"END\n")
            && writes(&mut store, VALUES, b"END\n")
            && is_tried(&rt, &store, "tried/repo/db/revs/0/writable.new")
            && is_tried(&rt, &store, "tried/repo/db/revprops/1/writable.new")
            && is_missing(&rt, "tried/repo/db/revprops/0/writable.new")
    );
    fs::remove_dir_all(&rt, "tried")?;
    Ok(())
}

/// A shard that was made by a call which failed to wait for the disk is waited for again.
#[test]
fn a_shard_that_is_there_need_not_be_on_the_disk(rt: HostRuntime) -> Result<(), Fail> {
    begin(&rt, "waits")?;
    let mut store = FolderStore::make(
        Flawed::new(rt, Flaws::Waits("/revs", 2)),
        name(rt.alloc(), "waits")?,
    )?;
    assert!(rt;
        !writes(&mut store, LAST, b"last")
            && !is_missing(&rt, "waits/repo/db/revs/0")
            && !writes(&mut store, LAST, b"last")
            && is_missing(&rt, "waits/repo/db/revs/0/999")
            && writes(&mut store, LAST, b"last")
    );
    fs::remove_dir_all(&rt, "waits")?;
    Ok(())
}

/// Opens a folder of shards in a system that fails at the first wait for this folder, and gives the fault.
fn fault_at(rt: &HostRuntime, folder: &'static str) -> Option<FolderFault> {
    let Ok(name) = name(rt.alloc(), "settled") else {
        return Some(FolderFault::NoMemory);
    };
    let opened: Result<FolderStore<Flawed>, FolderFault> = FolderStore::open(
        Flawed::new(*rt, Flaws::Waits(folder, 1)),
        name,
    );
    opened.err()
}

/// Says whether a folder is not opened before the disk has the names of shards, and those in each shard of properties.
fn is_settled(rt: &HostRuntime) -> bool {
    fault_at(rt, "/revs") == Some(FolderFault::Device)
        && fault_at(rt, "/revprops") == Some(FolderFault::Device)
        && fault_at(rt, "/revprops/0") == Some(FolderFault::Device)
        && fault_at(rt, "/revprops/1") == Some(FolderFault::Device)
        && fault_of(rt, "settled/repo/db").is_none()
}

/// What an earlier server put in its place in a shard is on the disk before anything is read.
#[test]
fn shards_are_settled(rt: HostRuntime) -> Result<(), Fail> {
    let mut store = made(&rt, "settled")?;
    let written = writes(&mut store, LAST, b"last")
        && writes(&mut store, FileName::Properties(Some(0), 999), b"END\n")
        && writes(&mut store, VALUES, b"END\n");
    std::mem::drop(store);
    assert!(rt; written && is_settled(&rt));
    fs::remove_dir_all(&rt, "settled")?;
    Ok(())
}

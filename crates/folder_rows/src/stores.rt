//! Folders that are in use, missing, or put in the place of others.
use crate::rooms::{begin, fault_of, is_missing, made, name, replaces, writes};
use std::fs;
use std::test::Fail;
use store_files::{FileName, Store};
use store_folder::{FolderFault, FolderStore};

/// A folder has one store at a time.
#[test]
fn a_second_store_is_refused(rt: HostRuntime) -> Result<(), Fail> {
    let first = made(&rt, "second")?;
    let second = fault_of(&rt, "second/repo/db");
    std::mem::drop(first);
    assert!(rt; second == Some(FolderFault::InUse) && fault_of(&rt, "second/repo/db").is_none());
    fs::remove_dir_all(&rt, "second")?;
    Ok(())
}

/// A folder that is missing is not made by opening it.
#[test]
fn a_missing_folder_is_not_opened(rt: HostRuntime) -> Result<(), Fail> {
    begin(&rt, "missing")?;
    assert!(rt;
        fault_of(&rt, "missing/repo/db") == Some(FolderFault::Missing)
            && is_missing(&rt, "missing/repo")
    );
    fs::remove_dir_all(&rt, "missing")?;
    Ok(())
}

/// Says whether nothing is written where the folder of a store has gone.
fn is_not_made_anew(rt: &HostRuntime, store: &mut FolderStore<HostRuntime>) -> bool {
    writes(store, FileName::Revision(None, 0), b"zero")
        && fs::rename(rt, "another/repo", "another/moved").is_ok()
        && !writes(store, FileName::Revision(None, 1), b"one")
        && is_missing(rt, "another/repo")
}

/// Says whether nothing is written into another folder in its place.
fn leaves_another_alone(rt: &HostRuntime, store: &mut FolderStore<HostRuntime>) -> bool {
    fs::create_dir_all(rt, "another/repo/db/revs").is_ok()
        && !writes(store, FileName::Revision(None, 1), b"one")
        && !replaces(store, FileName::Current, b"1 2 1\n")
        && is_missing(rt, "another/repo/db/revs/1")
        && is_missing(rt, "another/repo/db/current")
        && store.failures() == 3
}

/// Where another folder was put in the place of a store's, nothing is written into it.
#[test]
fn another_folder_is_left_alone(rt: HostRuntime) -> Result<(), Fail> {
    let mut store = made(&rt, "another")?;
    assert!(rt; is_not_made_anew(&rt, &mut store) && leaves_another_alone(&rt, &mut store));
    fs::remove_dir_all(&rt, "another")?;
    Ok(())
}

/// Says whether nothing is written into the folder of another store.
fn leaves_the_other_alone(rt: &HostRuntime, store: &mut FolderStore<HostRuntime>) -> bool {
    !writes(store, FileName::Revision(None, 1), b"one")
        && !replaces(store, FileName::Current, b"1 2 1\n")
        && is_missing(rt, "stores/repo/db/revs")
        && is_missing(rt, "stores/repo/db/current")
}

/// Where another store has the folder that was put in the place of a store's, nothing is written into it.
#[test]
fn the_folder_of_another_store_is_left_alone(rt: HostRuntime) -> Result<(), Fail> {
    let mut store = made(&rt, "stores")?;
    fs::rename(&rt, "stores/repo", "stores/moved")?;
    let other: FolderStore<HostRuntime> = FolderStore::make(rt, name(rt.alloc(), "stores")?)?;
    assert!(rt; leaves_the_other_alone(&rt, &mut store));
    std::mem::drop(other);
    fs::remove_dir_all(&rt, "stores")?;
    Ok(())
}

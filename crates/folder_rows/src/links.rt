//! Links, and folders in the places of files.
use crate::rooms::{
    begin, fails_to_read, fault_of, holds, is_file, is_missing, made, replaces, writes,
};
use std::fs;
use std::os::unix::fs::symlink;
use std::test::Fail;
use store_files::{FileName, Store};
use store_folder::{FolderFault, FolderStore};

/// Puts links where files are to be, and where they are being written.
fn are_in_the_way(rt: &HostRuntime) -> bool {
    fs::write(rt, "links/outside", b"mine").is_ok()
        && symlink(rt, "../../../outside", "links/repo/db/revs/1").is_ok()
        && symlink(rt, "../../../outside", "links/repo/db/revs/1.new").is_ok()
        && symlink(rt, "../../outside", "links/repo/db/current.new").is_ok()
}

/// Says whether plain files are in the places of those links, and what they name has its bytes.
fn are_replaced(rt: &HostRuntime) -> bool {
    holds(rt, "links/outside", b"mine")
        && is_file(rt, "links/repo/db/revs/1")
        && is_file(rt, "links/repo/db/current")
        && is_missing(rt, "links/repo/db/revs/1.new")
        && is_missing(rt, "links/repo/db/current.new")
}

/// What a link names is not written: neither where a file is to be, nor where one was being written that an earlier stop
/// has left.
#[test]
fn links_are_not_written_through(rt: HostRuntime) -> Result<(), Fail> {
    let mut store = made(&rt, "links")?;
    assert!(rt;
        writes(&mut store, FileName::Revision(None, 0), b"zero")
            && are_in_the_way(&rt)
            && writes(&mut store, FileName::Revision(None, 1), b"one")
            && replaces(&mut store, FileName::Current, b"1 2 1\n")
            && are_replaced(&rt)
    );
    fs::remove_dir_all(&rt, "links")?;
    Ok(())
}

/// Puts what is no plain file in the places of revisions.
fn are_no_files(rt: &HostRuntime) -> bool {
    symlink(rt, "0", "kinds/repo/db/revs/1").is_ok()
        && symlink(rt, "/dev/zero", "kinds/repo/db/revs/2").is_ok()
        && fs::create_dir(rt, "kinds/repo/db/revs/3").is_ok()
}

/// Says whether they are not read.
fn are_not_read(rt: &HostRuntime, store: &mut FolderStore<HostRuntime>) -> bool {
    fails_to_read(rt.alloc(), store, FileName::Revision(None, 1))
        && fails_to_read(rt.alloc(), store, FileName::Revision(None, 2))
        && fails_to_read(rt.alloc(), store, FileName::Revision(None, 3))
        && store.failures() == 3
}

/// A link, or a folder, in the place of a file is not read, and neither is a link to a device that has no end.
#[test]
fn no_plain_file_is_not_read(rt: HostRuntime) -> Result<(), Fail> {
    let mut store = made(&rt, "kinds")?;
    assert!(rt;
        writes(&mut store, FileName::Revision(None, 0), b"zero")
            && are_no_files(&rt)
            && are_not_read(&rt, &mut store)
    );
    fs::remove_dir_all(&rt, "kinds")?;
    Ok(())
}

/// Says whether a folder is not opened, since something in it is of another kind.
fn is_not_plain(rt: &HostRuntime, folder: &str) -> bool {
    fault_of(rt, folder) == Some(FolderFault::NotPlain)
}

/// A folder in which a folder is found in a file's place is not opened.
#[test]
fn a_folder_in_the_place_of_a_file_is_refused(rt: HostRuntime) -> Result<(), Fail> {
    begin(&rt, "first")?;
    fs::create_dir_all(&rt, "first/db/locks.dump")?;
    assert!(rt; is_not_plain(&rt, "first/db"));
    fs::remove_dir_all(&rt, "first")?;
    Ok(())
}

/// A folder in which a link leads to the revisions is not opened.
#[test]
fn a_link_to_the_revisions_is_refused(rt: HostRuntime) -> Result<(), Fail> {
    begin(&rt, "second_link")?;
    fs::create_dir_all(&rt, "second_link/elsewhere/revs")?;
    fs::create_dir_all(&rt, "second_link/db")?;
    symlink(&rt, "../elsewhere/revs", "second_link/db/revs")?;
    assert!(rt; is_not_plain(&rt, "second_link/db"));
    fs::remove_dir_all(&rt, "second_link")?;
    Ok(())
}

/// A folder around which a link leads to a device that has no end is not opened.
#[test]
fn a_link_in_the_place_of_a_file_is_refused(rt: HostRuntime) -> Result<(), Fail> {
    begin(&rt, "third")?;
    fs::create_dir_all(&rt, "third/db")?;
    symlink(&rt, "/dev/zero", "third/format")?;
    assert!(rt; is_not_plain(&rt, "third/db"));
    fs::remove_dir_all(&rt, "third")?;
    Ok(())
}

/// A link in the place of the folder is not followed.
#[test]
fn a_link_to_the_folder_is_refused(rt: HostRuntime) -> Result<(), Fail> {
    begin(&rt, "fourth")?;
    fs::create_dir_all(&rt, "fourth/elsewhere/revs")?;
    symlink(&rt, "elsewhere", "fourth/db")?;
    assert!(rt; is_not_plain(&rt, "fourth/db"));
    fs::remove_dir_all(&rt, "fourth")?;
    Ok(())
}

/// A folder that a link to its repository leads to is opened.
#[test]
fn a_link_to_the_repository_is_followed(rt: HostRuntime) -> Result<(), Fail> {
    begin(&rt, "fifth")?;
    fs::create_dir_all(&rt, "fifth/repository/db/revs")?;
    symlink(&rt, "repository", "fifth/link")?;
    assert!(rt; fault_of(&rt, "fifth/link/db").is_none());
    fs::remove_dir_all(&rt, "fifth")?;
    Ok(())
}

//! Folders of format 2 that are copied in format 3.
use crate::folders::{DATE, EMPTY, FILE, THREE, TWO, UUID, folder, has};
use filed_repository::{check_free, copy_repository, judged, open};
use fsfs_text::FileFault;
use repo_api::Repository;
use repository_creation::Progress;
use std::alloc::Global;
use std::test::Fail;
use store_files::{FileName, FuseStore, Left, MemoryStore, Store, StoreFault};

/// Hears how far a copy is, and keeps nothing of it.
#[derive(Drop)]
struct Silent;

impl Progress for Silent {
    fn tell(&mut self, _done: u32, _count: u32) {}
}

/// Copies the folder of format 2 into a store.
fn copy<T: Store>(alloc: Global, to: &mut T) -> Result<Result<(), StoreFault>, Fail> {
    let mut from = folder(alloc, &TWO)?;
    let count = judged(alloc, &mut from)?;
    let mut silent = Silent;
    Ok(copy_repository(alloc, &mut from, to, count, &mut silent))
}

/// Says whether a store has the copy, which is opened as a repository of two revisions.
fn is_copy(alloc: Global, store: MemoryStore) -> bool {
    let is_whole = has(&store, FileName::Format, THREE.format)
        && has(&store, FileName::Uuid, UUID)
        && has(&store, FileName::Current, b"1\n")
        && has(&store, FileName::Revision(Some(0), 0), EMPTY)
        && has(&store, FileName::Properties(Some(0), 0), DATE)
        && has(&store, FileName::Revision(Some(0), 1), FILE)
        && has(&store, FileName::Properties(Some(0), 1), DATE);
    store.is_at_rest();
    match open(alloc, store) {
        Ok(found) => is_whole && found.repository().youngest() == 1,
        Err(_) => false,
    }
}

#[test]
fn a_folder_is_copied_byte_for_byte(rt: HostRuntime) -> Result<(), Fail> {
    let mut store = MemoryStore::new(rt.alloc());
    copy(rt.alloc(), &mut store)??;
    assert!(rt; store.bytes(FileName::Locks).is_none());
    assert!(rt; check_free(rt.alloc(), &mut store) == Err(StoreFault::Exists));
    assert!(rt; is_copy(rt.alloc(), store));
    Ok(())
}

#[test]
fn locks_of_another_copy_are_not_kept(rt: HostRuntime) -> Result<(), Fail> {
    let mut store = MemoryStore::new(rt.alloc());
    store.write_new(FileName::Locks, b"stray")?;
    copy(rt.alloc(), &mut store)??;
    assert!(rt; has(&store, FileName::Locks, b"END\n"));
    assert!(rt; is_copy(rt.alloc(), store));
    Ok(())
}

#[test]
fn other_formats_are_not_copied(rt: HostRuntime) -> Result<(), Fail> {
    let wrong = Err(StoreFault::File(FileFault::WrongFormat));
    let mut three = folder(rt.alloc(), &THREE)?;
    assert!(rt; judged(rt.alloc(), &mut three) == wrong);
    let mut cut = folder(rt.alloc(), &TWO)?;
    cut.write_new(FileName::Revision(None, 1), b"")?;
    assert!(rt; judged(rt.alloc(), &mut cut) == Err(StoreFault::File(FileFault::Truncated)));
    cut.write_new(FileName::Format, b"4\n")?;
    assert!(rt; judged(rt.alloc(), &mut cut) == wrong);
    Ok(())
}

/// Checks what is found after a copy that failed at its call of this number, and a second one where there is none.
fn copied_again(alloc: Global, passes: u64, left: Left) -> Result<bool, Fail> {
    let mut store = FuseStore::new(MemoryStore::new(alloc), passes, left);
    let first = copy(alloc, &mut store)?;
    let mut store = store.into_inner();
    if check_free(alloc, &mut store).is_ok() {
        copy(alloc, &mut store)??;
    }
    Ok(first.is_err() == (passes < 9) && is_copy(alloc, store))
}

#[test]
fn a_copy_that_failed_is_made_again(rt: HostRuntime) -> Result<(), Fail> {
    for passes in 0..10 {
        for left in [Left::Old, Left::New, Left::Torn] {
            assert!(rt; copied_again(rt.alloc(), passes, left)?, "{passes}");
        }
    }
    Ok(())
}

//! Repositories that are changed and opened again, also where changes have come to a halt.
ghost use Rattle.store_files.specs.Folders.{Folder, IsSame};

use byte_string::ByteString;
use filed_repository::{FolderRepository, create, open};
use repo_api::{ChangeFault, PreviousValue, PropertyAsk, Repository};
use std::alloc::{AllocError, Global};
use std::test::Fail;
use store_files::{FileName, FuseStore, Left, MemoryStore, Store};

/// The message that revision 0 is given.
const MESSAGE: &[u8] = b"hello";

// The properties of revision 0 before it has the message, and with it, from the rules of the format.
const BEFORE: &[u8] = b"K 8\nsvn:date\nV 27\n1970-01-01T00:00:00.000000Z\nEND\n";

const AFTER: &[u8] =
    b"K 8\nsvn:date\nV 27\n1970-01-01T00:00:00.000000Z\nK 7\nsvn:log\nV 5\nhello\nEND\n";

/// Makes the name of the property that has the message.
fn name(alloc: Global) -> Result<ByteString, AllocError> {
    ByteString::from_slice(alloc, b"svn:log")
}

/// Asks for the message.
fn ask_for(alloc: Global) -> Result<PropertyAsk, AllocError> {
    Ok(PropertyAsk {
        revision: 0,
        name: name(alloc)?,
        value: Some(ByteString::from_slice(alloc, MESSAGE)?),
        previous: PreviousValue::Any,
    })
}

/// Makes the files of a new repository: of format 3 where its revision 0 has a shard, else of format 2.
fn new_files(alloc: Global, shard: Option<u32>) -> Result<MemoryStore, Fail> {
    let mut store = MemoryStore::new(alloc);
    let format = if shard.is_some() { 3 } else { 2 };
    create(alloc, &mut store, 0, 0, format)?;
    Ok(store)
}

/// Opens the repository in these files.
fn opened<S: Store>(alloc: Global, store: S) -> Result<FolderRepository<S>, Fail>
    requires { S.is_honest store → (f : Folder) → S.may_leave store f → IsSame (S.holds store) f }
{
    match open(alloc, store) {
        Ok(found) => Ok(found),
        Err(unopened) => Err(Fail::from(unopened.fault)),
    }
}

/// Gives revision 0 the message, and says how that is answered.
fn change<S: Store>(
    alloc: Global,
    stored: &mut FolderRepository<S>,
) -> Result<Result<(), ChangeFault>, AllocError> {
    Ok(stored.change_property_in_files(ask_for(alloc)?))
}

/// Says whether revision 0 has the message.
fn has_message<R: Repository>(alloc: Global, repository: &R) -> Result<bool, AllocError> {
    let name = name(alloc)?;
    match repository.revision_properties(0) {
        Some(properties) => match properties.get(&name) {
            Some(value) => Ok(value.as_slice() == MESSAGE),
            None => Ok(false),
        },
        None => Ok(false),
    }
}

/// Says whether these are the properties of revision 0 in a store's files.
fn has_file(store: &MemoryStore, shard: Option<u32>, wanted: &[u8]) -> bool {
    match store.bytes(FileName::Properties(shard, 0)) {
        Some(bytes) => bytes == wanted,
        None => false,
    }
}

/// Opens the repository in these files, and says whether it has the message.
fn is_found(alloc: Global, store: MemoryStore) -> Result<bool, Fail> {
    store.is_at_rest();
    let stored = opened(alloc, store)?;
    Ok(has_message(alloc, stored.repository())?)
}

/// Says whether a change is found in the files of its repository, and by one that is opened from them.
fn is_kept(alloc: Global, shard: Option<u32>) -> Result<bool, Fail> {
    let files = new_files(alloc, shard)?;
    files.is_at_rest();
    let mut stored = opened(alloc, files)?;
    let is_made = change(alloc, &mut stored)?.is_ok();
    let is_there = has_file(stored.store(), shard, AFTER);
    Ok(is_made && is_there && is_found(alloc, stored.into_store())?)
}

/// Says whether a change comes to a halt whose replacement fails and leaves this; whether then the file is as it is
/// wanted; and whether a repository that is opened from the files has what they say.
fn is_halted_with(
    alloc: Global,
    shard: Option<u32>,
    left: Left,
    wanted: &[u8],
) -> Result<bool, Fail> {
    let files = new_files(alloc, shard)?;
    files.is_at_rest();
    let mut stored = opened(alloc, FuseStore::new(files, 0, left))?;
    let is_halt = matches!(change(alloc, &mut stored)?, Err(ChangeFault::Halted));
    let is_there = has_file(stored.store().inner(), shard, wanted);
    let is_shown = has_message(alloc, stored.repository())?;
    let found = is_found(alloc, stored.into_store().into_inner())?;
    Ok(is_halt && is_there && !is_shown && found == (wanted == AFTER))
}

#[test]
fn a_change_is_found_again(rt: HostRuntime) -> Result<(), Fail> {
    assert!(rt; is_kept(rt.alloc(), None)?);
    assert!(rt; is_kept(rt.alloc(), Some(0))?);
    Ok(())
}

#[test]
fn a_halt_leaves_what_was_before_or_after_the_change(rt: HostRuntime) -> Result<(), Fail> {
    for shard in [None, Some(0)] {
        assert!(rt; is_halted_with(rt.alloc(), shard, Left::Old, BEFORE)?);
        assert!(rt; is_halted_with(rt.alloc(), shard, Left::Torn, BEFORE)?);
        assert!(rt; is_halted_with(rt.alloc(), shard, Left::New, AFTER)?);
    }
    Ok(())
}

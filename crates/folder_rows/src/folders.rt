ghost use Rattle.std.specs.Prelude.{◌≡◌, ◌⊎◌};

use filed_repository::{create, open};
use fsfs_text::FileFault;
use repo_api::Repository;
use std::alloc::Global;
use std::test::Fail;
use store_files::{FileName, FuseStore, Left, MemoryStore, Store, StoreFault};

pub(crate) const UUID: &[u8] = b"00000000-0000-4000-8000-000000000000\n";

// Revisions 0 and 1 of the page of formats, with Python's digests: the second has a file `/a` of `hello`.
pub(crate) const EMPTY: &[u8] =
    b"PLAIN\nEND\nENDREP\nid: 0.0.r0/17\ntype: dir\ncount: 0\ntext: 0 0 4 4 2d2977d1c96f487abe4a1e202dd03b4e\ncpath: /\n\n\n17 107\n";

pub(crate) const FILE: &[u8] =
    b"PLAIN\nhello\nENDREP\nid: 1.0.r1/19\ntype: file\ncount: 0\ntext: 1 0 6 6 b1946ac92492d2347c6235b4d2611184\ncpath: /a\ncopyroot: 0 /\n\nPLAIN\nK 1\na\nV 14\nfile 1.0.r1/19\nEND\nENDREP\nid: 0.0.r1/168\ntype: dir\npred: 0.0.r0/17\ncount: 1\ntext: 1 125 30 30 4885e3681d4e920f6506e681bebd1ebe\ncpath: /\ncopyroot: 0 /\n\n1.0.r1/19 add true false /a\n\n\n168 293\n";

// Revision 1 of a folder of Subversion 1.14.2 in format 2, an import of the same file, whose text is a delta.
const DELTA: &[u8] =
    b"DELTA\nSVN\x01\x00\x00\x06\x02\x07\x01\x86\x06hello\nENDREP\nid: 1.0.r1/31\ntype: file\ncount: 0\ntext: 1 0 18 6 b1946ac92492d2347c6235b4d2611184\ncpath: /a\ncopyroot: 0 /\n\nPLAIN\nK 1\na\nV 14\nfile 1.0.r1/31\nEND\nENDREP\nid: 0.0.r1/181\ntype: dir\npred: 0.0.r0/17\ncount: 1\ntext: 1 138 30 30 848b924252e6c3bebe3823bdd85d3bdf\ncpath: /\ncopyroot: 0 /\n\n_0.0.t0-1 add true false /a\n\n\n181 306\n";

// Its entry names offset 99, where no node revision stands, and the digest is Python's of that.
const DANGLING: &[u8] =
    b"PLAIN\nhello\nENDREP\nid: 1.0.r1/19\ntype: file\ncount: 0\ntext: 1 0 6 6 b1946ac92492d2347c6235b4d2611184\ncpath: /a\ncopyroot: 0 /\n\nPLAIN\nK 1\na\nV 14\nfile 1.0.r1/99\nEND\nENDREP\nid: 0.0.r1/168\ntype: dir\npred: 0.0.r0/17\ncount: 1\ntext: 1 125 30 30 3944a8b7a0d2215e3350c68abc32a5be\ncpath: /\ncopyroot: 0 /\n\n1.0.r1/19 add true false /a\n\n\n168 293\n";

// Revision 1 of a folder of format 3, with Python's digest: the node id of `/a` is the first one of the revision.
const FILE_3: &[u8] =
    b"PLAIN\nhello\nENDREP\nid: 0-1.0.r1/19\ntype: file\ncount: 0\ntext: 1 0 6 6 b1946ac92492d2347c6235b4d2611184\ncpath: /a\ncopyroot: 0 /\n\nPLAIN\nK 1\na\nV 16\nfile 0-1.0.r1/19\nEND\nENDREP\nid: 0.0.r1/172\ntype: dir\npred: 0.0.r0/17\ncount: 1\ntext: 1 127 32 32 32ae639a54b2b5c7553c19ebd3ce36fc\ncpath: /\ncopyroot: 0 /\n\n0-1.0.r1/19 add true false /a\n\n\n172 297\n";

// A lock without a date, an owner and a token.
const LOCK: &[u8] = b"K 2\n/a\nV 4\nEND\n\nEND\n";

pub(crate) const DATE: &[u8] = b"K 8\nsvn:date\nV 27\n1970-01-01T00:00:01.000000Z\nEND\n";

/// The folder of a format: its small files, the size of its shards, and the file of its revision 1.
#[derive(Clone, Copy)]
pub(crate) struct Form {
    pub format: &'static [u8],
    current: &'static [u8],
    size: Option<u32>,
    revision: &'static [u8],
}

pub(crate) const TWO: Form = Form {
    format: b"2\n",
    current: b"1 2 1\n",
    size: None,
    revision: FILE,
};

pub(crate) const THREE: Form = Form {
    format: b"3\nlayout sharded 1000\n",
    current: b"1\n",
    size: Some(1000),
    revision: FILE_3,
};

/// Each revision has a shard of its own; and revision 1 is as in format 2, as in a folder that was migrated.
const SMALL: Form = Form {
    format: b"3\nlayout sharded 1\n",
    current: b"1 x y\n",
    size: Some(1),
    revision: FILE,
};

const LINEAR: Form = Form {
    format: b"3\nlayout linear\n",
    current: b"1\n",
    size: None,
    revision: FILE_3,
};

/// Gives the shard of a revision.
fn shard(form: &Form, number: u32) -> Option<u32> {
    match form.size {
        Some(size) => number.checked_div(size),
        None => None,
    }
}

/// Gives the name of the file of a revision.
fn revision(form: &Form, number: u32) -> FileName {
    FileName::Revision(shard(form, number), number)
}

/// Gives the name of the file of a revision's properties.
fn properties(form: &Form, number: u32) -> FileName {
    FileName::Properties(shard(form, number), number)
}

/// Makes a folder of two revisions.
pub(crate) fn folder(alloc: Global, form: &Form) -> Result<MemoryStore, Fail> {
    let mut store = MemoryStore::new(alloc);
    store.write_new(FileName::Format, form.format)?;
    store.write_new(FileName::Uuid, UUID)?;
    store.write_new(FileName::Current, form.current)?;
    store.write_new(revision(form, 0), EMPTY)?;
    store.write_new(properties(form, 0), DATE)?;
    store.write_new(revision(form, 1), form.revision)?;
    store.write_new(properties(form, 1), DATE)?;
    Ok(store)
}

/// Gives the youngest revision of a folder in which a file has these bytes, or its fault.
fn opened(
    alloc: Global,
    form: &Form,
    name: FileName,
    bytes: &[u8],
) -> Result<Result<u64, StoreFault>, Fail> {
    let mut store = folder(alloc, form)?;
    store.write_new(name, bytes)?;
    store.is_at_rest();
    match open(alloc, store) {
        Ok(found) => Ok(Ok(found.repository().youngest())),
        Err(unopened) => Ok(Err(unopened.fault)),
    }
}

/// Makes the bytes of a file with another byte at a place.
fn changed(alloc: Global, file: &[u8], place: usize, byte: u8) -> Result<Vec<u8>, Fail> {
    let mut bytes = Vec::from_slice(alloc, file)?;
    if let Some(old) = bytes.get_mut(place) {
        *old = byte;
    }
    Ok(bytes)
}

/// Says whether a fault is one of a file's bytes.
fn is_of_bytes(fault: StoreFault) -> bool {
    match fault {
        StoreFault::File(FileFault::NoMemory | FileFault::WrongFormat) => false,
        StoreFault::File(_) => true,
        _ => false,
    }
}

/// Says whether each shorter beginning of the file of revision 1 is a fault of the file.
fn are_beginnings_faulty(alloc: Global, form: &Form) -> Result<bool, Fail> {
    for end in 0..form.revision.len() {
        let front = form.revision.get(..end).unwrap_or(&[]);
        if !opened(alloc, form, revision(form, 1), front)?.is_err_and(is_of_bytes) {
            return Ok(false);
        }
    }
    Ok(true)
}

#[test]
fn each_beginning_of_a_revision_is_a_fault(rt: HostRuntime) -> Result<(), Fail> {
    assert!(rt; are_beginnings_faulty(rt.alloc(), &TWO)?);
    assert!(rt; are_beginnings_faulty(rt.alloc(), &THREE)?);
    Ok(())
}

/// Says whether the folder is opened, or the file of revision 1 is faulty, with another byte at any place of it.
fn are_changes_judged(alloc: Global, form: &Form, byte: u8) -> Result<bool, Fail> {
    for place in 0..form.revision.len() {
        let bytes = changed(alloc, form.revision, place, byte)?;
        let is_judged = match opened(alloc, form, revision(form, 1), bytes.as_slice())? {
            Ok(youngest) => youngest == 1,
            Err(fault) => is_of_bytes(fault),
        };
        if !is_judged {
            return Ok(false);
        }
    }
    Ok(true)
}

#[test]
fn each_changed_byte_is_a_fault_or_read(rt: HostRuntime) -> Result<(), Fail> {
    for byte in [0, 10, 255] {
        assert!(rt; are_changes_judged(rt.alloc(), &TWO, byte)?);
        assert!(rt; are_changes_judged(rt.alloc(), &THREE, byte)?);
    }
    Ok(())
}

#[test]
fn faults_are_named(rt: HostRuntime) -> Result<(), Fail> {
    let alloc = rt.alloc();
    let mut delta = Vec::from_slice(alloc, b"DELTA")?;
    delta.extend_from_slice(FILE.get(5..).unwrap_or(&[]))?;
    let size = changed(alloc, FILE, 65, b'7')?;
    let digit = changed(alloc, FILE, 67, b'0')?;
    for form in [&TWO, &THREE, &SMALL, &LINEAR] {
        for (name, bytes, fault) in [
            (revision(form, 1), delta.as_slice(), FileFault::Delta),
            (revision(form, 1), DELTA, FileFault::Delta),
            (revision(form, 1), size.as_slice(), FileFault::BadLine),
            (revision(form, 1), digit.as_slice(), FileFault::Digest),
            (revision(form, 1), DANGLING, FileFault::Dangling),
            (revision(form, 1), b"", FileFault::Truncated),
            (FileName::Format, b"4\n", FileFault::WrongFormat),
            (FileName::Format, b"", FileFault::WrongFormat),
            (FileName::Uuid, b"", FileFault::Truncated),
            (FileName::Uuid, b"00000000\n", FileFault::BadLine),
            (FileName::Current, b"1\t2\n", FileFault::BadLine),
            (FileName::Current, b"2 2 1\n", FileFault::Truncated),
            (properties(form, 1), b"K 8\n", FileFault::Truncated),
            (FileName::Locks, LOCK, FileFault::BadLine),
        ] {
            let found = opened(alloc, form, name, bytes)?;
            assert!(rt; found == Err(StoreFault::File(fault)), "{name:?} {found:?}");
        }
    }
    Ok(())
}

#[test]
fn current_is_read_by_the_format(rt: HostRuntime) -> Result<(), Fail> {
    let alloc = rt.alloc();
    let line = Err(StoreFault::File(FileFault::BadLine));
    for bytes in [b"1\n".as_slice(), b"1 2\n", b"1 \n"] {
        assert!(rt; opened(alloc, &TWO, FileName::Current, bytes)? == line);
        assert!(rt; opened(alloc, &THREE, FileName::Current, bytes)? == Ok(1));
    }
    Ok(())
}

#[test]
fn files_are_read_in_the_layout_that_format_says(rt: HostRuntime) -> Result<(), Fail> {
    let alloc = rt.alloc();
    let cut = Err(StoreFault::File(FileFault::Truncated));
    for bytes in [b"3\n".as_slice(), b"3\nlayout linear\n"] {
        assert!(rt; opened(alloc, &TWO, FileName::Format, bytes)? == Ok(1));
        assert!(rt; opened(alloc, &THREE, FileName::Format, bytes)? == cut);
    }
    for bytes in [
        b"3\nlayout sharded 2\n".as_slice(),
        b"3\nlayout sharded 262144\n",
    ] {
        assert!(rt; opened(alloc, &THREE, FileName::Format, bytes)? == Ok(1));
        assert!(rt; opened(alloc, &SMALL, FileName::Format, bytes)? == cut);
    }
    Ok(())
}

/// Gives the fault of a folder of format 3 whose revision 1 has its file under this name alone.
fn named(alloc: Global, name: FileName) -> Result<Result<u64, StoreFault>, Fail> {
    let mut store = folder(alloc, &SMALL)?;
    store.write_new(FileName::Revision(Some(1), 1), b"")?;
    store.write_new(name, FILE)?;
    store.is_at_rest();
    match open(alloc, store) {
        Ok(found) => Ok(Ok(found.repository().youngest())),
        Err(unopened) => Ok(Err(unopened.fault)),
    }
}

#[test]
fn a_revision_is_read_in_its_own_shard(rt: HostRuntime) -> Result<(), Fail> {
    let alloc = rt.alloc();
    let cut = Err(StoreFault::File(FileFault::Truncated));
    assert!(rt; named(alloc, FileName::Revision(Some(1), 1))? == Ok(1));
    for shard in [None, Some(0), Some(2)] {
        assert!(rt; named(alloc, FileName::Revision(shard, 1))? == cut);
    }
    Ok(())
}

#[test]
fn what_is_not_reached_does_not_count(rt: HostRuntime) -> Result<(), Fail> {
    let alloc = rt.alloc();
    for form in [&TWO, &THREE, &SMALL, &LINEAR] {
        for name in [
            revision(form, 2),
            properties(form, 2),
            FileName::Revision(Some(7), 1),
            FileName::Kind,
            FileName::RepositoryFormat,
        ] {
            assert!(rt; opened(alloc, form, name, b"stray")? == Ok(1));
        }
        assert!(rt; opened(alloc, form, FileName::Current, b"0 1 1\n")? == Ok(0));
    }
    Ok(())
}

/// Checks what is found after a `create` of format 3 that failed at its call of this number, and a second one.
fn made_again(alloc: Global, passes: u64, left: Left) -> Result<bool, Fail> {
    let mut store = FuseStore::new(MemoryStore::new(alloc), passes, left);
    let first = create(alloc, &mut store, 0, 0, 3);
    let mut store = store.into_inner();
    let second = create(alloc, &mut store, 0, 0, 3);
    store.is_at_rest();
    let is_there = matches!(second, Ok(()) | Err(StoreFault::Exists));
    match open(alloc, store) {
        Ok(found) => Ok(
            is_there && first.is_err() == (passes < 7) && found.repository().youngest() == 0,
        ),
        Err(_) => Ok(false),
    }
}

#[test]
fn a_creation_that_failed_is_made_again(rt: HostRuntime) -> Result<(), Fail> {
    for passes in 0..8 {
        for left in [Left::Old, Left::New, Left::Torn] {
            assert!(rt; made_again(rt.alloc(), passes, left)?, "{passes}");
        }
    }
    Ok(())
}

/// Says whether these are the bytes of a file.
pub(crate) fn has(store: &MemoryStore, name: FileName, wanted: &[u8]) -> bool {
    store.bytes(name).is_some_and(|bytes| bytes == wanted)
}

/// Says whether a new repository of the format has these small files and this name of revision 0, and no other.
fn is_made(alloc: Global, number: u32, form: &Form, current: &[u8]) -> Result<bool, Fail>
    requires { (number ≡ 2) ⊎ (number ≡ 3) }
{
    let mut store = MemoryStore::new(alloc);
    create(alloc, &mut store, 0, 0, number)?;
    let other = match form.size {
        Some(_) => None,
        None => Some(0),
    };
    Ok(
        has(&store, FileName::Format, form.format)
            && has(&store, FileName::Current, current)
            && has(&store, revision(form, 0), EMPTY)
            && store.bytes(FileName::Revision(other, 0)).is_none(),
    )
}

#[test]
fn a_new_repository_is_of_the_format_that_is_asked_for(rt: HostRuntime) -> Result<(), Fail> {
    assert!(rt; is_made(rt.alloc(), 2, &TWO, b"0 1 1\n")?);
    assert!(rt; is_made(rt.alloc(), 3, &THREE, b"0\n")?);
    Ok(())
}

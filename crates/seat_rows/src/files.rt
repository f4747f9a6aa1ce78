//! The files of repositories, a path in them, and its lock.
use byte_string::ByteString;
use filed_repository::create;
use repo_api::LockAsk;
use std::alloc::Global;
use std::process::Abort;
use store_files::{FileName, MemoryStore, Store};
use svnpath::Path;

/// The moment of what is asked for.
pub(crate) const DATE: &[u8] = b"1970-01-01T00:00:00.000000Z";

/// Revision 1, which adds the file `/a`.
const ADDED: &[u8] =
    b"PLAIN\nhello\nENDREP\nid: 0-1.0.r1/19\ntype: file\ncount: 0\ntext: 1 0 6 6 b1946ac92492d2347c6235b4d2611184\ncpath: /a\ncopyroot: 0 /\n\nPLAIN\nK 1\na\nV 16\nfile 0-1.0.r1/19\nEND\nENDREP\nid: 0.0.r1/172\ntype: dir\npred: 0.0.r0/17\ncount: 1\ntext: 1 127 32 32 32ae639a54b2b5c7553c19ebd3ce36fc\ncpath: /\ncopyroot: 0 /\n\n0-1.0.r1/19 add true false /a\n\n\n172 297\n";

/// Makes the files of a new repository.
pub(crate) fn new_files(rt: &impl Abort, alloc: Global) -> MemoryStore {
    let mut store = MemoryStore::new(alloc);
    create(alloc, &mut store, 1, 0, 3).expect(rt, "a repository");
    store
}

/// Makes the files of a repository whose revision 1 adds `/a`.
pub(crate) fn files_with_a(rt: &impl Abort, alloc: Global) -> MemoryStore {
    let mut files = new_files(rt, alloc);
    files
        .write_new(FileName::Revision(Some(0), 1), ADDED)
        .expect(rt, "its revision");
    files
        .write_new(FileName::Properties(Some(0), 1), b"END\n")
        .expect(rt, "its properties");
    files
        .replace(FileName::Current, b"1\n")
        .expect(rt, "its number");
    files
}

/// Makes a copy of bytes.
pub(crate) fn bytes(rt: &impl Abort, alloc: Global, bytes: &[u8]) -> ByteString {
    ByteString::from_slice(alloc, bytes).expect(rt, "memory")
}

/// Makes the path `/a`.
pub(crate) fn path_a(rt: &impl Abort, alloc: Global) -> Path {
    let name = bytes(rt, alloc, b"a");
    Path::root(alloc).child(alloc, name).expect(rt, "memory")
}

/// Asks for a lock of `/a`, which steals none.
pub(crate) fn lock_ask(rt: &impl Abort, alloc: Global, user: &[u8], token: &[u8]) -> LockAsk {
    LockAsk {
        path: path_a(rt, alloc),
        user: Some(bytes(rt, alloc, user)),
        comment: None,
        steals: false,
        current: None,
        token: bytes(rt, alloc, token),
        date: bytes(rt, alloc, DATE),
    }
}

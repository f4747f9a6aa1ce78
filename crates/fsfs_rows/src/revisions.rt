use fsfs::{FilePiece, RevisionFile, read_revision};
use fsfs_nodes::{EntryKind, FileAction, FileChange};
use fsfs_text::FileFault;
use std::alloc::Global;
use std::test::Fail;

// Revision 1 of the page of formats, with Python's digest of its 30 bytes: a file `/a` of `hello`.
const FILE: &[u8] =
    b"PLAIN\nhello\nENDREP\nid: 1.0.r1/19\ntype: file\ncount: 0\ntext: 1 0 6 6 b1946ac92492d2347c6235b4d2611184\ncpath: /a\ncopyroot: 0 /\n\nPLAIN\nK 1\na\nV 14\nfile 1.0.r1/19\nEND\nENDREP\nid: 0.0.r1/168\ntype: dir\npred: 0.0.r0/17\ncount: 1\ntext: 1 125 30 30 4885e3681d4e920f6506e681bebd1ebe\ncpath: /\ncopyroot: 0 /\n\n1.0.r1/19 add true false /a\n\n\n168 293\n";

// Revisions 1 and 2 of a folder of format 3, with Python's digests: the files `/a` and `/b` of `hello`. Their node ids
// are the first ones of their revisions.
const FILE_3: &[u8] =
    b"PLAIN\nhello\nENDREP\nid: 0-1.0.r1/19\ntype: file\ncount: 0\ntext: 1 0 6 6 b1946ac92492d2347c6235b4d2611184\ncpath: /a\ncopyroot: 0 /\n\nPLAIN\nK 1\na\nV 16\nfile 0-1.0.r1/19\nEND\nENDREP\nid: 0.0.r1/172\ntype: dir\npred: 0.0.r0/17\ncount: 1\ntext: 1 127 32 32 32ae639a54b2b5c7553c19ebd3ce36fc\ncpath: /\ncopyroot: 0 /\n\n0-1.0.r1/19 add true false /a\n\n\n172 297\n";

// Revision 2 of a folder that was migrated: the node id of `/a` is still that of format 2.
const SECOND: &[u8] =
    b"PLAIN\nhello\nENDREP\nid: 0-2.0.r2/19\ntype: file\ncount: 0\ntext: 2 0 6 6 b1946ac92492d2347c6235b4d2611184\ncpath: /b\ncopyroot: 0 /\n\nPLAIN\nK 1\na\nV 14\nfile 1.0.r1/19\nK 1\nb\nV 16\nfile 0-2.0.r2/19\nEND\nENDREP\nid: 0.0.r2/198\ntype: dir\npred: 0.0.r1/168\ncount: 2\ntext: 2 127 58 58 ca763b60fec64dc26c3f9edfac7236cb\ncpath: /\ncopyroot: 0 /\n\n0-2.0.r2/19 add true false /b\n\n\n198 324\n";

// Revision 1 of a folder of Subversion 1.14.2 in format 2, an import of the same file, whose text is a delta.
const DELTA: &[u8] =
    b"DELTA\nSVN\x01\x00\x00\x06\x02\x07\x01\x86\x06hello\nENDREP\nid: 1.0.r1/31\ntype: file\ncount: 0\ntext: 1 0 18 6 b1946ac92492d2347c6235b4d2611184\ncpath: /a\ncopyroot: 0 /\n\nPLAIN\nK 1\na\nV 14\nfile 1.0.r1/31\nEND\nENDREP\nid: 0.0.r1/181\ntype: dir\npred: 0.0.r0/17\ncount: 1\ntext: 1 138 30 30 848b924252e6c3bebe3823bdd85d3bdf\ncpath: /\ncopyroot: 0 /\n\n_0.0.t0-1 add true false /a\n\n\n181 306\n";

// Its entry names offset 99, where no node revision stands, and the digest is Python's of that.
const DANGLING: &[u8] =
    b"PLAIN\nhello\nENDREP\nid: 1.0.r1/19\ntype: file\ncount: 0\ntext: 1 0 6 6 b1946ac92492d2347c6235b4d2611184\ncpath: /a\ncopyroot: 0 /\n\nPLAIN\nK 1\na\nV 14\nfile 1.0.r1/99\nEND\nENDREP\nid: 0.0.r1/168\ntype: dir\npred: 0.0.r0/17\ncount: 1\ntext: 1 125 30 30 3944a8b7a0d2215e3350c68abc32a5be\ncpath: /\ncopyroot: 0 /\n\n1.0.r1/19 add true false /a\n\n\n168 293\n";

// Revisions 0 to 3 of Debian's `svnadmin create --compatible-version 1.4`, `svn mkdir` of `/trunk` and
// `/tags`, `svn cp` of `/trunk` to `/tags/first`, and `svn rm` of `/trunk`.
const REVISIONS: [&[u8]; 4] = [
    b"PLAIN\nEND\nENDREP\nid: 0.0.r0/17\ntype: dir\ncount: 0\ntext: 0 0 4 4 2d2977d1c96f487abe4a1e202dd03b4e\ncpath: /\n\n\n17 107\n",
    b"id: 1.0.r1/0\ntype: dir\ncount: 0\ncpath: /tags\ncopyroot: 0 /\n\nid: 2.0.r1/60\ntype: dir\ncount: 0\ncpath: /trunk\ncopyroot: 0 /\n\nPLAIN\nK 4\ntags\nV 12\ndir 1.0.r1/0\nK 5\ntrunk\nV 13\ndir 2.0.r1/60\nEND\nENDREP\nid: 0.0.r1/195\ntype: dir\npred: 0.0.r0/17\ncount: 1\ntext: 1 122 60 60 19712ea9b8ed36f7d04357671c7dae47\ncpath: /\ncopyroot: 0 /\n\n_0.0.t0-1 add false false /tags\n\n_1.0.t0-1 add false false /trunk\n\n\n195 320\n",
    b"id: 2.1.r2/0\ntype: dir\npred: 2.0.r1/60\ncount: 1\ncpath: /tags/first\ncopyfrom: 1 /trunk\n\nPLAIN\nK 5\nfirst\nV 12\ndir 2.1.r2/0\nEND\nENDREP\nid: 1.0.r2/132\ntype: dir\npred: 1.0.r1/0\ncount: 1\ntext: 2 87 32 32 9c57950ca3a1da0b168109572d614afb\ncpath: /tags\ncopyroot: 0 /\n\nPLAIN\nK 4\ntags\nV 14\ndir 1.0.r2/132\nK 5\ntrunk\nV 13\ndir 2.0.r1/60\nEND\nENDREP\nid: 0.0.r2/334\ntype: dir\npred: 0.0.r1/195\ncount: 2\ntext: 2 259 62 62 622eee461c4609a1da7b78ae24fa602c\ncpath: /\ncopyroot: 0 /\n\n2._0.t1-1 add false false /tags/first\n1 /trunk\n\n334 460\n",
    b"PLAIN\nK 4\ntags\nV 14\ndir 1.0.r2/132\nEND\nENDREP\nid: 0.0.r3/46\ntype: dir\npred: 0.0.r2/334\ncount: 3\ntext: 3 0 33 33 a9001df220ea641a3f5ff93279e78c34\ncpath: /\ncopyroot: 0 /\n\n2.0.r1/60 delete false false /trunk\n\n\n46 169\n",
];

/// Makes the bytes of a file with another byte at a place.
fn changed(alloc: Global, file: &[u8], place: usize, byte: u8) -> Result<Vec<u8>, Fail> {
    let mut bytes = Vec::from_slice(alloc, file)?;
    if let Some(old) = bytes.get_mut(place) {
        *old = byte;
    }
    Ok(bytes)
}

/// Finds the node revision that was made at a path.
fn piece<'a>(file: &'a RevisionFile, path: &[u8]) -> Result<&'a FilePiece, Fail> {
    for piece in &file.pieces {
        if piece.node.path.as_slice() == path {
            return Ok(piece);
        }
    }
    Err(Fail::from("there is no such node revision"))
}

/// Says whether this is the row's node revision of the root, which is at an offset.
fn is_root(piece: &FilePiece, offset: u64) -> bool {
    piece.node.kind == EntryKind::Directory
        && piece.node.id.offset == offset
        && piece.node.count == 1
}

/// Says whether this is the row's node revision of the file.
fn is_file(piece: &FilePiece) -> bool {
    piece.node.kind == EntryKind::File
        && piece.node.id.offset == 19
        && piece.properties.is_none()
        && piece
            .text
            .as_ref()
            .is_some_and(|text| text.as_slice() == b"hello\n".as_slice())
}

/// Says whether this is the row's change.
fn is_addition(change: &FileChange) -> bool {
    change.action == FileAction::Add
        && change.text
        && !change.properties
        && change.path.as_slice() == b"/a".as_slice()
        && change.source.is_none()
}

/// Says whether this is the row, in which the root is at an offset.
fn is_row(file: &RevisionFile, offset: u64) -> Result<bool, Fail> {
    let change = file.changes.first().ok_or("there is a change")?;
    Ok(
        file.pieces.len() == 2
            && file.changes.len() == 1
            && is_root(piece(file, b"/")?, offset)
            && is_file(piece(file, b"/a")?)
            && is_addition(change),
    )
}

/// Says whether the node id of the file is counted in a revision, and by which number.
fn has_node(file: &RevisionFile, number: u128, revision: Option<u32>) -> Result<bool, Fail> {
    let id = piece(file, b"/a")?.node.id.node;
    Ok(id.number == number && id.revision == revision)
}

#[test]
fn the_row_is_read(rt: HostRuntime) -> Result<(), Fail> {
    let two = read_revision(rt.alloc(), 1, FILE)?;
    assert!(rt; is_row(&two, 168)? && has_node(&two, 1, None)?);
    let three = read_revision(rt.alloc(), 1, FILE_3)?;
    assert!(rt; is_row(&three, 172)? && has_node(&three, 0, Some(1))?);
    Ok(())
}

/// The files, with the numbers of their revisions.
const FILES: [(u32, &[u8]); 3] = [(1, FILE), (1, FILE_3), (2, SECOND)];

#[test]
fn a_beginning_is_a_fault(rt: HostRuntime) {
    for (number, file) in &FILES {
        for end in 0..file.len() {
            if let Some(front) = file.get(..end) {
                assert!(rt; read_revision(rt.alloc(), *number, front).is_err());
            }
        }
    }
}

/// Says whether a file with another byte at any place of it is a revision or faulty.
fn are_changes_judged(alloc: Global, number: u32, file: &[u8], byte: u8) -> Result<bool, Fail> {
    for place in 0..file.len() {
        let bytes = changed(alloc, file, place, byte)?;
        if let Err(fault) = read_revision(alloc, number, bytes.as_slice()) {
            if matches!(fault, FileFault::NoMemory | FileFault::WrongFormat) {
                return Ok(false);
            }
        }
    }
    Ok(true)
}

#[test]
fn a_changed_byte_is_read_or_a_fault(rt: HostRuntime) -> Result<(), Fail> {
    for (number, file) in &FILES {
        for byte in [0, 10, 255] {
            assert!(rt; are_changes_judged(rt.alloc(), *number, file, byte)?);
        }
    }
    Ok(())
}

/// Says how these bytes are refused, if they are.
fn fault_of(alloc: Global, bytes: &[u8]) -> Option<FileFault> {
    read_revision(alloc, 1, bytes).err()
}

/// Makes the bytes with a delta in the place of the text.
fn with_delta(alloc: Global) -> Result<Vec<u8>, Fail> {
    let mut delta = Vec::from_slice(alloc, b"DELTA")?;
    delta.extend_from_slice(FILE.get(5..).unwrap_or(&[]))?;
    Ok(delta)
}

/// Says how the bytes with another byte at a place are refused, if they are.
fn changed_fault(alloc: Global, place: usize, byte: u8) -> Result<Option<FileFault>, Fail> {
    let bytes = changed(alloc, FILE, place, byte)?;
    Ok(fault_of(alloc, bytes.as_slice()))
}

#[test]
fn faults_are_named(rt: HostRuntime) -> Result<(), Fail> {
    let alloc = rt.alloc();
    let found = fault_of(alloc, with_delta(alloc)?.as_slice());
    assert!(rt; matches!(found, Some(FileFault::Delta)));
    assert!(rt; matches!(fault_of(alloc, DELTA), Some(FileFault::Delta)));
    assert!(rt; matches!(changed_fault(alloc, 65, b'7')?, Some(FileFault::BadLine)));
    assert!(rt; matches!(changed_fault(alloc, 67, b'0')?, Some(FileFault::Digest)));
    assert!(rt; matches!(fault_of(alloc, DANGLING), Some(FileFault::Dangling)));
    Ok(())
}

/// Says whether a change is of the folder's: what was done, at which path, and the word in front.
fn is_change(change: &FileChange, wanted: &(FileAction, &[u8], &[u8])) -> bool {
    let (action, path, id) = wanted;
    change.action == *action
        && change.path.as_slice() == *path
        && change.id.as_slice() == *id
        && !change.text
        && !change.properties
}

/// Reads a revision of the folder, which has so many node revisions and these changes.
fn read_folder(
    alloc: Global,
    revision: u32,
    pieces: usize,
    wanted: &[(FileAction, &[u8], &[u8])],
) -> Result<RevisionFile, Fail> {
    let bytes = REVISIONS.get(revision as usize).ok_or("there is a file")?;
    let file = read_revision(alloc, revision, bytes)?;
    if file.pieces.len() != pieces || file.changes.len() != wanted.len() {
        return Err(Fail::from("it has more or fewer"));
    }
    for (change, said) in file.changes.iter().zip(wanted) {
        if !is_change(change, said) {
            return Err(Fail::from("a change is another"));
        }
    }
    Ok(file)
}

/// Says whether the first revision of the folder has its two directories.
fn has_two(file: &RevisionFile) -> Result<bool, Fail> {
    Ok(piece(file, b"/tags")?.node.id.offset == 0 && piece(file, b"/trunk")?.node.id.offset == 60)
}

/// Says whether the second revision of the folder has its copy.
fn has_copy(file: &RevisionFile) -> Result<bool, Fail> {
    let change = file.changes.first().ok_or("there is a change")?;
    let source = change.source.as_ref().ok_or("it has a source")?;
    let copy = piece(file, b"/tags/first")?;
    let from = copy.node.copyfrom.as_ref().ok_or("it is a copy")?;
    Ok(source.revision == 1 && source.path.as_slice() == b"/trunk".as_slice() && from.revision == 1)
}

#[test]
fn a_folder_of_another_server_is_read(rt: HostRuntime) -> Result<(), Fail> {
    read_folder(rt.alloc(), 0, 1, &[])?;
    let first = read_folder(
        rt.alloc(),
        1,
        3,
        &[
            (FileAction::Add, b"/tags", b"_0.0.t0-1"),
            (FileAction::Add, b"/trunk", b"_1.0.t0-1"),
        ],
    )?;
    assert!(rt; has_two(&first)?);
    let second = read_folder(
        rt.alloc(),
        2,
        3,
        &[(FileAction::Add, b"/tags/first", b"2._0.t1-1")],
    )?;
    assert!(rt; has_copy(&second)?);
    read_folder(
        rt.alloc(),
        3,
        1,
        &[(FileAction::Delete, b"/trunk", b"2.0.r1/60")],
    )?;
    Ok(())
}

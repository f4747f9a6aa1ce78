//! The files of revisions that are written, in both formats and in a folder that was migrated, byte for byte.
use crate::accepting::{
    REVISION_0, REVISION_1, begun, changed, committed, first_table, made, path, text, two_tables,
    with_file, with_table,
};
use filed_trees::{Table, tabulated};
use filed_writing::{Written, write_revision};
use fsfs_nodes::NextIds;
use noderevs::Nodes;
use pvec::PVec;
use repo_api::{Action, Change, Content, FileText};
use std::alloc::Global;
use std::test::Fail;
use svnpath::Path;

/// Revision 1 in format 3, which adds `/a`.
const ADDED_IN_3: &[u8] = b"PLAIN\nhello\nENDREP\nid: 0-1.0.r1/19\ntype: file\ncount: 0\n\
      text: 1 0 6 6 b1946ac92492d2347c6235b4d2611184\ncpath: /a\ncopyroot: 0 /\n\n\
      PLAIN\nK 1\na\nV 16\nfile 0-1.0.r1/19\nEND\nENDREP\nid: 0.0.r1/172\ntype: dir\n\
      pred: 0.0.r0/17\ncount: 1\n\
      text: 1 127 32 32 32ae639a54b2b5c7553c19ebd3ce36fc\ncpath: /\ncopyroot: 0 /\n\
      \n0-1.0.r1/19 add true false /a\n\n\n172 297\n";

/// Revision 2 after it, which adds `/b` with the same text.
const NEXT_IN_3: &[u8] = b"PLAIN\nhello\nENDREP\nid: 0-2.0.r2/19\ntype: file\ncount: 0\n\
      text: 2 0 6 6 b1946ac92492d2347c6235b4d2611184\ncpath: /b\ncopyroot: 0 /\n\n\
      PLAIN\nK 1\na\nV 16\nfile 0-1.0.r1/19\nK 1\nb\nV 16\nfile 0-2.0.r2/19\nEND\nENDREP\n\
      id: 0.0.r2/200\ntype: dir\npred: 0.0.r1/172\ncount: 2\n\
      text: 2 127 60 60 54132833a99d255c26cdf415ff312b06\ncpath: /\ncopyroot: 0 /\n\
      \n0-2.0.r2/19 add true false /b\n\n\n200 326\n";

/// The same revision in format 2.
const NEXT_IN_2: &[u8] = b"PLAIN\nhello\nENDREP\nid: 2.0.r2/19\ntype: file\ncount: 0\n\
      text: 2 0 6 6 b1946ac92492d2347c6235b4d2611184\ncpath: /b\ncopyroot: 0 /\n\n\
      PLAIN\nK 1\na\nV 14\nfile 1.0.r1/19\nK 1\nb\nV 14\nfile 2.0.r2/19\nEND\nENDREP\n\
      id: 0.0.r2/194\ntype: dir\npred: 0.0.r1/168\ncount: 2\n\
      text: 2 125 56 56 676c34410764c77d3e79d96c7bcc6f19\ncpath: /\ncopyroot: 0 /\n\
      \n2.0.r2/19 add true false /b\n\n\n194 320\n";

/// The same revision in a folder that was migrated after revision 1.
const NEXT_OF_BOTH: &[u8] = b"PLAIN\nhello\nENDREP\nid: 0-2.0.r2/19\ntype: file\ncount: 0\n\
      text: 2 0 6 6 b1946ac92492d2347c6235b4d2611184\ncpath: /b\ncopyroot: 0 /\n\n\
      PLAIN\nK 1\na\nV 14\nfile 1.0.r1/19\nK 1\nb\nV 16\nfile 0-2.0.r2/19\nEND\nENDREP\n\
      id: 0.0.r2/198\ntype: dir\npred: 0.0.r1/168\ncount: 2\n\
      text: 2 127 58 58 ca763b60fec64dc26c3f9edfac7236cb\ncpath: /\ncopyroot: 0 /\n\
      \n0-2.0.r2/19 add true false /b\n\n\n198 324\n";

/// Gives ids that come next.
fn ids(node: u128, copy: u128) -> Option<NextIds> {
    Some(NextIds { node, copy })
}

/// Writes the file of the youngest revision, which added a file.
fn added(
    alloc: Global,
    nodes: &Nodes,
    tables: &PVec<Table>,
    file: Path,
    ids: Option<NextIds>,
) -> Result<Written, Fail> {
    let change = Change {
        action: Action::Add,
        text: true,
        properties: false,
        source: None,
    };
    Ok(write_revision(alloc, nodes, tables, &[(file, change)], ids)?)
}

/// Makes the nodes of revisions 0 to 2, which added `/a` and `/b` of one text.
fn with_both(alloc: Global) -> Result<Nodes, Fail> {
    let nodes = with_file(alloc, b"hello\n")?;
    let mut tree = begun(alloc, &nodes)?;
    let file = path(alloc, "/b")?;
    made(
        tree.root
            .add(alloc, &nodes, &file, Content::File(FileText::empty())),
    )?;
    made(
        tree.root
            .set_text(alloc, &nodes, &file, text(alloc, b"hello\n")?),
    )?;
    committed(alloc, &nodes, &tree)
}

/// Makes the tables of revisions 0 and 1 in format 3.
fn tables_in_3(alloc: Global) -> Result<PVec<Table>, Fail> {
    let tables = first_table(alloc)?;
    let nodes = with_file(alloc, b"hello\n")?;
    let changes = changed(alloc, Action::Add, true, false)?;
    let table = tabulated(alloc, &nodes, &tables, changes.as_slice(), ADDED_IN_3)?;
    with_table(alloc, &tables, table)
}

/// Says whether these bytes were written, and these ids come next.
fn is_file(written: &Written, bytes: &[u8], next: Option<NextIds>) -> bool {
    written.file.as_slice() == bytes && written.ids == next
}

#[test]
fn revision_0_is_the_same_in_both_formats(rt: HostRuntime) -> Result<(), Fail> {
    let alloc = rt.alloc();
    let none = PVec::new(alloc)?;
    let written = write_revision(alloc, &Nodes::opened(alloc)?, &none, &[], ids(0, 1))?;
    assert!(rt; is_file(&written, REVISION_0, ids(1, 1)));
    Ok(())
}

#[test]
fn new_ids_are_counted_by_the_format(rt: HostRuntime) -> Result<(), Fail> {
    let alloc = rt.alloc();
    let (nodes, tables) = (with_file(alloc, b"hello\n")?, first_table(alloc)?);
    let two = added(alloc, &nodes, &tables, path(alloc, "/a")?, ids(1, 1))?;
    assert!(rt; is_file(&two, REVISION_1, ids(2, 1)));
    let three = added(alloc, &nodes, &tables, path(alloc, "/a")?, None)?;
    assert!(rt; is_file(&three, ADDED_IN_3, None));
    Ok(())
}

#[test]
fn each_revision_of_format_3_counts_from_0(rt: HostRuntime) -> Result<(), Fail> {
    let alloc = rt.alloc();
    let (nodes, tables) = (with_both(alloc)?, two_tables(alloc)?);
    let two = added(alloc, &nodes, &tables, path(alloc, "/b")?, ids(2, 1))?;
    assert!(rt; is_file(&two, NEXT_IN_2, ids(3, 1)));
    let three = added(
        alloc,
        &nodes,
        &tables_in_3(alloc)?,
        path(alloc, "/b")?,
        None,
    )?;
    assert!(rt; is_file(&three, NEXT_IN_3, None));
    Ok(())
}

#[test]
fn ids_from_before_a_migration_stay(rt: HostRuntime) -> Result<(), Fail> {
    let alloc = rt.alloc();
    let (nodes, tables) = (with_both(alloc)?, two_tables(alloc)?);
    let next = added(alloc, &nodes, &tables, path(alloc, "/b")?, None)?;
    assert!(rt; is_file(&next, NEXT_OF_BOTH, None));
    Ok(())
}

//! The revisions that the format's page has as bytes, and one more by its rules.
use byte_string::ByteString;
use filed_trees::{Table, tabulated};
use fsfs_text::FileFault;
use noderevs::{NodeId, Nodes};
use pvec::PVec;
use repo_api::{Action, Change, Content, FileText};
use std::alloc::{AllocError, Global};
use std::sync::Arc;
use std::test::Fail;
use svnpath::Path;
use txntree::{EditFault, OpenNode, TxnTree};

/// The root alone.
pub(crate) const REVISION_0: &[u8] = b"PLAIN\nEND\nENDREP\nid: 0.0.r0/17\ntype: dir\ncount: 0\n\
      text: 0 0 4 4 2d2977d1c96f487abe4a1e202dd03b4e\ncpath: /\n\n\n17 107\n";

/// A file `/a` with the text `hello` and a line feed.
pub(crate) const REVISION_1: &[u8] = b"PLAIN\nhello\nENDREP\nid: 1.0.r1/19\ntype: file\ncount: 0\n\
      text: 1 0 6 6 b1946ac92492d2347c6235b4d2611184\ncpath: /a\ncopyroot: 0 /\n\n\
      PLAIN\nK 1\na\nV 14\nfile 1.0.r1/19\nEND\nENDREP\nid: 0.0.r1/168\ntype: dir\n\
      pred: 0.0.r0/17\ncount: 1\n\
      text: 1 125 30 30 4885e3681d4e920f6506e681bebd1ebe\ncpath: /\ncopyroot: 0 /\n\
      \n1.0.r1/19 add true false /a\n\n\n168 293\n";

/// A property of `/a`, whose line of the text is kept.
const REVISION_2: &[u8] = b"PLAIN\nK 1\np\nV 1\nv\nEND\nENDREP\nid: 1.0.r2/29\ntype: file\n\
      pred: 1.0.r1/19\ncount: 1\ntext: 1 0 6 6 b1946ac92492d2347c6235b4d2611184\n\
      props: 2 0 16 16 089e7bae2b87eb0c3dabddf41f8098d2\ncpath: /a\ncopyroot: 0 /\n\
      \nPLAIN\nK 1\na\nV 14\nfile 1.0.r2/29\nEND\nENDREP\nid: 0.0.r2/244\n\
      type: dir\npred: 0.0.r1/168\ncount: 2\n\
      text: 2 201 30 30 e395070cafe7594b4b0202f4efcdee00\ncpath: /\ncopyroot: 0 /\n\
      \n1.0.r2/29 modify false true /a\n\n\n244 370\n";

/// Answers want of memory where an edit is not made.
pub(crate) fn made(edited: Result<(), EditFault>) -> Result<(), Fail> {
    match edited {
        Ok(()) => Ok(()),
        Err(_) => Err(AllocError)?,
    }
}

/// Reads a path from its text: an invalid one fails the test.
pub(crate) fn path(alloc: Global, text: &str) -> Result<Path, Fail> {
    Ok(Path::parse(alloc, text.as_bytes())?)
}

/// Makes the text of a file from a copy of the bytes.
pub(crate) fn text(alloc: Global, bytes: &[u8]) -> Result<FileText, Fail> {
    let bytes = Arc::new(alloc, Vec::from_slice(alloc, bytes)?)?;
    Ok(FileText::from_shared(bytes))
}

/// Begins a transaction over the youngest revision.
pub(crate) fn begun(alloc: Global, nodes: &Nodes) -> Result<TxnTree, Fail> {
    let Some(root) = nodes.root((nodes.count() as u64).saturating_sub(1)) else {
        return Err(AllocError)?;
    };
    match OpenNode::over(alloc, nodes, root) {
        Ok(root) => Ok(TxnTree { root }),
        Err(_) => Err(AllocError)?,
    }
}

/// Makes the transaction the next revision.
pub(crate) fn committed(alloc: Global, nodes: &Nodes, tree: &TxnTree) -> Result<Nodes, Fail> {
    let count = nodes.count();
    if count >= 262_144 {
        return Err(AllocError)?;
    }
    let block = tree.seal(alloc, nodes, count as u32)?;
    Ok(nodes.with_block(alloc, block)?)
}

/// Makes the nodes of revisions 0 and 1, where `/a` has this text.
pub(crate) fn with_file(alloc: Global, bytes: &[u8]) -> Result<Nodes, Fail> {
    let nodes = Nodes::opened(alloc)?;
    let mut tree = begun(alloc, &nodes)?;
    let file = path(alloc, "/a")?;
    made(
        tree.root
            .add(alloc, &nodes, &file, Content::File(FileText::empty())),
    )?;
    made(
        tree.root
            .set_text(alloc, &nodes, &file, text(alloc, bytes)?),
    )?;
    committed(alloc, &nodes, &tree)
}

/// Makes the nodes with one revision more, in which a property of `/a` has this value.
fn with_value(alloc: Global, nodes: &Nodes, value: &[u8]) -> Result<Nodes, Fail> {
    let mut tree = begun(alloc, nodes)?;
    let (name, value) = (
        ByteString::from_slice(alloc, b"p")?,
        ByteString::from_slice(alloc, value)?,
    );
    made(
        tree.root
            .set_property(alloc, nodes, &path(alloc, "/a")?, name, value),
    )?;
    committed(alloc, nodes, &tree)
}

/// Makes a change of `/a`.
pub(crate) fn changed(
    alloc: Global,
    action: Action,
    text: bool,
    properties: bool,
) -> Result<Vec<(Path, Change)>, Fail> {
    let change = Change {
        action,
        text,
        properties,
        source: None,
    };
    Ok(vec![in alloc; (path(alloc, "/a")?, change)]?)
}

/// Makes the tables with one more.
pub(crate) fn with_table(
    alloc: Global,
    tables: &PVec<Table>,
    table: Table,
) -> Result<PVec<Table>, Fail> {
    if tables.len() >= 262_144 {
        return Err(AllocError)?;
    }
    Ok(tables.with_one(alloc, Arc::new(alloc, table)?)?)
}

/// Makes the table of revision 0.
pub(crate) fn first_table(alloc: Global) -> Result<PVec<Table>, Fail> {
    let none = PVec::new(alloc)?;
    let table = tabulated(alloc, &Nodes::opened(alloc)?, &none, &[], REVISION_0)?;
    with_table(alloc, &none, table)
}

/// Makes the tables of revisions 0 and 1.
pub(crate) fn two_tables(alloc: Global) -> Result<PVec<Table>, Fail> {
    let tables = first_table(alloc)?;
    let nodes = with_file(alloc, b"hello\n")?;
    let changes = changed(alloc, Action::Add, true, false)?;
    let table = tabulated(alloc, &nodes, &tables, changes.as_slice(), REVISION_1)?;
    with_table(alloc, &tables, table)
}

#[test]
fn the_bytes_of_revision_0_are_those_of_a_new_repository(rt: HostRuntime) -> Result<(), Fail> {
    let tables = first_table(rt.alloc())?;
    let Some(table) = tables.get(0) else {
        return Err(AllocError)?;
    };
    assert_eq!(rt; table.placed.len(), 1);
    assert_eq!(rt; table.placed[0].offset(), 17);
    Ok(())
}

#[test]
fn the_bytes_of_revision_1_are_those_of_a_file_that_was_added(rt: HostRuntime) -> Result<(), Fail> {
    let tables = two_tables(rt.alloc())?;
    let Some(table) = tables.get(1) else {
        return Err(AllocError)?;
    };
    assert_eq!(rt; table.placed.len(), 2);
    assert_eq!(rt; table.placed[0].offset(), 19);
    assert_eq!(rt; table.placed[1].offset(), 168);
    Ok(())
}

/// Says why revision 1's file is refused, if it is, where `/a` has this text, and the revision these changes.
fn told(
    alloc: Global,
    bytes: &[u8],
    changes: &[(Path, Change)],
    file: &[u8],
) -> Result<Option<FileFault>, Fail> {
    let tables = first_table(alloc)?;
    let nodes = with_file(alloc, bytes)?;
    match tabulated(alloc, &nodes, &tables, changes, file) {
        Ok(_) => Ok(None),
        Err(fault) => Ok(Some(fault)),
    }
}

#[test]
fn another_text_or_another_change_is_no_match(rt: HostRuntime) -> Result<(), Fail> {
    let alloc = rt.alloc();
    let added = changed(alloc, Action::Add, true, false)?;
    let other = changed(alloc, Action::Add, true, true)?;
    let right = told(alloc, b"hello\n", added.as_slice(), REVISION_1)?;
    assert!(rt; right.is_none());
    let text = told(alloc, b"hellO\n", added.as_slice(), REVISION_1)?;
    assert_eq!(rt; text, Some(FileFault::BadLine));
    let flags = told(alloc, b"hello\n", other.as_slice(), REVISION_1)?;
    assert_eq!(rt; flags, Some(FileFault::BadLine));
    let none = told(alloc, b"hello\n", &[], REVISION_1)?;
    assert_eq!(rt; none, Some(FileFault::BadLine));
    let older = told(alloc, b"hello\n", added.as_slice(), REVISION_0)?;
    assert_eq!(rt; older, Some(FileFault::Dangling));
    Ok(())
}

#[test]
fn a_kept_line_is_that_of_the_predecessor(rt: HostRuntime) -> Result<(), Fail> {
    let alloc = rt.alloc();
    let tables = two_tables(alloc)?;
    let changes = changed(alloc, Action::Modify, false, true)?;
    let changes = changes.as_slice();
    let nodes = with_file(alloc, b"hello\n")?;
    let right = with_value(alloc, &nodes, b"v")?;
    let table = tabulated(alloc, &right, &tables, changes, REVISION_2)?;
    assert_eq!(rt; table.placed.len(), 2);
    assert_eq!(rt; table.placed[0].count(), 1);
    let other = with_value(alloc, &nodes, b"w")?;
    let fault = tabulated(alloc, &other, &tables, changes, REVISION_2);
    assert!(rt; matches!(fault, Err(FileFault::BadLine)));
    Ok(())
}

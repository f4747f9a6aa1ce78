//! How many nodes revisions add to those that are shared.

use byte_string::ByteString;
use noderevs::{NodeId, Nodes};
use repo_api::{Content, FileText};
use std::alloc::Global;
use std::process::Abort;
use std::sync::Arc;
use svnpath::Path;
use txntree::{OpenNode, TxnTree};

/// How many directories stand under the root, and how many files in each.
const DIRECTORIES: u32 = 10;

const FILES: u32 = 100;

/// Reads a path from its text, which begins with `/`.
fn path(rt: &impl Abort, alloc: Global, text: &str) -> Path {
    Path::parse(alloc, text.as_bytes()).expect(rt, "a path")
}

/// Makes a copy of bytes.
fn bytes(rt: &impl Abort, alloc: Global, bytes: &[u8]) -> ByteString {
    ByteString::from_slice(alloc, bytes).expect(rt, "memory")
}

/// Finds the root of the youngest revision.
fn youngest_root(rt: &impl Abort, nodes: &Nodes) -> NodeId {
    let youngest = (nodes.count() as u64).saturating_sub(1);
    nodes.root(youngest).expect(rt, "a root")
}

/// Begins a transaction over the youngest revision.
fn begun(rt: &impl Abort, alloc: Global, nodes: &Nodes) -> TxnTree {
    let root = OpenNode::over(alloc, nodes, youngest_root(rt, nodes));
    TxnTree {
        root: root.expect(rt, "a transaction"),
    }
}

/// Commits the transaction as the next revision.
fn committed(rt: &impl Abort, alloc: Global, nodes: &Nodes, tree: TxnTree) -> Nodes {
    let count = nodes.count();
    assert!(rt; count < 262_144);
    let block = tree.seal(alloc, nodes, count as u32).expect(rt, "memory");
    nodes.with_block(alloc, block).expect(rt, "memory")
}

/// Makes a file's text of a copy of these bytes.
fn text_of(rt: &impl Abort, alloc: Global, bytes: &[u8]) -> FileText {
    let bytes = Vec::from_slice(alloc, bytes).expect(rt, "memory");
    FileText::from_shared(Arc::new(alloc, bytes).expect(rt, "memory"))
}

/// Makes a revision with another text of one file.
fn with_text(rt: &impl Abort, alloc: Global, nodes: &Nodes, file: &Path, bytes: &[u8]) -> Nodes {
    let mut tree = begun(rt, alloc, nodes);
    let text = text_of(rt, alloc, bytes);
    let told = tree.root.set_text(alloc, nodes, file, text);
    assert!(rt; told.is_ok());
    committed(rt, alloc, nodes, tree)
}

/// Makes a revision with a property of a file or a directory.
fn with_value(rt: &impl Abort, alloc: Global, nodes: &Nodes, path: &Path, value: &[u8]) -> Nodes {
    let mut tree = begun(rt, alloc, nodes);
    let (name, value) = (bytes(rt, alloc, b"p"), bytes(rt, alloc, value));
    let told = tree.root.set_property(alloc, nodes, path, name, value);
    assert!(rt; told.is_ok());
    committed(rt, alloc, nodes, tree)
}

/// Adds a directory of a hundred empty files to a transaction.
fn add_directory(rt: &impl Abort, alloc: Global, nodes: &Nodes, tree: &mut TxnTree, text: &str) {
    let directory = path(rt, alloc, text);
    let told = tree.root.add(alloc, nodes, &directory, Content::Directory);
    assert!(rt; told.is_ok());
    for f in 0..FILES {
        let text = format!(in alloc; "{text}/f{f}").expect(rt, "memory");
        let file = path(rt, alloc, &text);
        let content = Content::File(FileText::empty());
        let told = tree.root.add(alloc, nodes, &file, content);
        assert!(rt; told.is_ok());
    }
}

/// Makes a revision with ten directories of a hundred files each.
fn planted(rt: &impl Abort, alloc: Global) -> Nodes {
    let nodes = Nodes::opened(alloc).expect(rt, "memory");
    let mut tree = begun(rt, alloc, &nodes);
    for d in 0..DIRECTORIES {
        let text = format!(in alloc; "/d{d}").expect(rt, "memory");
        add_directory(rt, alloc, &nodes, &mut tree, &text);
    }
    committed(rt, alloc, &nodes, tree)
}

/// Makes a revision with a copy of the root.
fn with_copy(rt: &impl Abort, alloc: Global, nodes: &Nodes) -> Nodes {
    let mut tree = begun(rt, alloc, nodes);
    let source = youngest_root(rt, nodes);
    let told = tree.root.copy(alloc, nodes, source, &path(rt, alloc, "/x"));
    assert!(rt; told.is_ok());
    committed(rt, alloc, nodes, tree)
}

/// Makes a revision with a copy of a directory in which a file has another text.
fn with_changed_copy(rt: &impl Abort, alloc: Global, nodes: &Nodes) -> Nodes {
    let mut tree = begun(rt, alloc, nodes);
    let directory = path(rt, alloc, "/d3");
    let source = nodes.find(youngest_root(rt, nodes), directory.components());
    let source = source.expect(rt, "a directory");
    let told = tree
        .root
        .copy(alloc, nodes, source, &path(rt, alloc, "/branch"));
    assert!(rt; told.is_ok());
    let (file, text) = (path(rt, alloc, "/branch/f7"), text_of(rt, alloc, b"text"));
    let told = tree.root.set_text(alloc, nodes, &file, text);
    assert!(rt; told.is_ok());
    committed(rt, alloc, nodes, tree)
}

/// Counts the nodes that the youngest revision has added.
fn added(nodes: &Nodes) -> u64 {
    let count = nodes.count();
    if count == 0 || count > 262_144 {
        return 0;
    }
    let rev = (count - 1) as u32;
    for place in 0..10_000 {
        if nodes.node(NodeId { rev, place }).is_none() {
            return place;
        }
    }
    10_000
}

#[test]
fn a_revision_adds_a_node_for_each_path_that_it_changes(rt: HostRuntime) {
    let alloc = rt.alloc();
    let nodes = planted(&rt, alloc);
    let files = added(&nodes);
    let nodes = with_text(&rt, alloc, &nodes, &path(&rt, alloc, "/d3/f7"), b"text");
    let texts = added(&nodes);
    let nodes = with_value(&rt, alloc, &nodes, &Path::root(alloc), b"v");
    let properties = added(&nodes);
    let nodes = with_changed_copy(&rt, alloc, &nodes);
    let changed_copy = added(&nodes);
    let nodes = with_copy(&rt, alloc, &nodes);
    assert!(rt; (files, texts, properties) == (1_011, 3, 1));
    assert!(rt; (changed_copy, added(&nodes)) == (3, 2));
}

//! The entries of nodes, and the ids that a file says of entries.
ghost use Rattle.std.specs.Prelude.{◌≡◌, true, All, IfOk, None, Some, Decides};
ghost use Rattle.svnpath.specs.Paths.{Component};
ghost use Rattle.noderevs.specs.Nodes.{kid_of};
ghost use Rattle.filed_trees.specs.{Pieces.entry_named, Comparing.id_at, Readable.{AreOnce, ReadsWhere}};

use byte_string::ByteString;
use fsfs_nodes::DirectoryEntry;
use fsfs_text::{FileFault, FileId};
use noderevs::{NodeId, NodeRev};
use std::alloc::{AllocError, Global};
use std::collections::BTreeMap;

/// Finds the id of an entry of a node.
fn kid(node: &NodeRev, name: &ByteString) -> Option<NodeId>
    ensures { result ≡ kid_of name.now node.now }
{
    match node.kids.get(name) {
        Some(id) => Some(*id),
        None => None,
    }
}

/// Says whether an entry is that of another node, too.
fn is_kid_of(node: &NodeRev, name: &ByteString, id: NodeId) -> bool
    ensures { Decides result (kid_of name.now node.now ≡ Some id) }
{
    kid(node, name) == Some(id)
}

/// Says whether entries are those of another node, too.
fn are_kids_of(node: &NodeRev, kids: &[&(ByteString, NodeId)]) -> bool
    ensures { Decides result (All (λ k. kid_of k.now.0 node.now ≡ Some k.now.1) kids.now) }
{
    for k in 0..kids.len() {
        if !is_kid_of(node, &kids[k].0, kids[k].1) {
            return false;
        }
    }
    true
}

/// Says whether two nodes have the same entries.
pub(crate) fn are_same_kids(
    alloc: Global,
    node: &NodeRev,
    other: &NodeRev,
) -> Result<bool, AllocError>
    ensures { IfOk result (λ same. Decides same ((name : Component)
        → kid_of name node.now ≡ kid_of name other.now)) }
{
    let kids = node.kids.unlike(alloc, &other.kids)?;
    let others = other.kids.unlike(alloc, &node.kids)?;
    Ok(are_kids_of(other, kids.as_slice()) && are_kids_of(node, others.as_slice()))
}

/// Gives the ids of entries by their names.
///
/// # Errors
///
/// `BadLine` where a name comes twice; `NoMemory`.
pub(crate) fn ids_by_name(
    alloc: Global,
    entries: &[DirectoryEntry],
) -> Result<BTreeMap<ByteString, FileId>, FileFault>
    ensures { ReadsWhere result (AreOnce entries.now) (λ ids. (name : Component)
        → id_at ids.entries name ≡ entry_named name entries.now) }
{
    let mut ids = BTreeMap::new(alloc);
    for entry in entries {
        if ids.get(&entry.name).is_some() {
            return Err(FileFault::BadLine);
        }
        ids.insert(entry.name.clone()?, entry.id)?;
    }
    Ok(ids)
}

//! The nodes of the last revision, compared with those that its file says.
ghost use Rattle.std.specs.Prelude.{◌≡◌, ◌++◌, ◌∷◌, [], true, slice_get, IfOk, Decides};
ghost use Rattle.noderevs.specs.{Held.node_at, Nodes.mark_of, declared.node_rev.NodeId.NodeId};
ghost use Rattle.filed_trees.specs.{Tables.AreTabled, Readable.Judges, Values.{IsFiledNext, WithLast}, Comparing.{AreSame, IsLast, IsSameNode}};

use crate::blocks::{ReadRevision, read_next};
use crate::changes::{are_same_changes, is_same_path};
use crate::kids::are_same_kids;
use crate::table::Table;
use block_rules::{are_same_properties, is_same_content};
use fsfs::{KnownDumps, read_revision};
use fsfs_text::FileFault;
use noderevs::{NodeId, NodeRev, Nodes};
use pvec::PVec;
use repo_api::Change;
use std::alloc::{AllocError, Global};
use svnpath::Path;

/// Says whether two nodes were made at the same path, and last changed by the same change.
fn has_same_marks(node: &NodeRev, other: &NodeRev) -> bool
    ensures { Decides result ((node.now.path ≡ other.now.path)
        × (mark_of node.now.own ≡ mark_of other.now.own)) }
{
    is_same_path(&node.path, &other.path)
        && is_same_path(&node.own.path, &other.own.path)
        && node.own.rev == other.own.rev
}

/// Says whether two nodes have the same marks, content, properties and entries.
fn is_same_node(alloc: Global, node: &NodeRev, other: &NodeRev) -> Result<bool, AllocError>
    ensures { IfOk result (λ same. Decides same (IsSameNode node.now other.now)) }
{
    if !are_same_properties(alloc, &node.properties, &other.properties)? {
        return Ok(false);
    }
    if !has_same_marks(node, other) || !is_same_content(&node.content, &other.content) {
        return Ok(false);
    }
    are_same_kids(alloc, node, other)
}

/// Says whether the nodes of a revision are these, in this order.
fn are_same_nodes(
    alloc: Global,
    nodes: &Nodes,
    rev: u32,
    block: &[NodeRev],
) -> Result<bool, AllocError>
    ensures { IfOk result (λ same. Decides same ((id : NodeId) → id.rev ≡ rev
        → AreSame (slice_get block.now id.place) (node_at nodes.now id))) }
{
    for place in 0..block.len() {
        let Some(node) = nodes.node(NodeId {
            rev,
            place: place as u64,
        }) else {
            return Ok(false);
        };
        if !is_same_node(alloc, &block[place], node)? {
            return Ok(false);
        }
    }
    let end = NodeId {
        rev,
        place: block.len() as u64,
    };
    Ok(nodes.node(end).is_none())
}

/// Says whether the last revision of nodes, whose changes are these, is what was read.
fn is_last_revision(
    alloc: Global,
    nodes: &Nodes,
    rev: u32,
    changes: &[(Path, Change)],
    read: &ReadRevision,
) -> Result<bool, AllocError>
    ensures { IfOk result (λ same. Decides same (IsLast nodes.now rev changes.now read.now)) }
{
    if !are_same_changes(read.changes.as_slice(), changes) {
        return Ok(false);
    }
    if nodes.root(rev as u64) != Some(read.block.root) {
        return Ok(false);
    }
    are_same_nodes(alloc, nodes, rev, read.block.nodes.as_slice())
}

/// Compares the youngest revision's nodes with what a file says, and answers where they stand in it.
/// The tables are those of the revisions before it, and the changes those that it is to have.
///
/// # Errors
///
/// The fault of the file, if it is no revision file of this revision; `Dangling` where an id or a
/// line names what it may not, and `BadLine` where the file says anything else than the nodes and the
/// changes have, or has the nodes in another order; `NoMemory`.
pub fn tabulated(
    alloc: Global,
    nodes: &Nodes,
    tables: &PVec<Table>,
    changes: &[(Path, Change)],
    file: &[u8],
) -> Result<Table, FileFault>
    ensures tabled { IfOk result (λ table. WithLast nodes.now tables.now changes.now
        (λ files blocks lists. AreTabled (files ++ file.now ∷ []) blocks (tables.now ++ table ∷ [])
        lists)) }
    ensures judges { WithLast nodes.now tables.now changes.now (λ files blocks lists.
        Judges result (IsFiledNext (files ++ file.now ∷ []) tables.now file.now blocks lists)) }
{
    let revision = tables.len() as u32;
    let file = read_revision(alloc, revision, file)?;
    let known = KnownDumps::new(alloc);
    let read = read_next(&known, nodes, tables, &file)?;
    match is_last_revision(alloc, nodes, revision, changes, &read) {
        Ok(true) => Ok(read.table),
        Ok(false) => {
            std::mem::drop(read);
            Err(FileFault::BadLine)
        }
        Err(_) => {
            std::mem::drop(read);
            Err(FileFault::NoMemory)
        }
    }
}

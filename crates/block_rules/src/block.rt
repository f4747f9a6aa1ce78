//! The rules of a block as a whole.
ghost use Rattle.std.specs.{Prelude.{◌≡◌, ◌<◌, true, IfOk, IsSomeAnd, Some, slice_get, Contains, Decides}, List.Sorted.IsStrictlySortedBy, Map.keys_of};
ghost use Rattle.svnpath.specs.Paths.{path_cmp};
ghost use Rattle.repo_api.specs.Histories.{Changed};
ghost use Rattle.noderevs.specs.{Held.count, declared.node_rev.NodeId.NodeId, declared.node_rev.NodeRev.NodeRev};
ghost use Rattle.block_rules.specs.{Rules.{IsMarked, IsNextRevision, IsRightRoot, beside, past_of}, Ways.IsWay};

use crate::next_block::NextBlock;
use crate::node::is_directory;
use crate::way::Way;
use noderevs::{NodeId, NodeRev};
use std::alloc::{AllocError, Global};
use std::mem::drop;
use svnpath::{DEPTH_LIMIT, Path};

/// Says whether a node is a directory at the root, beneath which no path is too deep.
fn is_right_root(node: &NodeRev) -> bool
    ensures { Decides result (IsRightRoot node.now) }
{
    node.path.is_root() && is_directory(node) && node.height as usize <= DEPTH_LIMIT
}

impl<'a> NextBlock<'a> {
    /// Says whether the root is one of the block's nodes, and may be one.
    fn has_right_root(self) -> bool
        ensures { Decides result
            ((self.entry.block.now.root.rev ≡ (past_of self.entry.nodes.now).count)
            × IsSomeAnd (slice_get self.entry.block.now.nodes.items
            self.entry.block.now.root.place) IsRightRoot) }
    {
        let root = self.block.root;
        match self.block.nodes.get(root.place as usize) {
            Some(node) => self.is_new(root) && is_right_root(node),
            None => false,
        }
    }

    /// Says whether the own last change of a node was made by this revision, if there is a node.
    fn has_own_mark(self, id: Option<NodeId>) -> bool
        ensures { Decides result ((i : NodeId) (node : NodeRev) → id ≡ Some i
            → beside (past_of self.entry.nodes.now) self.entry.block.now i ≡ Some node
            → node.own.rev ≡ (past_of self.entry.nodes.now).count) }
    {
        let Some(id) = id else {
            return true;
        };
        match self.node(id) {
            Some(node) => node.own.rev as usize == self.nodes.count(),
            None => true,
        }
    }

    /// Says whether what is at a changed path and above it is of the block, with its own mark.
    fn is_marked(self, way: &mut Way<'a>, path: &'a Path) -> Result<bool, AllocError>
        requires way { IsWay self way.now }
        ensures way { IsWay self.entry way.new }
        ensures marked { IfOk result (λ answer. Decides answer (IsMarked
            (past_of self.entry.nodes.now) self.entry.block.now path.now)) }
    {
        let id = way.find(self, path.components())?;
        Ok(way.is_new(self) && self.has_own_mark(id))
    }

    /// Says whether all changes are marked.
    fn are_marked_on(self, way: &mut Way<'a>) -> Result<bool, AllocError>
        requires way { IsWay self way.now }
        ensures { IfOk result (λ answer. Decides answer ((e : Changed)
            → Contains self.entry.changes.now e
            → IsMarked (past_of self.entry.nodes.now) self.entry.block.now e.0)) }
    {
        for change in self.changes {
            if !self.is_marked(way, &change.0)? {
                return Ok(false);
            }
        }
        Ok(true)
    }

    /// Says whether all changes are marked: each is looked for from where its path leaves the last one.
    fn are_marked(self, alloc: Global) -> Result<bool, AllocError>
        ensures { IfOk result (λ answer. Decides answer ((e : Changed)
            → Contains self.entry.changes.now e
            → IsMarked (past_of self.entry.nodes.now) self.entry.block.now e.0)) }
    {
        let mut way = Way::new(alloc);
        let answer = self.are_marked_on(&mut way);
        drop(way);
        answer
    }

    /// Says whether the block and the changes may be the next revision.
    pub fn is_next_revision(self, alloc: Global) -> Result<bool, AllocError>
        requires sorted { IsStrictlySortedBy path_cmp (keys_of self.changes.now) }
        requires room { count self.nodes.now < 262144 }
        ensures { IfOk result (λ answer. Decides answer (IsNextRevision
            (past_of self.entry.nodes.now) self.entry.block.now self.entry.changes.now)) }
    {
        if !self.are_right_nodes(alloc)? || !self.has_right_root() {
            return Ok(false);
        }
        self.are_marked(alloc)
    }
}

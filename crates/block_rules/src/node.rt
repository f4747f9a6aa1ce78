//! The rules of each node of a block.
ghost use Rattle.std.specs.{Prelude.{◌≡◌, ◌<◌, ◌≤◌, map, true, length, List, ℕ, IfOk, None, Some, slice_get, Decides}, Arc.arc_value};
ghost use Rattle.std.specs.{List.Sorted.IsStrictlySortedBy, Map.keys_of, Map.Iter.deref};
ghost use Rattle.svnpath.specs.Paths.{Component, path_cmp};
ghost use Rattle.repo_api.specs.Trees.{is_directory_content};
ghost use Rattle.noderevs.specs.{Heights.{AreNews, IsHeight}, Held.{count, node_at}, Nodes.{kid_at, kid_of}, declared.node_rev.NodeRev.NodeRev};
ghost use Rattle.block_rules.specs.{Rules.{IsRightFile, IsRightNode, KeepsOwn, beside, id_before, id_in, past_of}, Ways.IsWay};

use crate::changes::is_made;
use crate::kids::is_id;
use crate::next_block::NextBlock;
use crate::way::Way;
use byte_string::ByteString;
use noderevs::{NodeId, NodeRev};
use repo_api::{Content, TEXT_LIMIT};
use std::alloc::{AllocError, Global};
use std::mem::drop;

/// Says whether a node has no entries.
fn has_no_kids(alloc: Global, node: &NodeRev) -> Result<bool, AllocError>
    ensures { IfOk result (λ answer. Decides answer ((name : Component)
        → kid_of name node.now ≡ None)) }
{
    let names = node.kids.names(alloc)?;
    let names = names.as_slice();
    Ok(names.is_empty())
}

/// Says whether a node is a directory.
pub(crate) fn is_directory(node: &NodeRev) -> bool
    ensures { result ≡ is_directory_content (arc_value node.now.content) }
{
    matches!(&*node.content, Content::Directory)
}

/// Says whether the text of a file is not too long.
fn is_short(node: &NodeRev) -> bool
    ensures { Decides result ((text : List ℕ) → arc_value node.now.content ≡ Content.File text
        → length text ≤ TEXT_LIMIT) }
{
    match &*node.content {
        Content::Directory => true,
        Content::File(text) => text.as_slice().len() <= TEXT_LIMIT,
    }
}

/// Says whether a file has no entries, and a text that is not too long.
fn is_right_file(alloc: Global, node: &NodeRev) -> Result<bool, AllocError>
    ensures { IfOk result (λ answer. Decides answer ((text : List ℕ)
        → arc_value node.now.content ≡ Content.File text → IsRightFile node.now text)) }
{
    if is_directory(node) {
        return Ok(true);
    }
    let is_empty = has_no_kids(alloc, node)?;
    Ok(is_empty && is_short(node))
}

impl<'a> NextBlock<'a> {
    /// Says whether a node is where its path leads to.
    fn is_placed(
        self,
        way: &mut Way<'a>,
        place: usize,
        node: &'a NodeRev,
    ) -> Result<bool, AllocError>
        requires room { count self.nodes.now < 262144 }
        requires way { IsWay self way.now }
        ensures way { IsWay self.entry way.new }
        ensures placed { IfOk result (λ answer. Decides answer (id_in
            (past_of self.entry.nodes.now) self.entry.block.now node.now.path ≡ Some (record {
              rev = (past_of self.entry.nodes.now).count;
              place = place;
            }))) }
    {
        let id = NodeId {
            rev: self.nodes.count() as u32,
            place: place as u64,
        };
        let found = way.find(self, node.path.components())?;
        Ok(is_id(found, id))
    }

    /// Says whether a node has its height.
    fn has_its_height(
        self,
        alloc: Global,
        before: Option<NodeId>,
        new: &[&(ByteString, NodeId)],
        node: &NodeRev,
    ) -> Result<bool, AllocError>
        requires room { count self.nodes.now < 262144 }
        requires new { AreNews node.now.kids (kid_at (node_at self.nodes.now) before)
            (map deref new.now) }
        ensures { IfOk result (λ answer. Decides answer (IsHeight (beside
            (past_of self.entry.nodes.now) self.entry.block.now) node.now.kids node.now.height)) }
    {
        let rev = self.nodes.count() as u32;
        let block = self.block.nodes.as_slice();
        let nodes = self.nodes;
        let height = nodes.height_with(alloc, rev, block, before, new, &node.kids)?;
        Ok(height == node.height)
    }

    /// Says whether the own last change of a node was made by this revision, or else is that from
    /// before, where nothing was made.
    fn keeps_own(self, before: Option<NodeId>, node: &NodeRev) -> bool
        requires sorted { IsStrictlySortedBy path_cmp (keys_of self.changes.now) }
        requires before { before ≡ id_before (past_of self.nodes.now) node.now.path }
        ensures { Decides result (KeepsOwn (past_of self.entry.nodes.now) self.entry.changes.now
            node.now) }
    {
        let before = self.nodes.held(before);
        node.own.rev as usize == self.nodes.count()
            || is_made(self.changes, node.path.components())
            || before.is_some_and(|before| before.own.rev == node.own.rev)
    }

    /// Says whether a node of the block, at its place, keeps the rules.
    fn is_right_node(
        self,
        alloc: Global,
        way: &mut Way<'a>,
        place: usize,
        node: &'a NodeRev,
    ) -> Result<bool, AllocError>
        requires sorted { IsStrictlySortedBy path_cmp (keys_of self.changes.now) }
        requires room { count self.nodes.now < 262144 }
        requires way { IsWay self way.now }
        ensures way { IsWay self.entry way.new }
        ensures right { IfOk result (λ answer. Decides answer (IsRightNode
            (past_of self.entry.nodes.now) self.entry.block.now self.entry.changes.now place
            node.now)) }
    {
        let before = self.find_before(node.path.components());
        let new = self.nodes.news(alloc, before, &node.kids)?;
        let new = new.as_slice();
        if !self.has_its_height(alloc, before, new, node)? || !is_right_file(alloc, node)? {
            return Ok(false);
        }
        if !self.names_own(alloc, node)? || !self.are_right_kids(alloc, place, new, node)? {
            return Ok(false);
        }
        Ok(self.is_placed(way, place, node)? && self.keeps_own(before, node))
    }

    /// Says whether each node of the block keeps the rules.
    fn are_right_on(self, alloc: Global, way: &mut Way<'a>) -> Result<bool, AllocError>
        requires sorted { IsStrictlySortedBy path_cmp (keys_of self.changes.now) }
        requires room { count self.nodes.now < 262144 }
        requires way { IsWay self way.now }
        ensures { IfOk result (λ answer. Decides answer ((k : ℕ) (node : NodeRev)
            → slice_get self.entry.block.now.nodes.items k ≡ Some node
            → IsRightNode (past_of self.entry.nodes.now) self.entry.block.now
            self.entry.changes.now k node)) }
    {
        let nodes = self.block.nodes.as_slice();
        for place in 0..nodes.len() {
            if !self.is_right_node(alloc, way, place, &nodes[place])? {
                return Ok(false);
            }
        }
        Ok(true)
    }

    /// Says whether each node of the block keeps the rules: its path is followed from where it leaves that of the node in
    /// front of it.
    pub(crate) fn are_right_nodes(self, alloc: Global) -> Result<bool, AllocError>
        requires sorted { IsStrictlySortedBy path_cmp (keys_of self.changes.now) }
        requires room { count self.nodes.now < 262144 }
        ensures { IfOk result (λ answer. Decides answer ((k : ℕ) (node : NodeRev)
            → slice_get self.entry.block.now.nodes.items k ≡ Some node
            → IsRightNode (past_of self.entry.nodes.now) self.entry.block.now
            self.entry.changes.now k node)) }
    {
        let mut way = Way::new(alloc);
        let answer = self.are_right_on(alloc, &mut way);
        drop(way);
        answer
    }
}

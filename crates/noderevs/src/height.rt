//! How many names lie beneath a node.
ghost use Rattle.std.specs.{Prelude.{◌≡◌, ◌<◌, ◌≤◌, ◌⊎◌, Some, true, false, map, IfOk, IfSome, IsSomeAnd, option_copied}, Map.Iter.deref};
ghost use Rattle.svnpath.specs.Paths.{Component};
ghost use Rattle.noderevs.specs.{Beneath.IsShallow, Heights.{higher, AreNews, IsHeight, IsHeightOver}, Held.node_at, Views.shared_tree};
ghost use Rattle.noderevs.specs.{Nodes.{IsBefore, kid_at, kid_named, kid_of, with_block}, declared.node_rev.NodeId.NodeId};

use crate::node_rev::{NodeId, NodeRev};
use crate::nodes::Nodes;
use byte_string::ByteString;
use shared_map::SharedMap;
use std::alloc::{AllocError, Global};
use svnpath::Path;

impl Nodes {
    /// Computes the height of a node with these entries, which are there or in the block of a revision that is being
    /// made.
    pub fn height_over(
        &self,
        alloc: Global,
        rev: u32,
        block: &[NodeRev],
        kids: &SharedMap<NodeId>,
    ) -> Result<u32, AllocError>
        ensures { IfOk result (IsHeight (with_block (node_at self.now) rev block.now) kids.now) }
    {
        let mut height = 0;
        let entries = kids.entries(alloc)?;
        for entry in &entries {
            height = raised(height, self.node_beside(rev, block, entry.1));
        }
        Ok(height)
    }

    /// Says whether a revision is the next one.
    fn is_next(&self, rev: u32) -> bool
        ensures { result ≡ true → IsBefore (node_at self.now) rev }
    {
        rev as usize == self.count()
    }

    /// Computes the height of a node of the next revision with these entries, as `height_over` does. It looks at those that
    /// a node of an earlier revision has not, which are listed, and at others only where those do not say it.
    pub fn height_with(
        &self,
        alloc: Global,
        rev: u32,
        block: &[NodeRev],
        before: Option<NodeId>,
        new: &[&(ByteString, NodeId)],
        kids: &SharedMap<NodeId>,
    ) -> Result<u32, AllocError>
        requires { AreNews kids.now (kid_at (node_at self.now) before) (map deref new.now) }
        ensures { IfOk result (IsHeight (with_block (node_at self.now) rev block.now) kids.now) }
    {
        if self.is_next(rev) {
            if let Some(node) = self.held(before) {
                return self.height_beside(alloc, rev, block, node, new, kids);
            }
        }
        self.height_over(alloc, rev, block, kids)
    }

    /// Computes the height as `height_with` does, and finds what is new.
    pub fn height_after(
        &self,
        alloc: Global,
        rev: u32,
        block: &[NodeRev],
        before: Option<NodeId>,
        kids: &SharedMap<NodeId>,
    ) -> Result<u32, AllocError>
        ensures { IfOk result (IsHeight (with_block (node_at self.now) rev block.now) kids.now) }
    {
        let new = self.news(alloc, before, kids)?;
        self.height_with(alloc, rev, block, before, new.as_slice(), kids)
    }

    /// Computes the height beside that of a node that is there.
    fn height_beside(
        &self,
        alloc: Global,
        rev: u32,
        block: &[NodeRev],
        node: &NodeRev,
        new: &[&(ByteString, NodeId)],
        kids: &SharedMap<NodeId>,
    ) -> Result<u32, AllocError>
        requires kept { (name : Component) (kid : NodeId) → kid_of name node.now ≡ Some kid
            → with_block (node_at self.now) rev block.now kid ≡ node_at self.now kid }
        requires high { IsHeight (node_at self.now) node.now.kids node.now.height }
        requires new { AreNews kids.now (kid_named node.now.kids) (map deref new.now) }
        ensures { IfOk result (IsHeight (with_block (node_at self.now) rev block.now) kids.now) }
    {
        let height = self.greatest_over(rev, block, new);
        if height >= node.height {
            return Ok(height);
        }
        let gone = node.kids.unlike(alloc, kids)?;
        let left = self.greatest_over(rev, block, gone.as_slice());
        if left < node.height {
            return Ok(node.height);
        }
        self.height_over(alloc, rev, block, kids)
    }

    /// Computes the height over the entries that are listed.
    fn greatest_over(&self, rev: u32, block: &[NodeRev], entries: &[&(ByteString, NodeId)]) -> u32
        ensures { IsHeightOver (with_block (node_at self.now) rev block.now) (map deref entries.now)
            result }
    {
        let mut height = 0;
        for entry in entries {
            height = raised(height, self.node_beside(rev, block, entry.1));
        }
        height
    }

    /// Finds the node of an id, which is there or in the block of a revision that is being made.
    fn node_beside<'a>(&'a self, rev: u32, block: &'a [NodeRev], id: NodeId) -> Option<&'a NodeRev>
        ensures { option_copied result ≡ with_block (node_at self.now) rev block.now id }
    {
        if id.rev == rev {
            block.get(id.place as usize)
        } else {
            self.node(id)
        }
    }

    /// Says whether something exists more than so many names beneath a path of a root's tree.
    pub fn has_deeper(&self, root: Option<NodeId>, path: &Path, names: usize) -> bool
        requires { names < 4294967295 }
        ensures no { result ≡ false → IsShallow (shared_tree (node_at self.now) root) path.now names }
        ensures yes { IsShallow (shared_tree (node_at self.now) root) path.now names → result ≡ false }
    {
        match self.held(self.find_in(root, path.components())) {
            Some(node) => names < node.height as usize,
            None => false,
        }
    }
}

/// Gives the greater of a height and that over an entry.
fn raised(height: u32, kid: Option<&NodeRev>) -> u32
    ensures least { height ≤ result }
    ensures over { IfSome (option_copied kid.entry) (λ node. higher node.height ≤ result) }
    ensures reached { (result ≡ height)
        ⊎ IsSomeAnd (option_copied kid.entry) (λ node. result ≡ higher node.height) }
{
    let Some(node) = kid else {
        return height;
    };
    let over = node.height.saturating_add(1);
    if over > height { over } else { height }
}

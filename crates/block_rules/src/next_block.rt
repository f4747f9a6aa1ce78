//! A block that is to come after the revisions of nodes.
ghost use Rattle.std.specs.Prelude.{◌≡◌, ◌==◌, option_copied};
ghost use Rattle.noderevs.specs.{Held.count, Nodes.kid_at};
ghost use Rattle.block_rules.specs.Rules.{beside, id_before, is_new, past_of};

use byte_string::ByteString;
use noderevs::{Block, NodeId, NodeRev, Nodes};
use repo_api::Change;
use svnpath::Path;

/// Holds a block that is to come after the revisions of nodes, and the changes of its revision in the
/// order of their paths.
#[derive(Clone, Copy)]
pub struct NextBlock<'a> {
    pub nodes: &'a Nodes,
    pub block: &'a Block,
    pub changes: &'a [(Path, Change)],
}

impl<'a> NextBlock<'a> {
    /// Says whether a node is one of the block.
    pub(crate) fn is_new(self, id: NodeId) -> bool
        ensures { result ≡ (id.rev == count self.entry.nodes.now) }
    {
        id.rev as usize == self.nodes.count()
    }

    /// Says whether what is there, if anything, is a node of the block.
    pub(crate) fn is_new_at(self, id: Option<NodeId>) -> bool
        ensures { result ≡ is_new (past_of self.entry.nodes.now) id }
    {
        match id {
            Some(id) => self.is_new(id),
            None => true,
        }
    }

    /// Finds the node of an id, of the block or of an earlier revision.
    pub(crate) fn node(self, id: NodeId) -> Option<&'a NodeRev>
        ensures { option_copied result ≡ beside (past_of self.entry.nodes.now) self.entry.block.now id }
    {
        if self.is_new(id) {
            self.block.nodes.get(id.place as usize)
        } else {
            self.nodes.node(id)
        }
    }

    /// Finds the id of an entry of a directory, if there is one.
    pub(crate) fn kid(self, directory: Option<NodeId>, name: &ByteString) -> Option<NodeId>
        ensures { result ≡ kid_at (beside (past_of self.entry.nodes.now) self.entry.block.now)
            directory name.now }
    {
        match self.node(directory?)?.kids.get(name) {
            Some(id) => Some(*id),
            None => None,
        }
    }

    /// Finds the id that a path of the youngest revision before leads to.
    pub(crate) fn find_before(self, path: &[ByteString]) -> Option<NodeId>
        ensures { result ≡ id_before (past_of self.entry.nodes.now) path.now }
    {
        let youngest = self.nodes.count().saturating_sub(1) as u64;
        self.nodes.find_in(self.nodes.root(youngest), path)
    }
}

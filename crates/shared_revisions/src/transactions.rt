//! The trees of open transactions: how they begin, what is read and edited in them, and the same
//! over the nodes of what is held now.
ghost use Rattle.std.specs.Prelude.{◌≡◌, ◌<◌, IfOk, length, option_copied};
ghost use Rattle.repo_api.specs.{Edits.begun, Kinds.{created_of, kind_of}, States.{IsBeginning, youngest}, Trees.text_of};
ghost use Rattle.noderevs.specs.Held.{node_at, root_at, trees_of};
ghost use Rattle.txntree.specs.Whole.{IsSound, txn_tree};
ghost use Rattle.shared_revisions.specs.{Contents.{revisions_of, held_state}, Transactions.{EditsTree, IsOver, IsRightOver}};

use crate::held::Held;
use repo_api::{EditOp, FileText, NodeKind};
use std::alloc::{AllocError, Global};
use svnpath::Path;
use treemerge::moved_tree;
use txntree::TxnTree;

impl Held {
    /// Makes the tree of a transaction that begins from the youngest revision.
    pub fn begun(&self, alloc: Global) -> Result<TxnTree, AllocError>
        ensures { IfOk result (IsOver self.now (youngest (held_state self.now))
            (begun (trees_of self.now.nodes (youngest (held_state self.now))))) }
    {
        let Some(root) = self.nodes.root(self.youngest()) else {
            unreachable!();
        };
        let tree = TxnTree::at(alloc, &self.nodes, root)?;
        Ok(tree)
    }

    /// Makes the tree of a transaction, over the nodes of another that these revisions go on from, one
    /// over these nodes.
    pub fn moved(
        &self,
        alloc: Global,
        from: &Held,
        tree: &TxnTree,
        base: u64,
    ) -> Result<TxnTree, AllocError>
        requires begins { IsBeginning (revisions_of from.now) (revisions_of self.now) }
        requires within { base < length (revisions_of from.now) }
        requires sound { IsSound (node_at from.now.nodes) (root_at from.now.nodes base) tree.now }
        ensures { IfOk result (IsOver self.now base (txn_tree from.now.nodes tree.now)) }
    {
        let tree = moved_tree(alloc, tree, &from.nodes, &self.nodes, base)?;
        Ok(tree)
    }

    /// Says what is at a path of a transaction.
    pub fn kind_in(&self, tree: &TxnTree, path: &Path) -> NodeKind
        ensures { result ≡ kind_of (txn_tree self.now.nodes tree.now path.now) }
    {
        tree.kind(&self.nodes, path)
    }

    /// Gives the revision that last changed what is at a path of a transaction, at or under it: none where the
    /// transaction has.
    pub fn created_in(&self, tree: &TxnTree, path: &Path) -> Option<u64>
        ensures { result ≡ created_of (txn_tree self.now.nodes tree.now path.now) }
    {
        tree.created(&self.nodes, path)
    }

    /// Gives the text of the file at a path of a transaction.
    pub fn text_in<'a>(&'a self, tree: &'a TxnTree, path: &Path) -> Option<&'a FileText>
        ensures { option_copied result ≡ text_of (txn_tree self.now.nodes tree.now path.now) }
    {
        tree.text(&self.nodes, path)
    }

    /// Makes an edit in a transaction. Without memory nothing is changed.
    pub fn edit(&self, alloc: Global, tree: &mut TxnTree, op: &EditOp) -> Result<(), AllocError>
        requires { IsRightOver self.now tree.old op.now }
        ensures { EditsTree result self.now tree.old op.now tree.new }
    {
        tree.edit(alloc, &self.nodes, op)
    }
}

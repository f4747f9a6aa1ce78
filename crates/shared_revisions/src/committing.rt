//! The revision that a commit makes.
ghost use Rattle.std.specs.Prelude.{◌≡◌, IfOk};
ghost use Rattle.repo_api.specs.States.{TreeMap};
ghost use Rattle.noderevs.specs.Held.{node_at, root_at, trees_of};
ghost use Rattle.txntree.specs.Whole.{IsSound, txn_tree};
ghost use Rattle.treemerge.specs.Merges.{IsTold};
ghost use Rattle.shared_revisions.specs.{Committing.{commit_fault, IsConflictIn, IsMerge}, Maps.IsMapOf};

use crate::held::Held;
use std::alloc::{AllocError, Global};
use std::mem::drop;
use svnpath::Path;
use treemerge::{MergeFault, merge};
use txntree::TxnTree;

/// Why a commit was not made.
#[derive(Clone, Copy, Debug, PartialEq, Eq)]
pub enum CommitFault {
    /// Others have changed what the transaction changed.
    Conflict,
    NoMemory,
}

impl From<AllocError> for CommitFault {
    ghost use Rattle.std.specs.Prelude.{◌≡◌};
    ghost use Rattle.shared_revisions.specs.declared.committing.CommitFault.TheVariants.{NoMemory};

    ghost from_gives = { λ _ fault. fault ≡ NoMemory };

    fn from(_error: AllocError) -> Self {
        CommitFault::NoMemory
    }
}

impl Held {
    /// Makes the tree of a transaction that began from this base, merged with the youngest revision.
    pub fn merged(&self, alloc: Global, base: u64, tree: TxnTree) -> Result<TxnTree, CommitFault>
        requires told { IsTold (trees_of self.now.nodes base) (txn_tree self.now.nodes tree) }
        requires standing { IsSound (node_at self.now.nodes) (root_at self.now.nodes base) tree }
        ensures { (m : TreeMap) → IsMapOf (txn_tree self.now.nodes tree) m
            → IsMerge result self.now base m }
    {
        match merge(alloc, &self.nodes, base, tree, self.youngest()) {
            Ok(merged) => Ok(merged),
            Err(fault) => Err(fault_of(fault)),
        }
    }

    /// Finds a path at which others have changed what a transaction that began from this base has changed, if there is
    /// one.
    pub fn conflict(
        &self,
        alloc: Global,
        base: u64,
        tree: TxnTree,
    ) -> Result<Option<Path>, AllocError>
        requires told { IsTold (trees_of self.now.nodes base) (txn_tree self.now.nodes tree) }
        requires standing { IsSound (node_at self.now.nodes) (root_at self.now.nodes base) tree }
        ensures { (m : TreeMap) → IsMapOf (txn_tree self.now.nodes tree) m
            → IfOk result (IsConflictIn self.now base m) }
    {
        let youngest = self.youngest();
        match merge(alloc, &self.nodes, base, tree, youngest) {
            Ok(merged) => {
                drop(merged);
                Ok(None)
            }
            Err(MergeFault::Conflict(path)) => Ok(Some(path)),
            Err(MergeFault::NoMemory) => Err(AllocError),
        }
    }
}

/// Gives the fault of a merge as that of a commit.
fn fault_of(fault: MergeFault) -> CommitFault
    ensures { result ≡ commit_fault fault }
{
    match fault {
        MergeFault::Conflict(_) => CommitFault::Conflict,
        MergeFault::NoMemory => CommitFault::NoMemory,
    }
}

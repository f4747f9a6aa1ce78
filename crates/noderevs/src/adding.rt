//! A further revision.
ghost use Rattle.std.specs.Prelude.{◌≡◌, ◌<◌, ◌++◌, ◌∷◌, [], ℕ, IfOk, Some};
ghost use Rattle.svnpath.specs.Paths.{PathValue};
ghost use Rattle.noderevs.specs.{Held.{blocks_of, node_at, count, trees_of}, Nodes.with_block, Soundness.IsNext, Views.shared_tree};
ghost use Rattle.noderevs.specs.declared.node_rev.NodeId.{NodeId};

use crate::node_rev::Block;
use crate::nodes::Nodes;
use pvec::PVec;
use std::alloc::{AllocError, Global};
use std::sync::Arc;

impl Nodes {
    /// Makes the nodes of no revisions.
    pub fn new(alloc: Global) -> Result<Self, AllocError>
        ensures { IfOk result (λ nodes. blocks_of nodes ≡ []) }
    {
        let blocks = PVec::new(alloc)?;
        Ok(Nodes { blocks })
    }

    /// Shares the same nodes. No memory is asked for.
    pub fn share(&self) -> Result<Self, AllocError>
        ensures { IfOk result (λ nodes. blocks_of nodes ≡ blocks_of self.now) }
    {
        let blocks = self.blocks.share()?;
        Ok(Nodes { blocks })
    }

    /// Makes these nodes with those of a further revision.
    pub fn with_block(&self, alloc: Global, block: Block) -> Result<Self, AllocError>
        requires next { IsNext (node_at self.now) (count self.now) block }
        requires room { count self.now < 262144 }
        ensures blocks { IfOk result (λ nodes. blocks_of nodes ≡ blocks_of self.now ++ block ∷ []) }
        ensures nodes { IfOk result (λ nodes. (id : NodeId) → node_at nodes id
            ≡ with_block (node_at self.now) (count self.now) block.nodes.items id) }
        ensures tree { IfOk result (λ nodes. (q : PathValue) → trees_of nodes (count self.now) q
            ≡ shared_tree (with_block (node_at self.now) (count self.now) block.nodes.items) (Some block.root) q) }
        ensures stays { IfOk result (λ nodes. (k : ℕ) → k < count self.now → (q : PathValue)
            → trees_of nodes k q ≡ trees_of self.now k q) }
    {
        let more = Arc::new(alloc, block)?;
        let blocks = self.blocks.with_one(alloc, more)?;
        Ok(Nodes { blocks })
    }
}

//! The nodes of a new repository.
ghost use Rattle.std.specs.Prelude.{◌≡◌, IfOk};
ghost use Rattle.svnpath.specs.Paths.{PathValue};
ghost use Rattle.repo_api.specs.{Opening.opening_tree, States.tree_of};
ghost use Rattle.noderevs.specs.{Held.{blocks_of, count, trees_of}, OpeningBlocks.{AreOpening, IsOpeningBlock, IsOpeningNode}};

use crate::node_rev::{Block, Made, NodeId, NodeRev};
use crate::nodes::Nodes;
use repo_api::{Content, Properties};
use shared_map::SharedMap;
use std::alloc::{AllocError, Global};
use std::sync::Arc;
use svnpath::Path;

impl Nodes {
    /// Makes the nodes of a new repository: revision 0, whose root is a directory without entries.
    pub fn opened(alloc: Global) -> Result<Self, AllocError>
        ensures count { IfOk result (λ nodes. count nodes ≡ 1) }
        ensures tree { IfOk result (λ nodes. (q : PathValue) → trees_of nodes 0 q
            ≡ tree_of opening_tree q) }
        ensures blocks { IfOk result (λ nodes. AreOpening (blocks_of nodes)) }
    {
        let block = opening_block(alloc)?;
        let nodes = Nodes::new(alloc)?;
        nodes.with_block(alloc, block)
    }
}

/// Makes the block of revision 0.
fn opening_block(alloc: Global) -> Result<Block, AllocError>
    ensures { IfOk result IsOpeningBlock }
{
    let mut nodes = Vec::new(alloc);
    nodes.push(opening_node(alloc)?)?;
    Ok(Block {
        nodes,
        root: NodeId { rev: 0, place: 0 },
    })
}

/// Makes the root of revision 0.
fn opening_node(alloc: Global) -> Result<NodeRev, AllocError>
    ensures { IfOk result IsOpeningNode }
{
    let content = Arc::new(alloc, Content::Directory)?;
    let properties = Arc::new(alloc, Properties::new(alloc))?;
    Ok(NodeRev {
        path: Path::root(alloc),
        own: Made {
            rev: 0,
            path: Path::root(alloc),
        },
        content,
        properties,
        kids: SharedMap::new(alloc),
        height: 0,
    })
}

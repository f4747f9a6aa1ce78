//! A transaction's nodes as those of a revision.
ghost use Rattle.std.specs.Prelude.{◌≡◌, ◌++◌, ◌∷◌, [], length, Some, IfOk, OnOk, OnErr};
ghost use Rattle.repo_api.specs.Merge.{closed};
ghost use Rattle.noderevs.specs.{Held.node_at, Nodes.{IsBefore, IsClosed, IsThere, mark_of, with_block}};
ghost use Rattle.txntree.specs.{Sealing.{BlockGrows, HasEntry, IsSealedAs, IsSealOf}, Spots.{change_spot, open_tree}, Spots.Spot.Opened};

use crate::open::{Change, OpenNode};
use byte_string::ByteString;
use noderevs::{Block, Made, NodeId, NodeRev, Nodes};
use repo_api::Mark;
use shared_map::SharedMap;
use std::alloc::{AllocError, Global};
use std::sync::Arc;
use svnpath::Path;

impl OpenNode {
    /// Gives the transaction's tree as the nodes of the revision: one for each path that it changed, and no other.
    pub fn block(&self, alloc: Global, nodes: &Nodes, rev: u32) -> Result<Block, AllocError>
        ensures ok { IsClosed (node_at nodes.now) → IsBefore (node_at nodes.now) rev
            → IfOk result (IsSealOf (node_at nodes.now) rev (open_tree nodes.now self.now)) }
        ensures there { IfOk result (λ b. IsThere
            (with_block (node_at nodes.now) rev b.nodes.items) b.root) }
    {
        let mut block = Vec::new(alloc);
        let root = self.sealed(alloc, nodes, rev, Path::root(alloc), &mut block)?;
        block.shrink_to_fit();
        Ok(Block { nodes: block, root })
    }

    /// Puts this node and those under it into the block of the revision, each behind its entries.
    #[cycle(seal)]
    pub fn sealed(
        &self,
        alloc: Global,
        nodes: &Nodes,
        rev: u32,
        path: Path,
        block: &mut Vec<NodeRev>,
    ) -> Result<NodeId, AllocError>
        ensures grown { BlockGrows (node_at nodes.now) rev block.old.items block.new.items }
        ensures ok { IfOk result (λ id. IsSealedAs (node_at nodes.now) rev path
            block.old.items block.new.items (Opened self.now) (Some id)) }
    {
        let mut kids = nodes.kids(alloc, self.base)?;
        for (name, change) in &self.changed {
            let below = entry_path(alloc, nodes, &path, name, change)?;
            let id = change.sealed(alloc, nodes, rev, below, block)?;
            set_entry(&mut kids, alloc, name, id)?;
        }
        let height = nodes.height_over(alloc, rev, block, &kids)?;
        let own = closed(rev, &path, &self.own)?;
        let content = Arc::try_clone(&self.content)?;
        let properties = Arc::try_clone(&self.properties)?;
        append(
            block,
            rev,
            NodeRev {
                path,
                own,
                content,
                properties,
                kids,
                height,
            },
        )
    }
}

impl Change {
    /// Gives the node that an entry is made from, if there is one.
    fn base(&self) -> Option<NodeId> {
        match self {
            Change::Gone => None,
            Change::Is(node) => node.base,
        }
    }

    /// Puts the node of an entry, and those under it, into the block; an entry that is gone has none.
    #[cycle(seal)]
    fn sealed(
        &self,
        alloc: Global,
        nodes: &Nodes,
        rev: u32,
        path: Path,
        block: &mut Vec<NodeRev>,
    ) -> Result<Option<NodeId>, AllocError>
        ensures grown { BlockGrows (node_at nodes.now) rev block.old.items block.new.items }
        ensures ok { IfOk result (IsSealedAs (node_at nodes.now) rev path
            block.old.items block.new.items (change_spot self.now)) }
    {
        match self {
            Change::Gone => Ok(None),
            Change::Is(node) => {
                let id = node.sealed(alloc, nodes, rev, path, block)?;
                Ok(Some(id))
            }
        }
    }
}

/// Makes the path of an entry, and shares that of the node which it is made from if it is the same.
fn entry_path(
    alloc: Global,
    nodes: &Nodes,
    directory: &Path,
    name: &ByteString,
    change: &Change,
) -> Result<Path, AllocError>
    ensures { IfOk result (λ path. path ≡ directory.now ++ name.now ∷ []) }
{
    let path = directory.child(alloc, name.clone()?)?;
    match nodes.held(change.base()) {
        Some(node) => path.like(&node.path),
        None => Ok(path),
    }
}

/// Puts a node among the entries at its name, or takes the name out where there is none.
fn set_entry(
    kids: &mut SharedMap<NodeId>,
    alloc: Global,
    name: &ByteString,
    id: Option<NodeId>,
) -> Result<(), AllocError>
    ensures { OnOk result (HasEntry name.now id kids.old kids.new) }
{
    match id {
        Some(id) => kids.put(alloc, name.clone()?, id),
        None => kids.remove(name),
    }
}

/// Gives the mark of the revision at the path in an open mark's place.
fn closed(rev: u32, path: &Path, mark: &Mark) -> Result<Made, AllocError>
    ensures { IfOk result (λ m. mark_of m ≡ closed rev path.now mark.now) }
{
    match mark {
        Mark::Open => Ok(Made {
            rev,
            path: path.clone()?,
        }),
        Mark::Made(rev, path) => Ok(Made {
            rev: *rev,
            path: path.clone()?,
        }),
    }
}

/// Puts a node behind the others of its block.
fn append(block: &mut Vec<NodeRev>, rev: u32, node: NodeRev) -> Result<NodeId, AllocError>
    ensures id { IfOk result (λ id. (id.rev ≡ rev) × (id.place ≡ length block.old.items)) }
    ensures ok { OnOk result (block.new.items ≡ block.old.items ++ node ∷ []) }
    ensures err { OnErr result (block.new.items ≡ block.old.items) }
{
    let place = block.len() as u64;
    block.push(node)?;
    Ok(NodeId { rev, place })
}

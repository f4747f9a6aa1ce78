//! The same changes over other nodes. Ids of one repository say nothing in another, though its trees are the
//! same: a node is found again by its mark, which is its revision and its path.
ghost use Rattle.std.specs.Prelude.{◌≡◌, IfOk};
ghost use Rattle.svnpath.specs.Paths.{PathValue};
ghost use Rattle.noderevs.specs.Held.{node_at, root_at, trees_of};
ghost use Rattle.txntree.specs.{Bases.IsBased, Spots.change_spot, Spots.Spot.Opened, Whole.{IsSound, txn_tree}};
ghost use Rattle.treemerge.specs.Moves.{HaveTwins, twin, IsTwin, IsMoved, IsMadeOf};

use noderevs::{NodeId, Nodes};
use std::alloc::{AllocError, Global};
use std::collections::BTreeMap;
use std::sync::Arc;
use txntree::{Change, OpenNode, TxnTree, put_change};

/// Makes the tree of a transaction that began from this revision one over other nodes.
pub fn moved_tree(
    alloc: Global,
    txn: &TxnTree,
    from: &Nodes,
    to: &Nodes,
    base: u64,
) -> Result<TxnTree, AllocError>
    requires twins { HaveTwins from.now to.now }
    requires same { (q : PathValue) → trees_of to.now base q ≡ trees_of from.now base q }
    requires sound { IsSound (node_at from.now) (root_at from.now base) txn.now }
    ensures tree { IfOk result (λ t. (q : PathValue)
        → txn_tree to.now t q ≡ txn_tree from.now txn.now q) }
    ensures sound { IfOk result (IsSound (node_at to.now) (root_at to.now base)) }
{
    let root = moved(&txn.root, to.root(base), alloc, from, to)?;
    Ok(TxnTree { root })
}

/// Makes a node and those under it ones over other nodes, and over this base among them.
#[cycle(moved)]
fn moved(
    node: &OpenNode,
    base: Option<NodeId>,
    alloc: Global,
    from: &Nodes,
    to: &Nodes,
) -> Result<OpenNode, AllocError>
    ensures own { IfOk result (λ n. n.own ≡ node.now.own) }
    ensures base { IfOk result (λ n. n.base ≡ base) }
    ensures moved { HaveTwins from.now to.now → IsBased (node_at from.now) (Opened node.now)
        → IsTwin from.now to.now node.now.base base
        → IfOk result (λ n. IsMoved from.now to.now (Opened node.now) (Opened n)) }
{
    let mut changed = BTreeMap::new(alloc);
    for (name, change) in &node.changed {
        put_change(
            &mut changed,
            name.clone()?,
            moved_change(change, alloc, from, to)?,
        )?;
    }
    Ok(OpenNode {
        own: node.own.clone()?,
        content: Arc::try_clone(&node.content)?,
        properties: Arc::try_clone(&node.properties)?,
        base,
        changed,
    })
}

/// Makes what became of an entry the same over other nodes.
#[cycle(moved)]
fn moved_change(
    change: &Change,
    alloc: Global,
    from: &Nodes,
    to: &Nodes,
) -> Result<Change, AllocError>
    ensures made { IfOk result (λ c.
        IsMadeOf from.now to.now (change_spot change.now) (change_spot c)) }
    ensures moved { HaveTwins from.now to.now → IsBased (node_at from.now) (change_spot change.now)
        → IfOk result (λ c. IsMoved from.now to.now (change_spot change.now) (change_spot c)) }
{
    match change {
        Change::Gone => Ok(Change::Gone),
        Change::Is(node) => {
            let copy = moved(node, twin(node.base, from, to), alloc, from, to)?;
            Ok(Change::Is(copy))
        }
    }
}

/// Finds what exists in the other repository where this node exists in its own revision.
fn twin(base: Option<NodeId>, from: &Nodes, to: &Nodes) -> Option<NodeId>
    ensures { result ≡ twin from.now to.now base }
{
    let id = base?;
    let node = from.node(id)?;
    to.find_in(to.root(id.rev as u64), node.path.components())
}

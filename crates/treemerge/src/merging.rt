//! A transaction's changes over a younger tree.
ghost use Rattle.std.specs.Prelude.{◌≡◌, IfOk, IfSome, IsTrue, [], None, true, false, option_copied, option_map, ℕ};
ghost use Rattle.svnpath.specs.Paths.{PathValue};
ghost use Rattle.repo_api.specs.{Merge.{HasNoConflict, is_in_conflict, merged, sealed}, Trees.{is_directory_content, same_mark}};
ghost use Rattle.noderevs.specs.{Held.{node_at, root_at, trees_of}, Nodes.mark_of};
ghost use Rattle.txntree.specs.{Spots.{change_spot, flat, over, shared_spot}, Spots.Spot.Opened, Whole.{IsSound, txn_tree}};
ghost use Rattle.treemerge.specs.Merges.{IsTold, spot_tree, IsMergeOf, IsMergeable, IsConflictUnder, IfConflict, IsKept, is_one};

use noderevs::{Made, NodeId, NodeRev, Nodes};
use repo_api::{Content, Mark};
use std::alloc::{AllocError, Global};
use std::collections::BTreeMap;
use std::mem::drop;
use std::sync::Arc;
use svnpath::Path;
use txntree::{Change, OpenNode, TxnTree, put_change};

/// Why a merge was not made.
#[derive(Debug, Drop)]
pub enum MergeFault {
    /// Both sides changed what stands at this path.
    Conflict(Path),
    NoMemory,
}

/// What stands at a path, if anything does: in the revision from which a transaction began, and in the
/// youngest one.
#[derive(Clone, Copy)]
pub(crate) struct Places {
    pub(crate) base: Option<NodeId>,
    pub(crate) young: Option<NodeId>,
}

impl From<AllocError> for MergeFault {
    ghost use Rattle.std.specs.Prelude.{◌≡◌};
    ghost use Rattle.treemerge.specs.declared.merging.MergeFault.TheVariants.{NoMemory};

    ghost from_gives = { λ _ fault. fault ≡ NoMemory };

    fn from(_error: AllocError) -> Self {
        MergeFault::NoMemory
    }
}

/// Merges the changes of a transaction, which began from a revision, with the youngest revision. Whether nodes are the
/// same is told by their ids, and what is the same is passed over: what the transaction has there stays as it is.
pub fn merge(
    alloc: Global,
    nodes: &Nodes,
    base: u64,
    txn: TxnTree,
    youngest: u64,
) -> Result<TxnTree, MergeFault>
    requires told { IsTold (trees_of nodes.now base) (txn_tree nodes.now txn) }
    requires sound { IsSound (node_at nodes.now) (root_at nodes.now base) txn }
    ensures merged { IfOk result (λ t. (n : ℕ) (q : PathValue)
        → option_map (sealed n q) (txn_tree nodes.now t q)
        ≡ merged n (trees_of nodes.now base) (txn_tree nodes.now txn) (trees_of nodes.now youngest) q) }
    ensures clean { IfOk result (λ t. HasNoConflict (trees_of nodes.now base)
        (txn_tree nodes.now txn) (trees_of nodes.now youngest)) }
    ensures conflict { IfConflict result (λ p. is_in_conflict (trees_of nodes.now base p)
        (txn_tree nodes.now txn p) (trees_of nodes.now youngest p) ≡ true) }
{
    let places = Places {
        base: nodes.root(base),
        young: nodes.root(youngest),
    };
    let root = merged(txn.into_root(), alloc, nodes, places, &Path::root(alloc))?;
    Ok(TxnTree { root })
}

/// Makes what a transaction changed at a node into changes over the node that is at this path now. `base` is what was
/// there when the transaction began.
#[cycle(merge)]
pub(crate) fn merged(
    node: OpenNode,
    alloc: Global,
    nodes: &Nodes,
    places: Places,
    path: &Path,
) -> Result<OpenNode, MergeFault>
    ensures ok { IsTold (spot_tree (node_at nodes.now) places.base)
        (flat (node_at nodes.now) (Opened node))
        → IfOk result (λ n. IsMergeOf (node_at nodes.now) (Opened n)
        (spot_tree (node_at nodes.now) places.base)
        (flat (node_at nodes.now) (Opened node))
        (spot_tree (node_at nodes.now) places.young)) }
    ensures conflict { IsMergeable (node_at nodes.now) places (Opened node)
        → IfConflict result (IsConflictUnder path.now
        (spot_tree (node_at nodes.now) places.base)
        (flat (node_at nodes.now) (Opened node))
        (spot_tree (node_at nodes.now) places.young)) }
{
    if is_same(places.base, places.young) {
        return Ok(node);
    }
    let Some(theirs) = younger(&node, nodes, places) else {
        drop(node);
        return Err(MergeFault::Conflict(path.clone()?));
    };
    let mut changed = BTreeMap::new(alloc);
    for (name, change) in node.changed {
        let below = path.child(alloc, name.clone()?)?;
        let was = nodes.kid(places.base, &name);
        let now = nodes.kid(places.young, &name);
        let kids = Places {
            base: was,
            young: now,
        };
        if let Some(kept) = merged_change(change, alloc, nodes, kids, &below)? {
            put_change(&mut changed, name, kept)?;
        }
    }
    Ok(OpenNode {
        own: Mark::Made(theirs.own.rev, theirs.own.path.clone()?),
        content: Arc::try_clone(&theirs.content)?,
        properties: Arc::try_clone(&theirs.properties)?,
        base: places.young,
        changed,
    })
}

/// Gives the younger node, where the transaction has changed a directory only beneath, and it has stayed the same
/// itself.
fn younger<'a>(node: &OpenNode, nodes: &'a Nodes, places: Places) -> Option<&'a NodeRev>
    ensures kept { IfSome (option_copied result) (IsKept (node_at nodes.now) node.now places) }
    ensures refused { option_copied result ≡ None
        → IsMergeable (node_at nodes.now) places (Opened node.now)
        → (places.base ≡ places.young → ⊥)
        → is_in_conflict
        (spot_tree (node_at nodes.now) places.base [])
        (flat (node_at nodes.now) (Opened node.now) [])
        (spot_tree (node_at nodes.now) places.young []) ≡ true }
{
    let was = nodes.held(places.base)?;
    let theirs = nodes.held(places.young)?;
    if !is_same(node.base, places.base) {
        return None;
    }
    if !is_one(node, was, theirs) {
        return None;
    }
    Some(theirs)
}

/// Makes what a transaction changed at an entry into a change over the entry that is at this path now.
#[cycle(merge)]
fn merged_change(
    change: Change,
    alloc: Global,
    nodes: &Nodes,
    places: Places,
    path: &Path,
) -> Result<Option<Change>, MergeFault>
    ensures ok { IsTold (spot_tree (node_at nodes.now) places.base)
        (flat (node_at nodes.now) (change_spot change))
        → IfOk result (λ kept. IsMergeOf (node_at nodes.now) (over kept (shared_spot places.young))
        (spot_tree (node_at nodes.now) places.base)
        (flat (node_at nodes.now) (change_spot change))
        (spot_tree (node_at nodes.now) places.young)) }
    ensures conflict { IsMergeable (node_at nodes.now) places (change_spot change)
        → IfConflict result (IsConflictUnder path.now
        (spot_tree (node_at nodes.now) places.base)
        (flat (node_at nodes.now) (change_spot change))
        (spot_tree (node_at nodes.now) places.young)) }
{
    match change {
        Change::Gone => {
            if is_same(places.base, places.young) {
                return Ok(Some(Change::Gone));
            }
            if places.base.is_none() {
                return Ok(None);
            }
            Err(MergeFault::Conflict(path.clone()?))
        }
        Change::Is(node) => {
            let merged = merged(node, alloc, nodes, places, path)?;
            Ok(Some(Change::Is(merged)))
        }
    }
}

/// Says whether a transaction's node, the old and the younger one are one directory.
fn is_one(node: &OpenNode, was: &NodeRev, theirs: &NodeRev) -> bool
    ensures { result ≡ is_one node.now was.now theirs.now }
{
    (is_directory(&was.content) && is_directory(&node.content) && is_directory(&theirs.content))
        && (is_own(&was.own, &node.own) && same_own(&was.own, &theirs.own))
}

/// Says whether the content is a directory's, and not a file's.
fn is_directory(content: &Content) -> bool
    ensures { result ≡ is_directory_content content.now }
{
    matches!(content, Content::Directory)
}

/// Says whether both are the same node, or both none.
fn is_same(one: Option<NodeId>, other: Option<NodeId>) -> bool
    ensures same { IsTrue result → one ≡ other }
    ensures apart { result ≡ false → one ≡ other → ⊥ }
{
    match (one, other) {
        (None, None) => true,
        (Some(one), Some(other)) => one.rev == other.rev && one.place == other.place,
        _ => false,
    }
}

/// Says whether two changes were made in the same revision at the same path.
fn same_own(one: &Made, other: &Made) -> bool
    ensures { result ≡ same_mark (mark_of one.now) (mark_of other.now) }
{
    one.rev == other.rev && one.path == other.path
}

/// Says whether a mark names this revision and this path. One that is open never does.
fn is_own(one: &Made, mark: &Mark) -> bool
    ensures { result ≡ same_mark (mark_of one.now) mark.now }
{
    match mark {
        Mark::Open => false,
        Mark::Made(rev, path) => one.rev == *rev && one.path == *path,
    }
}

//! Edits of a transaction.
ghost use Rattle.std.specs.Prelude.{◌≡◌};
ghost use Rattle.shared_revisions.specs.{Contents.revisions_of, Transactions.{EditsTree, IsRightOver}};
ghost use Rattle.repo_api.specs.States.{EditsTxn, Notes};
ghost use Rattle.world.specs.{Editing.{AreAlikeFor, IsRightFor, RestsOn, is_copy}, Whole.txn_state_of};

use crate::world_txn::WorldTxn;
use repo_api::EditOp;
use revision_data::TxnChanges;
use shared_revisions::Held;
use std::alloc::{AllocError, Global};
use std::sync::Arc;
use txntree::TxnTree;

/// Says whether an edit takes what a revision has, and not only what its transaction has.
fn is_copy(op: &EditOp) -> bool
    ensures { result ≡ is_copy op.now }
{
    matches!(op, EditOp::Copy(_, _) | EditOp::Replace(_, _))
}

/// Makes the edit in the transaction, over revisions that go on from those that it was last shown. A tree that is changed is moved
/// to the nodes of further revisions where it needs them, for a copy, and not at each edit after somebody else's commit.
pub(crate) fn edit_txn(
    alloc: Global,
    held: &Arc<Held>,
    txn: &mut WorldTxn,
    op: &EditOp,
) -> Result<(), AllocError>
    requires rests { RestsOn txn.old held.now.value }
    requires right { IsRightFor held.now.value txn.old op.now }
    ensures { EditsTxn result (revisions_of held.now.value) (txn_state_of txn.old) op.now
        (txn_state_of txn.new) }
{
    if !is_copy(op) || txn.over.count() == held.count() {
        return edit_here(alloc, held, txn, op);
    }
    edit_there(alloc, held, txn, op)
}

/// Makes the edit over the nodes where the tree stands, which show for it what is held now.
fn edit_here(
    alloc: Global,
    held: &Arc<Held>,
    txn: &mut WorldTxn,
    op: &EditOp,
) -> Result<(), AllocError>
    requires rests { RestsOn txn.old held.now.value }
    requires right { IsRightFor held.now.value txn.old op.now }
    requires alike { AreAlikeFor op.now txn.old.over.value held.now.value }
    ensures { EditsTxn result (revisions_of held.now.value) (txn_state_of txn.old) op.now
        (txn_state_of txn.new) }
{
    let shown = Arc::try_clone(held)?;
    edit_parts(alloc, &txn.over, &mut txn.tree, &mut txn.changes, op)?;
    txn.shown = shown;
    Ok(())
}

/// Makes the edit over what is held, which has further revisions: the tree is moved to its nodes, and the
/// transaction takes it over once it is edited.
fn edit_there(
    alloc: Global,
    held: &Arc<Held>,
    txn: &mut WorldTxn,
    op: &EditOp,
) -> Result<(), AllocError>
    requires rests { RestsOn txn.old held.now.value }
    requires right { IsRightFor held.now.value txn.old op.now }
    ensures { EditsTxn result (revisions_of held.now.value) (txn_state_of txn.old) op.now
        (txn_state_of txn.new) }
{
    let shown = Arc::try_clone(held)?;
    let over = Arc::try_clone(held)?;
    let mut tree = held.moved(alloc, &txn.over, &txn.tree, txn.base)?;
    edit_parts(alloc, held, &mut tree, &mut txn.changes, op)?;
    txn.shown = shown;
    txn.over = over;
    txn.tree = tree;
    Ok(())
}

/// Makes the edit in the tree and the changes of a transaction. The changes take their memory first, so
/// that they can be left as they were where the tree lacks it.
fn edit_parts(
    alloc: Global,
    held: &Held,
    tree: &mut TxnTree,
    changes: &mut TxnChanges,
    op: &EditOp,
) -> Result<(), AllocError>
    requires { IsRightOver held.now tree.old op.now }
    ensures tree { EditsTree result held.now tree.old op.now tree.new }
    ensures changes { Notes result changes.old op.now changes.new }
{
    let note = changes.prepare(op)?;
    match held.edit(alloc, tree, op) {
        Ok(()) => {
            changes.settle(op, note);
            Ok(())
        }
        Err(error) => {
            changes.take_back(op, note);
            Err(error)
        }
    }
}

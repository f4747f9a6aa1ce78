//! What is held after a commit, and what refuses it.
ghost use Rattle.std.specs.Prelude.{◌≡◌, ◌<◌, length, IfOk};
ghost use Rattle.repo_api.specs.{Accepted.IsJudged, Commits.{committed, IsRefusedAt, revision_properties}, Locking.{check_refusal, refusing_path}};
ghost use Rattle.shared_revisions.specs.{Contents.{held_state, revisions_of, state_of}, Growing.{HasOneMore, HasRevision}, Maps.Mapped, Sealed.sealed_tree};
ghost use Rattle.world.specs.{Committing.{IsConflictFor, IsNextTree, MergesTxn, refusal_in}, Editing.RestsOn, Whole.txn_state_of};

use crate::world_txn::WorldTxn;
use pathlocks::Locks;
use refusals::Refusal;
use repo_api::{ChangeFault, CommitAsk, REVISION_LIMIT};
use revision_data::{TxnChanges, revision_properties};
use shared_revisions::{CommitFault, Held};
use std::alloc::{AllocError, Global};
use std::sync::Arc;
use svnpath::Path;
use txntree::TxnTree;

/// Makes what is held after the commit, if it is accepted.
pub(crate) fn with_commit(
    alloc: Global,
    held: &Held,
    locks: &Locks,
    ask: &CommitAsk,
    txn: &WorldTxn,
) -> Result<Arc<Held>, ChangeFault>
    requires { RestsOn txn.now held.now }
    ensures judged { IsJudged result (refusal_in held.now locks.now ask.now txn.now) }
    ensures ok { IfOk result (λ h. held_state h.value
        ≡ committed (held_state held.now) ask.now (txn_state_of txn.now)) }
    ensures more { IfOk result (λ h. HasOneMore held.now h.value) }
{
    let tree = judge(alloc, held, locks, ask, txn)?;
    let next = with_tree(alloc, held, &tree, ask, &txn.changes)?;
    Ok(next)
}

/// Makes the tree of the next revision, if the commit is accepted: there is no conflict, no lock in its way, and a
/// number left.
fn judge(
    alloc: Global,
    held: &Held,
    locks: &Locks,
    ask: &CommitAsk,
    txn: &WorldTxn,
) -> Result<TxnTree, ChangeFault>
    requires { RestsOn txn.now held.now }
    ensures tree { IfOk result (IsNextTree held.now txn.now) }
    ensures judged { IsJudged result (refusal_in held.now locks.now ask.now txn.now) }
{
    let tree = merged(alloc, held, txn)?;
    check_locks(alloc, locks, &txn.changes, ask)?;
    if held.count() >= REVISION_LIMIT {
        return Err(ChangeFault::Refused(Refusal::NotSupported));
    }
    Ok(tree)
}

/// Gives the transaction's tree merged with the youngest revision, if they are in no conflict.
fn merged(alloc: Global, held: &Held, txn: &WorldTxn) -> Result<TxnTree, ChangeFault>
    requires { RestsOn txn.now held.now }
    ensures { MergesTxn result held.now txn.now }
{
    let tree = held.moved(alloc, &txn.over, &txn.tree, txn.base)?;
    match held.merged(alloc, txn.base, tree) {
        Ok(merged) => Ok(merged),
        Err(CommitFault::Conflict) => Err(ChangeFault::Refused(Refusal::Conflict)),
        Err(CommitFault::NoMemory) => Err(ChangeFault::NoMemory),
    }
}

/// Checks whether the locks in the way of the changes let the commit pass.
fn check_locks(
    alloc: Global,
    locks: &Locks,
    changes: &TxnChanges,
    ask: &CommitAsk,
) -> Result<(), ChangeFault>
    ensures { IsJudged result (check_refusal locks.now changes.now ask.now.author
        ask.now.tokens) }
{
    let tokens = ask.tokens.as_slice();
    locks.check(alloc, changes.as_map(), ask.author.as_ref(), tokens)
}

/// Finds a path at which a commit is refused, if it is at one: a path in conflict, or where none is, that of the first
/// lock in its way that refuses.
pub(crate) fn refused_at(
    alloc: Global,
    held: &Held,
    locks: &Locks,
    ask: &CommitAsk,
    txn: &WorldTxn,
) -> Result<Option<Path>, AllocError>
    requires { RestsOn txn.now held.now }
    ensures { IfOk result (IsRefusedAt (state_of held.now locks.now) ask.now
        (txn_state_of txn.now)) }
{
    let conflict = conflict_in(alloc, held, txn)?;
    match conflict {
        Some(path) => Ok(Some(path)),
        None => refusing_path(alloc, locks, &txn.changes, ask),
    }
}

/// Finds a path at which others have changed what the transaction has changed, if there is one.
fn conflict_in(alloc: Global, held: &Held, txn: &WorldTxn) -> Result<Option<Path>, AllocError>
    requires { RestsOn txn.now held.now }
    ensures { IfOk result (IsConflictFor held.now txn.now) }
{
    let tree = held.moved(alloc, &txn.over, &txn.tree, txn.base)?;
    held.conflict(alloc, txn.base, tree)
}

/// Finds the path of the lock that refuses a commit of the changes, if one does.
fn refusing_path(
    alloc: Global,
    locks: &Locks,
    changes: &TxnChanges,
    ask: &CommitAsk,
) -> Result<Option<Path>, AllocError>
    ensures { IfOk result (λ path. path ≡ refusing_path locks.now changes.now ask.now.author
        ask.now.tokens) }
{
    let tokens = ask.tokens.as_slice();
    locks.refusing_path(alloc, changes.as_map(), ask.author.as_ref(), tokens)
}

/// Makes what is held after a revision with this tree and these changes, and with the properties that are asked for.
fn with_tree(
    alloc: Global,
    held: &Held,
    tree: &TxnTree,
    ask: &CommitAsk,
    changes: &TxnChanges,
) -> Result<Arc<Held>, AllocError>
    requires mapped { ∥ Mapped (sealed_tree held.now.nodes tree.now) ∥₁ }
    requires room { length (revisions_of held.now) < REVISION_LIMIT }
    ensures { IfOk result (λ h. HasRevision held.now h.value (sealed_tree held.now.nodes tree.now)
        changes.now (revision_properties ask.now)) }
{
    let properties = revision_properties(alloc, copied(ask)?)?;
    let changes = changes.to_list(alloc)?;
    let next = held.with_tree(alloc, tree, changes, properties)?;
    Ok(Arc::new(alloc, next)?)
}

/// Copies what is asked of a commit.
fn copied(ask: &CommitAsk) -> Result<CommitAsk, AllocError>
    ensures { IfOk result (λ copy. copy ≡ ask.now) }
{
    Ok(CommitAsk {
        date: ask.date.clone()?,
        author: ask.author.clone()?,
        message: ask.message.clone()?,
        properties: ask.properties.clone()?,
        tokens: ask.tokens.clone()?,
        keep_locks: ask.keep_locks,
    })
}

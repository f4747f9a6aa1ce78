//! A commit: it is judged by one rule after another, and then made.
ghost use Rattle.std.specs.Prelude.{◌≡◌, ◌<◌, length, IfOk};
ghost use Rattle.repo_api.specs.{Accepted.{IsJudged, MakesChange}, Accepted.Accepted.Commits, Commits.{commit_refusal, committed, revision_properties}};
ghost use Rattle.repo_api.specs.{Locking.check_refusal, MergedMaps.merged_map, States.{tree_at, youngest}};
ghost use Rattle.flat_commits.specs.{Contents.{flat_state, HasRevision, revisions_of}, Whole.{state_of, txn_state_of}};

use crate::flat_content::{FlatContent, FlatRevision};
use crate::flat_txn::FlatTxn;
use flat_trees::FlatTree;
use pathlocks::Locks;
use refusals::Refusal;
use repo_api::{ChangeFault, CommitAsk, REVISION_LIMIT};
use revision_data::{TxnChanges, revision_properties};
use std::alloc::{AllocError, Global};
use std::mem::drop;
use std::sync::Arc;

/// Makes the transaction the next revision of what is held, if the rules accept it, and answers its number.
pub fn commit(
    alloc: Global,
    content: &mut Arc<FlatContent>,
    locks: &Locks,
    ask: CommitAsk,
    txn: FlatTxn,
) -> Result<u64, ChangeFault>
    ensures change { MakesChange result (state_of content.old.value locks.now)
        (Commits ask (txn_state_of txn)) (state_of content.new.value locks.now) }
    ensures number { IfOk result (λ n. n ≡ length (revisions_of content.old.value)) }
{
    if let Err(fault) = judge(alloc, content, locks, &ask, &txn) {
        drop((ask, txn));
        return Err(fault);
    }
    let number = content.count();
    *content = with_commit(alloc, content, ask, txn)?;
    Ok(number)
}

/// Checks whether the commit is accepted: there is no conflict, no lock in its way, and a number left.
fn judge(
    alloc: Global,
    content: &FlatContent,
    locks: &Locks,
    ask: &CommitAsk,
    txn: &FlatTxn,
) -> Result<(), ChangeFault>
    ensures { IsJudged result (commit_refusal (state_of content.now locks.now) ask.now
        (txn_state_of txn.now)) }
{
    let (base, youngest) = (content.tree(txn.base), content.tree(content.youngest()));
    if txn.tree.has_conflict(base, youngest) {
        return Err(ChangeFault::Refused(Refusal::Conflict));
    }
    check_locks(alloc, locks, &txn.changes, ask)?;
    if content.count() >= REVISION_LIMIT {
        return Err(ChangeFault::Refused(Refusal::NotSupported));
    }
    Ok(())
}

/// Checks whether the locks in the way of the changes let the commit pass.
fn check_locks(
    alloc: Global,
    locks: &Locks,
    changes: &TxnChanges,
    ask: &CommitAsk,
) -> Result<(), ChangeFault>
    ensures { IsJudged result (check_refusal locks.now changes.now ask.now.author
        ask.now.tokens) }
{
    let tokens = ask.tokens.as_slice();
    locks.check(alloc, changes.as_map(), ask.author.as_ref(), tokens)
}

/// Makes the tree of the revision that a commit of this tree, from this base, adds.
fn next_tree(
    alloc: Global,
    content: &FlatContent,
    base: u64,
    tree: &FlatTree,
) -> Result<FlatTree, AllocError>
    requires { length (revisions_of content.now) < REVISION_LIMIT }
    ensures { IfOk result (λ t. t ≡ merged_map (length (revisions_of content.now))
        (tree_at (flat_state content.now) base) tree.now
        (tree_at (flat_state content.now) (youngest (flat_state content.now)))) }
{
    let revision = content.count() as u32;
    let youngest = content.tree(content.youngest());
    tree.merged(alloc, revision, content.tree(base), youngest)
}

/// Makes what is held after the commit.
fn with_commit(
    alloc: Global,
    content: &FlatContent,
    ask: CommitAsk,
    txn: FlatTxn,
) -> Result<Arc<FlatContent>, AllocError>
    requires { length (revisions_of content.now) < REVISION_LIMIT }
    ensures { IfOk result (λ c. flat_state c.value
        ≡ committed (flat_state content.now) ask (txn_state_of txn)) }
{
    let tree = next_tree(alloc, content, txn.base, &txn.tree)?;
    with_revision(alloc, content, ask, tree, txn.changes)
}

/// Makes what is held after a revision with this tree and these changes, and with the properties that are asked for.
fn with_revision(
    alloc: Global,
    content: &FlatContent,
    ask: CommitAsk,
    tree: FlatTree,
    changes: TxnChanges,
) -> Result<Arc<FlatContent>, AllocError>
    ensures { IfOk result (λ c. HasRevision content.now c.value
        (record { tree = tree; changes = changes }) (revision_properties ask)) }
{
    let changes = changes.into_list(alloc)?;
    let properties = revision_properties(alloc, ask)?;
    let next = content.with_revision(alloc, FlatRevision { tree, changes }, properties)?;
    Ok(Arc::new(alloc, next)?)
}

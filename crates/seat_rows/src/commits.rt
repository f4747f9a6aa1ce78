//! Commits at a seat, and what its looks have.
ghost use Rattle.std.specs.Prelude.{IfOk};
ghost use Rattle.repo_api.specs.{Soundness.AreSound, Transactions.MayCommit};

use crate::files::{DATE, bytes};
use crate::places::SoundTrees;
use access::{Committed, RepoAccess};
use byte_string::ByteString;
use repo_api::{ChangeFault, CommitAsk, LockTokens, NodeKind, Repository};
use std::alloc::{AllocError, Global};
use std::process::Abort;
use svnpath::Path;

/// Makes a transaction that begins at the repository that is seen.
fn begin<R: Repository>(alloc: Global, view: R) -> Result<R::Txn, AllocError>
    requires { AreSound (R.content view).revisions }
    ensures { IfOk result (λ txn. MayCommit (R.content view) (R.txn_state txn)) }
{
    repo_laws::beginnings_are_trees();
    repo_laws::same_entries_make_a_tree();
    repo_laws::transactions_begin_marked();
    match view.kind(view.youngest(), &Path::root(alloc)) {
        NodeKind::Directory => view.begin(),
        _ => Err(AllocError),
    }
}

/// Makes what a commit with this message asks for.
pub(crate) fn ask_for(rt: &impl Abort, alloc: Global, message: &[u8]) -> CommitAsk {
    CommitAsk {
        date: bytes(rt, alloc, DATE),
        author: None,
        message: bytes(rt, alloc, message),
        properties: None,
        tokens: LockTokens::new(alloc),
        keep_locks: false,
    }
}

/// Commits what a look shows, unchanged.
pub(crate) fn commit_of<A: RepoAccess<View = V>, V: SoundTrees>(
    rt: &impl Abort,
    alloc: Global,
    access: &mut A,
    ask: CommitAsk,
) -> Result<Committed, ChangeFault> {
    let view = access.look().expect(rt, "a look");
    view.trees_are_sound();
    let txn = begin(alloc, view).expect(rt, "a transaction");
    match access.commit(ask, txn) {
        Ok(made) => Ok(made),
        Err(refused) => Err(refused.fault),
    }
}

/// Makes an empty commit that hands no lock in, and answers the number of its revision.
pub(crate) fn commit<A: RepoAccess<View = V>, V: SoundTrees>(
    rt: &impl Abort,
    alloc: Global,
    access: &mut A,
) -> Result<u64, ChangeFault> {
    match commit_of(rt, alloc, access, ask_for(rt, alloc, b"")) {
        Ok(committed) => Ok(committed.revision),
        Err(fault) => Err(fault),
    }
}

/// Gives the youngest revision that a look has.
pub(crate) fn youngest<A: RepoAccess>(rt: &impl Abort, access: &mut A) -> u64 {
    access.look().expect(rt, "a look").youngest()
}

//! Replies that tell locks.
ghost use Rattle.std.specs.Prelude.{◌∷◌, []};
ghost use Rattle.svnpath.specs.Texts.{joined};
ghost use Rattle.repo_api.specs.Locking.{at_or_under};
ghost use Rattle.machine.specs.Commands.{lock_at, locks_reply};
ghost use Rattle.wire_replies.specs.{Made.Makes, Sinks.Says};

use byte_string::{ByteString, Sequence};
use refusals::path_refusal;
use repo_api::Repository;
use std::alloc::{AllocError, Global};
use svnpath::{Path, PathFault};
use wire_replies::{LockList, Reply, ReplySink, copied_locks, say_locks, tell_refusal};

/// Gives the lock at a path, seen from the path of the client's URL.
pub(crate) fn get_lock<R: Repository>(
    alloc: Global,
    view: &R,
    base: &Path,
    path: &ByteString,
) -> Result<Reply, AllocError>
    ensures { Makes result (locks_reply (lock_at (R.content view.now)) (joined base.now path.now)) }
{
    match base.join(alloc, path.as_slice()) {
        Ok(path) => Ok(Reply::Locks(lock_found(alloc, view, &path)?)),
        Err(PathFault::NoMemory) => Err(AllocError),
        Err(fault) => Ok(Reply::Failure(path_refusal(fault), None)),
    }
}

/// Writes the locks at a path and under it, seen from the path of the client's URL.
pub(crate) fn say_locks_under<R: Repository, S: ReplySink>(
    alloc: Global,
    view: &R,
    base: &Path,
    path: &ByteString,
    out: &mut S,
) -> Result<(), AllocError>
    ensures { Says result (S.writes out.old out.new)
        (locks_reply (at_or_under (R.content view.now).locks) (joined base.now path.now) ∷ []) }
{
    match base.join(alloc, path.as_slice()) {
        Ok(path) => say_found(alloc, view, &path, out),
        Err(PathFault::NoMemory) => Err(AllocError),
        Err(fault) => tell_refusal(path_refusal(fault), out),
    }
}

/// Finds the lock that exists at a path, if there is one.
fn lock_found<R: Repository>(alloc: Global, view: &R, path: &Path) -> Result<LockList, AllocError>
    ensures { Makes result (lock_at (R.content view.now) path.now) }
{
    match view.lock_at(path) {
        Some(lock) => copied_locks(alloc, &[(path, lock)]),
        None => Ok(Sequence::new(alloc)),
    }
}

/// Writes the locks that exist at a path and under it, one after another.
fn say_found<R: Repository, S: ReplySink>(
    alloc: Global,
    view: &R,
    path: &Path,
    out: &mut S,
) -> Result<(), AllocError>
    ensures { Says result (S.writes out.old out.new)
        (Reply.Locks (at_or_under (R.content view.now).locks path.now) ∷ []) }
{
    let found = view.locks_under(path)?;
    say_locks(alloc, found.as_slice(), out)
}

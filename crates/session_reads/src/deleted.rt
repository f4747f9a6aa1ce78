//! The revision in which something was deleted.
ghost use Rattle.std.specs.Prelude.{◌≡◌, Ok};
ghost use Rattle.svnpath.specs.Texts.{joined};
ghost use Rattle.machine.specs.Histories.{deleted_found, deleted_reply};
ghost use Rattle.wire_replies.specs.Made.{Makes};

use crate::paths::is_to_come;
use commands::GetDeletedRevCommand;
use file_histories::deleted_revision;
use refusals::{Refusal, path_refusal};
use repo_api::Repository;
use std::alloc::{AllocError, Global};
use svnpath::{Path, PathFault};
use wire_replies::Reply;

/// Makes the reply that tells in which revision something was deleted, if it was.
fn deleted_found(found: Option<u64>) -> Reply
    ensures { result ≡ deleted_found found }
{
    match found {
        None => Reply::Failure(Refusal::NotDeleted, None),
        Some(revision) => Reply::Revision(revision),
    }
}

/// Says in which revision a path was deleted, of those between the two that are named.
fn deleted_at<R: Repository>(
    alloc: Global,
    view: &R,
    path: &Path,
    command: &GetDeletedRevCommand,
) -> Result<Reply, AllocError>
    ensures { Makes result (deleted_reply (R.content view.now) command.now (Ok path.now)) }
{
    let low = command.peg.min(command.end);
    let high = command.peg.max(command.end);
    if is_to_come(view, high) {
        return Ok(Reply::Failure(Refusal::NoSuchRevision, None));
    }
    Ok(deleted_found(deleted_revision(alloc, view, path, low, high)?))
}

/// Says in which revision a path was deleted, seen from the path of the client's URL.
pub(crate) fn get_deleted_rev<R: Repository>(
    alloc: Global,
    view: &R,
    base: &Path,
    command: &GetDeletedRevCommand,
) -> Result<Reply, AllocError>
    ensures { Makes result (deleted_reply (R.content view.now) command.now
        (joined base.now command.now.path)) }
{
    match base.join(alloc, command.path.as_slice()) {
        Ok(path) => deleted_at(alloc, view, &path, command),
        Err(PathFault::NoMemory) => Err(AllocError),
        Err(fault) => Ok(Reply::Failure(path_refusal(fault), None)),
    }
}

//! Replies to commands that read the tree and its revisions.
ghost use Rattle.std.specs.Prelude.{◌≡◌, ◌∷◌, [], ℕ, None, Some, MatchOption};
ghost use Rattle.svnpath.specs.Texts.{joined};
ghost use Rattle.repo_api.specs.Kinds.{kind_at, properties_at};
ghost use Rattle.wire_replies.specs.{Made.Makes, Sinks.Says, declared.reply.Reply.Reply};
ghost use Rattle.machine.specs.Commands.{at_revision, check_path_reply, rev_proplist_reply};

use byte_string::ByteString;
use refusals::{Refusal, path_refusal};
use repo_api::{Properties, Repository};
use std::alloc::{AllocError, Global};
use svnpath::{Path, PathFault};
use wire_replies::{Reply, ReplySink, say_new, say_properties, tell_refusal};

/// Gives the revision that is named, or the youngest; `None` above the youngest.
fn known_revision<R: Repository>(view: &R, revision: Option<u64>) -> Option<u64>
    ensures { MatchOption result
        ((f : ℕ → Reply) →
        at_revision (R.content view.now) revision f ≡ Reply.Failure Refusal.NoSuchRevision None)
        (λ n. (f : ℕ → Reply) → at_revision (R.content view.now) revision f ≡ f n) }
{
    let youngest = view.youngest();
    match revision {
        None => Some(youngest),
        Some(n) => { if youngest < n { None } else { Some(n) } }
    }
}

/// Says what exists at a path of a revision that is there.
fn kind_at<R: Repository>(view: &R, revision: u64, path: &Path) -> Reply
    ensures { result ≡ Reply.Kind (kind_at (R.content view.now) revision path.now) }
{
    Reply::Kind(view.kind(revision, path))
}

/// Says what exists at a path, seen from the path of the client's URL.
pub(crate) fn check_path<R: Repository>(
    alloc: Global,
    view: &R,
    base: &Path,
    path: &ByteString,
    revision: Option<u64>,
) -> Result<Reply, AllocError>
    ensures { Makes result
        (check_path_reply (R.content view.now) revision (joined base.now path.now)) }
{
    match base.join(alloc, path.as_slice()) {
        Ok(path) => match known_revision(view, revision) {
            Some(n) => Ok(kind_at(view, n, &path)),
            None => Ok(Reply::Failure(Refusal::NoSuchRevision, None)),
        },
        Err(PathFault::NoMemory) => Err(AllocError),
        Err(fault) => Ok(Reply::Failure(path_refusal(fault), None)),
    }
}

/// Writes the properties of a revision, if it is there.
pub(crate) fn say_rev_proplist<R: Repository, S: ReplySink>(
    alloc: Global,
    view: &R,
    revision: u64,
    out: &mut S,
) -> Result<(), AllocError>
    ensures { Says result (S.writes out.old out.new)
        (rev_proplist_reply (R.content view.now) revision ∷ []) }
{
    match known_revision(view, Some(revision)) {
        Some(n) => say_properties_at(alloc, view, n, out),
        None => tell_refusal(Refusal::NoSuchRevision, out),
    }
}

/// Writes the properties of a revision that is there, one after another.
fn say_properties_at<R: Repository, S: ReplySink>(
    alloc: Global,
    view: &R,
    revision: u64,
    out: &mut S,
) -> Result<(), AllocError>
    ensures { Says result (S.writes out.old out.new)
        (Reply.Properties (properties_at (R.content view.now) revision) ∷ []) }
{
    match view.revision_properties(revision) {
        Some(properties) => say_properties(alloc, properties, out),
        None => say_new(Reply::Properties(Properties::new(alloc)), out),
    }
}

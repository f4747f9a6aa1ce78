//! Revisions, as a log tells them. Where one of these fails, a part of what it says was written.
ghost use Rattle.std.specs.Prelude.{◌∷◌, [], true};
ghost use Rattle.items.specs.Print.{row_printed};
ghost use Rattle.machine.specs.{Histories.{change_told, changes_told, message_of, revision_told}, Readings.{author_of, revision_date}};
ghost use Rattle.wire_replies.specs.{Made.Makes, Replies.change_trees, Sinks.{Says, Writes}};

use crate::{author_of, date_of, revision_value};
use byte_string::ByteString;
use history::kind_shown;
use repo_api::{Change, Repository};
use std::alloc::{AllocError, Global};
use svnpath::{Path, pairs_by_text};
use wire_replies::{LogFacts, LoggedChange, ReplySink, say_change, say_log_end, say_log_head};

/// Gives a change, with the kind of what it made, or of what it deleted.
fn change_told<R: Repository>(
    alloc: Global,
    view: &R,
    revision: u64,
    path: &Path,
    change: &Change,
) -> Result<LoggedChange, AllocError>
    ensures { Makes result (change_told (R.content view.now) revision (path.now, change.now)) }
{
    let kind = kind_shown(alloc, view, revision, path, change)?;
    LoggedChange::copied(path, change, kind)
}

/// Writes the changes of a revision by the bytes of their paths, one after another.
fn say_all_changes<R: Repository, S: ReplySink>(
    alloc: Global,
    view: &R,
    revision: u64,
    out: &mut S,
) -> Result<(), AllocError>
    ensures { Writes result (S.writes out.old out.new)
        (row_printed (change_trees (changes_told (R.content view.now) true revision))) }
{
    let changes = pairs_by_text(alloc, view.changes(revision))?;
    for (path, change) in changes.iter() {
        say_change(alloc, change_told(alloc, view, revision, path, change), out)?;
    }
    Ok(())
}

/// Writes the changes of a revision by the bytes of their paths, where they are wanted.
fn say_changes<R: Repository, S: ReplySink>(
    alloc: Global,
    view: &R,
    wanted: bool,
    revision: u64,
    out: &mut S,
) -> Result<(), AllocError>
    ensures { Writes result (S.writes out.old out.new)
        (row_printed (change_trees (changes_told (R.content view.now) wanted revision))) }
{
    if wanted {
        say_all_changes(alloc, view, revision, out)
    } else {
        Ok(())
    }
}

/// Gives the message of a revision.
fn message_of<R: Repository>(view: &R, revision: u64) -> Result<Option<ByteString>, AllocError>
    ensures { Makes result (message_of (R.content view.now) revision) }
{
    revision_value(view, b"svn:log", revision)
}

/// Gives what a log says of a revision after its changes.
fn facts_told<R: Repository>(view: &R, revision: u64) -> Result<LogFacts, AllocError>
    ensures { let c = R.content view.now in Makes result (record {
      revision = revision;
      author = author_of c revision;
      date = revision_date c revision;
      message = message_of c revision;
    }) }
{
    Ok(LogFacts {
        revision,
        author: author_of(view, revision)?,
        date: date_of(view, revision)?,
        message: message_of(view, revision)?,
    })
}

/// Writes a revision, as a log tells it, one change after another.
pub(crate) fn say_revision<R: Repository, S: ReplySink>(
    alloc: Global,
    view: &R,
    wants_changes: bool,
    revision: u64,
    out: &mut S,
) -> Result<(), AllocError>
    ensures { Says result (S.writes out.old out.new)
        (revision_told (R.content view.now) wants_changes revision ∷ []) }
{
    say_log_head(out)?;
    say_changes(alloc, view, wants_changes, revision, out)?;
    say_log_end(alloc, facts_told(view, revision), out)
}

//! The revisions that changed paths. Where one of these fails, a part of what it says was written.
ghost use Rattle.std.specs.Prelude.{◌≡◌, ◌++◌, ◌∷◌, ℕ, List, [], map, option_copied, Ok, IfOk};
ghost use Rattle.repo_api.specs.Histories.{history_of};
ghost use Rattle.history.specs.Walks.{to_come};
ghost use Rattle.machine.specs.Histories.{all_joined, ended, first_missing, log_ask, log_refusal, log_replies, or_youngest, revision_told};
ghost use Rattle.wire_replies.specs.Sinks.{Says};

use crate::asked::LogAsked;
use crate::listing::{say_end, say_refused, say_refused_at};
use crate::log_entries::say_revision;
use crate::paths::{all_joined, are_there, is_there, is_to_come};
use commands::LogCommand;
use history::{Log, LogAsk};
use machine::Client;
use refusals::{Refusal, path_refusal};
use repo_api::Repository;
use std::alloc::{AllocError, Global};
use std::mem::drop;
use svnpath::{Path, PathFault};
use wire_replies::{Reply, ReplySink};

/// Gives the revision that is named, or the youngest.
pub(crate) fn or_youngest<R: Repository>(view: &R, revision: Option<u64>) -> u64
    ensures { result ≡ or_youngest (R.content view.now) revision }
{
    match revision {
        None => view.youngest(),
        Some(revision) => revision,
    }
}

/// Makes what a log is asked for.
fn log_ask<R: Repository>(view: &R, command: &LogCommand) -> LogAsk
    ensures { result ≡ log_ask (R.content view.now) command.now }
{
    LogAsk {
        strict: command.strict,
        start: or_youngest(view, command.start),
        end: or_youngest(view, command.end),
        limit: command.limit,
    }
}

/// Says why a log is refused, if it is: a revision is above the youngest, or a path is not in the greater of the two.
fn log_refusal<R: Repository>(view: &R, ask: LogAsk, paths: &[Path]) -> Option<Refusal>
    ensures { result ≡ log_refusal (R.content view.now) ask paths.now }
{
    let newest = ask.start.max(ask.end);
    if is_to_come(view, newest) {
        Some(Refusal::NoSuchRevision)
    } else if are_there(view, newest, paths) {
        None
    } else {
        Some(Refusal::NotFound)
    }
}

/// Finds the first of the paths that is not in the greater of the two revisions of a log.
fn first_missing<'a, R: Repository>(view: &R, ask: LogAsk, paths: &'a [Path]) -> Option<&'a Path>
    ensures { option_copied result ≡ first_missing (R.content view.now) ask paths.now }
{
    let newest = ask.start.max(ask.end);
    paths.iter().find(|path| !is_there(view, newest, path))
}

/// Writes the revisions of a log that are to come, each as it is found.
fn say_revisions<R: Repository, S: ReplySink>(
    alloc: Global,
    view: &R,
    wants_changes: bool,
    log: &mut Log,
    out: &mut S,
) -> Result<(), AllocError>
    ensures { let c = R.content view.now in Says result (S.writes out.old out.new)
        (map (revision_told c wants_changes) (to_come (history_of c) log.old)) }
{
    while let Some(revision) = log.next(alloc, view)? {
        say_revision(alloc, view, wants_changes, revision, out)?;
    }
    Ok(())
}

/// Writes what a log lists, and that it is whole.
fn say_listed<R: Repository, S: ReplySink>(
    alloc: Global,
    view: &R,
    wants_changes: bool,
    log: &mut Log,
    out: &mut S,
) -> Result<(), AllocError>
    ensures { let c = R.content view.now in Says result (S.writes out.old out.new)
        (map (revision_told c wants_changes) (to_come (history_of c) log.old) ++ ended
        Reply.Success) }
{
    say_revisions(alloc, view, wants_changes, log, out)?;
    say_end(Reply::Success, out)
}

/// Writes the same of a log that was opened, if it was.
fn say_opened<R: Repository, S: ReplySink>(
    alloc: Global,
    view: &R,
    wants_changes: bool,
    log: Result<Log, AllocError>,
    out: &mut S,
) -> Result<(), AllocError>
    ensures { let c = R.content view.now in (ns : List ℕ) → IfOk log
        (λ opened. to_come (history_of c) opened ≡ ns) → Says result (S.writes out.old out.new)
        (map (revision_told c wants_changes) ns ++ ended Reply.Success) }
{
    match log {
        Ok(log) => {
            let mut log = log;
            let said = say_listed(alloc, view, wants_changes, &mut log, out);
            drop(log);
            said
        }
        Err(error) => Err(error),
    }
}

/// Writes the log of these paths.
fn say_log<R: Repository, S: ReplySink>(
    alloc: Global,
    view: &R,
    asked: LogAsked<'_>,
    paths: &[Path],
    out: &mut S,
) -> Result<(), AllocError>
    ensures { Says result (S.writes out.old out.new) (log_replies asked.entry.is_of_today
        (R.content view.now) asked.entry.command.now (Ok paths.now)) }
{
    let command = asked.command;
    let ask = log_ask(view, command);
    match log_refusal(view, ask, paths) {
        None => {
            let log = Log::open(alloc, view, paths, ask);
            say_opened(alloc, view, command.wants_changes, log, out)
        }
        Some(refusal) => {
            let missing = first_missing(view, ask, paths);
            say_refused_at(asked.is_of_today, refusal, missing, out)
        }
    }
}

/// Writes the log of the paths that are named, seen from the path of the client's URL.
pub(crate) fn say_named<R: Repository, S: ReplySink>(
    alloc: Global,
    view: &R,
    client: &Client,
    command: &LogCommand,
    out: &mut S,
) -> Result<(), AllocError>
    ensures { Says result (S.writes out.old out.new) (log_replies client.now.is_of_today
        (R.content view.now) command.now (all_joined client.now.path command.now.paths)) }
{
    match all_joined(alloc, &client.path, command.paths.as_slice()) {
        Ok(paths) => {
            let asked = LogAsked {
                command,
                is_of_today: client.is_of_today,
            };
            let said = say_log(alloc, view, asked, paths.as_slice(), out);
            drop(paths);
            said
        }
        Err(PathFault::NoMemory) => Err(AllocError),
        Err(fault) => say_refused(path_refusal(fault), out),
    }
}

//! The history of paths and of the repository, for clients of today. Where one of these fails, a part of what it says was
//! written.
ghost use Rattle.machine.specs.Commands.{history_replies};
ghost use Rattle.wire_replies.specs.Sinks.{Says};

use crate::deleted::get_deleted_rev;
use crate::{file_revisions, segments};
use commands::HistoryCommand;
use machine::Client;
use repo_api::Repository;
use session_replays::{say_replay, say_replay_range};
use std::alloc::{AllocError, Global};
use wire_replies::{ReplySink, say_made};

/// Writes what a client of today is told of the history of a path or of the repository.
pub(crate) fn say_history<R: Repository, S: ReplySink>(
    alloc: Global,
    view: &R,
    client: &Client,
    command: &HistoryCommand,
    out: &mut S,
) -> Result<(), AllocError>
    ensures { Says result (S.writes out.old out.new)
        (history_replies client.now command.now (R.content view.now)) }
{
    match command {
        HistoryCommand::GetLocationSegments(command) => {
            segments::say_named(alloc, view, client, command, out)
        }
        HistoryCommand::GetDeletedRev(command) => {
            say_made(get_deleted_rev(alloc, view, &client.path, command), out)
        }
        HistoryCommand::GetFileRevs(command) => {
            file_revisions::say_named(alloc, view, client, command, out)
        }
        HistoryCommand::Replay(command) => say_replay(alloc, view, client, command, out),
        HistoryCommand::ReplayRange(command) => {
            say_replay_range(alloc, view, client, command, out)
        }
    }
}

//! What commands that read are answered. Where one of these fails, a part of what it says was written.
ghost use Rattle.std.specs.Prelude.{◌≡◌, ◌++◌};
ghost use Rattle.wire_replies.specs.Sinks.{Says};
ghost use Rattle.machine.specs.{Answers.{Behind, Shows}, Commands.{read_answer, read_replies}, Steps.{Stepped, Looks}};
ghost use Rattle.session_replies.specs.Telling.{told_before};

use crate::directories::say_dir;
use crate::entries::stat;
use crate::files::say_file;
use crate::histories::say_history;
use crate::locks::{get_lock, say_locks_under};
use crate::reading::{check_path, say_rev_proplist};
use crate::revisions::{get_dated_rev, rev_prop};
use crate::{locations, logs};
use access::RepoAccess;
use commands::ReadCommand;
use machine::{Client, Phase, Turn};
use repo_api::Repository;
use session_replies::{Preface, SessionPhase, say_preface, stands};
use std::alloc::{AllocError, Global};
use wire_replies::{Reply, ReplySink, say_made, say_new};

/// Writes what a command that reads is told of a repository.
fn say_read<R: Repository, S: ReplySink>(
    alloc: Global,
    view: &R,
    client: &Client,
    command: &ReadCommand,
    out: &mut S,
) -> Result<(), AllocError>
    ensures { Says result (S.writes out.old out.new)
        (read_replies client.now command.now (R.content view.now)) }
{
    let base = &client.path;
    match command {
        ReadCommand::GetLatestRev => say_new(Reply::Revision(view.youngest()), out),
        ReadCommand::CheckPath(path, revision) => {
            say_made(check_path(alloc, view, base, path, *revision), out)
        }
        ReadCommand::RevProplist(revision) => say_rev_proplist(alloc, view, *revision, out),
        ReadCommand::GetLock(path) => say_made(get_lock(alloc, view, base, path), out),
        ReadCommand::GetLocks(path) => say_locks_under(alloc, view, base, path, out),
        ReadCommand::GetFile(command) => say_file(alloc, view, client, command, out),
        ReadCommand::GetDir(command) => say_dir(alloc, view, client, command, out),
        ReadCommand::Stat(path, revision) => {
            say_made(stat(alloc, view, base, path, *revision), out)
        }
        ReadCommand::GetDatedRev(date) => say_new(get_dated_rev(view, date.as_slice()), out),
        ReadCommand::RevProp(revision, name) => {
            say_made(rev_prop(view, *revision, name.as_slice()), out)
        }
        ReadCommand::Log(command) => logs::say_named(alloc, view, client, command, out),
        ReadCommand::GetLocations(command) => {
            locations::say_named(alloc, view, client, command, out)
        }
        ReadCommand::History(command) => say_history(alloc, view, client, command, out),
    }
}

/// Looks at the repository, and writes what a command that reads is told, behind what comes before it.
fn say_read_behind<R: Repository, A: RepoAccess<View = R>, S: ReplySink>(
    client: &Client,
    command: &ReadCommand,
    preface: Preface,
    access: &mut A,
    turn: &mut Turn<S>,
) -> Result<(), AllocError>
    ensures said { Looks A.rules A.point access.old access.new
        (λ c. Says result (S.writes turn.old.out turn.new.out)
        (told_before preface ++ read_replies client.now command.now c)) }
    ensures env { turn.new.env ≡ turn.old.env }
{
    let view = access.look()?;
    say_preface(preface, &mut turn.out)?;
    say_read(turn.alloc, &view, client, command, &mut turn.out)
}

/// Answers a command that reads, over one look at the repository. The next command is awaited.
pub fn tell_read<R: Repository, A: RepoAccess<View = R>, S: ReplySink>(
    client: Client,
    command: &ReadCommand,
    preface: Preface,
    access: &mut A,
    turn: &mut Turn<S>,
) -> Result<SessionPhase<R>, AllocError>
    ensures { Stepped result S.writes turn.old turn.new A.rules A.point access.old access.new
        (Behind (told_before preface) (Shows (read_answer turn.old.env client command.now))) }
{
    let said = say_read_behind(&client, command, preface, access, turn);
    stands(Phase::Serving(client), said)
}

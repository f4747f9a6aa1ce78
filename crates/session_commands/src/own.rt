//! What a command is answered, behind what its client is told before.
ghost use Rattle.std.specs.Prelude.{[]};
ghost use Rattle.machine.specs.{Answers.{Behind, behind, says}, Commands.{asked_by, commit_begins, lock_tokens, OwnStep}, Steps.{Answered, Stepped}};
ghost use Rattle.session_replies.specs.Telling.{told_before};

use crate::beginning::{begun_report, open_report};
use crate::reparenting::reparent;
use crate::request::Request;
use access::RepoAccess;
use commands::{CommitCommand, MainCommand};
use machine::{Client, Options, Phase, Turn};
use refusals::Refusal;
use repo_api::Repository;
use session_changes::{lock, set_rev_prop, unlock};
use session_commits::begin_edit;
use session_reads::tell_read;
use session_replies::{Preface, SessionPhase, refuse, say_preface, stands};
use std::alloc::AllocError;
use std::mem::drop;
use wire_replies::ReplySink;

/// Begins a commit.
fn begin_commit<R: Repository, S: ReplySink>(
    options: &Options,
    client: Client,
    command: &CommitCommand,
    preface: Preface,
    turn: &mut Turn<S>,
) -> Result<SessionPhase<R>, AllocError>
    ensures { Answered result S.writes turn.old turn.new (behind (told_before preface)
        (commit_begins options.now turn.old.env client
        (asked_by command.now (lock_tokens client.path command.now.tokens)))) }
{
    match say_preface(preface, &mut turn.out) {
        Ok(()) => begin_edit(options, client, command, turn),
        Err(error) => {
            drop(client);
            Err(error)
        }
    }
}

/// Tells no more than what comes before an answer. The next command is awaited.
fn tell_preface<R: Repository, S: ReplySink>(
    client: Client,
    preface: Preface,
    turn: &mut Turn<S>,
) -> Result<SessionPhase<R>, AllocError>
    ensures { Answered result S.writes turn.old turn.new
        (behind (told_before preface) (says turn.old.env (Phase.Serving client) [])) }
{
    let said = say_preface(preface, &mut turn.out);
    stands(Phase::Serving(client), said)
}

/// Gives a command's own answer, after what its client is sent before.
pub fn own_answer<R: Repository, A: RepoAccess<View = R>, S: ReplySink>(
    options: &Options,
    client: Client,
    request: Request,
    access: &mut A,
    turn: &mut Turn<S>,
) -> Result<SessionPhase<R>, AllocError>
    ensures { Stepped result S.writes turn.old turn.new A.rules A.point access.old access.new
        (Behind (told_before request.entry.preface)
        (OwnStep options.now turn.old.env client request.entry.command.now)) }
{
    let Request { command, preface } = request;
    match command {
        MainCommand::Read(command) => tell_read(client, command, preface, access, turn),
        MainCommand::Drive(command) => {
            let report = begun_report(turn.alloc, options, &client, command, access);
            open_report(client, preface, report, turn)
        }
        MainCommand::Commit(commit) => begin_commit(options, client, commit, preface, turn),
        MainCommand::AbortEdit => tell_preface(client, preface, turn),
        MainCommand::Lock(command) => lock(client, command, preface, access, turn),
        MainCommand::Unlock(command) => unlock(client, command, preface, access, turn),
        MainCommand::ChangeRevProp(ask) => {
            if options.has_revprops() {
                set_rev_prop(client, ask, preface, access, turn)
            } else {
                refuse(client, preface, Refusal::RevisionPropertiesClosed, turn)
            }
        }
        MainCommand::Reparent(url) => reparent(options, client, url, preface, turn),
    }
}

//! Commands, and what is none.
ghost use Rattle.std.specs.Prelude.{Ok, None, false};
ghost use Rattle.items.specs.View.{value_of};
ghost use Rattle.commands.specs.Commands.{main_command};
ghost use Rattle.wire_replies.specs.declared.reply.Reply.{Reply};
ghost use Rattle.machine.specs.{Answers.serves, Machine.{KnownCommand, MainStep}, Steps.{Answered, Stepped}};

use crate::asking::ask_for_login;
use crate::own::own_answer;
use crate::request::{Request, preface_of, wants_user};
use access::RepoAccess;
use commands::MainCommand;
use items::Item;
use machine::{Client, OpenLogin, Options, Turn};
use refusals::Refusal;
use repo_api::Repository;
use session_replies::{Preface, SessionPhase, end_malformed, refuse};
use std::alloc::AllocError;
use std::mem::drop;
use wire_forms::CommandFault;
use wire_replies::ReplySink;

/// Refuses a command that is not known.
fn refuse_unknown<R: Repository, S: ReplySink>(
    client: Client,
    turn: &mut Turn<S>,
) -> Result<SessionPhase<R>, AllocError>
    ensures { Answered result S.writes turn.old turn.new
        (serves turn.old.env client (Reply.Failure Refusal.UnknownCommand None)) }
{
    refuse(client, Preface::Nothing, Refusal::UnknownCommand, turn)
}

/// Answers a command that is known, and waits for nothing: with the login request, and then its own answer.
fn answer_now<R: Repository, A: RepoAccess<View = R>, S: ReplySink>(
    options: &Options,
    client: Client,
    command: MainCommand,
    access: &mut A,
    turn: &mut Turn<S>,
) -> Result<SessionPhase<R>, AllocError>
    ensures { Stepped result S.writes turn.old turn.new A.rules A.point access.old access.new
        (KnownCommand false options.now turn.old.env client command) }
{
    let preface = preface_of(&command);
    let request = Request {
        command: &command,
        preface,
    };
    let answered = own_answer(options, client, request, access, turn);
    drop(command);
    answered
}

/// Takes a command: it waits for a login, or is answered.
fn answer_or_ask_login<R: Repository, A: RepoAccess<View = R>, S: ReplySink>(
    options: &Options,
    client: Client,
    command: MainCommand,
    access: &mut A,
    turn: &mut Turn<S>,
) -> Result<SessionPhase<R>, AllocError>
    ensures { Stepped result S.writes turn.old turn.new A.rules A.point access.old access.new
        (MainStep options.now turn.old.env client (Ok command)) }
{
    if wants_user(options, &client, &command) {
        let waiting = Some(command);
        ask_for_login(options, OpenLogin { client, waiting }, turn)
    } else {
        answer_now(options, client, command, access, turn)
    }
}

/// Answers an item that is to be a command.
pub fn main_item<R: Repository, A: RepoAccess<View = R>, S: ReplySink>(
    options: &Options,
    client: Client,
    item: &Item,
    access: &mut A,
    turn: &mut Turn<S>,
) -> Result<SessionPhase<R>, AllocError>
    ensures { Stepped result S.writes turn.old turn.new A.rules A.point access.old access.new
        (MainStep options.now turn.old.env client
        (main_command client.is_of_today (value_of item.now))) }
{
    match MainCommand::from_item(turn.alloc, client.is_of_today, item) {
        Ok(command) => answer_or_ask_login(options, client, command, access, turn),
        Err(CommandFault::UnknownName) => refuse_unknown(client, turn),
        Err(CommandFault::BadParameters) => {
            drop(client);
            end_malformed(turn)
        }
        Err(CommandFault::NoMemory) => {
            drop(client);
            Err(AllocError)
        }
    }
}

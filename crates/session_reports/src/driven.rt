//! The client's answer to a drive.
ghost use Rattle.std.specs.Prelude.{◌∷◌, [], Some};
ghost use Rattle.items.specs.View.{value_of};
ghost use Rattle.reporter.specs.{Reporting.client_answer, declared.answering.ClientAnswer.ClientAnswer};
ghost use Rattle.machine.specs.{Answers.{says, serves}, Reports.driven_answer, Steps.Answered};
ghost use Rattle.wire_replies.specs.Sinks.{Says};

use items::Item;
use machine::{Client, Phase, Turn, drive_failure};
use repo_api::Repository;
use reporter::ClientAnswer;
use session_replies::{Preface, SessionPhase, end_malformed, stands, tell};
use std::alloc::AllocError;
use std::mem::drop;
use wire_edits::EditorCommand;
use wire_forms::CommandFault;
use wire_replies::{FailureLinks, Reply, ReplySink, say_both};

/// Writes that a drive is given up, and then a failure.
fn say_given_up<S: ReplySink>(failure: Reply, out: &mut S) -> Result<(), AllocError>
    ensures { Says result (S.writes out.old out.new)
        (Reply.Edit EditorCommand.AbortEdit ∷ failure ∷ []) }
{
    let said = say_both(&Reply::Edit(EditorCommand::AbortEdit), &failure, out);
    drop(failure);
    said
}

/// Gives a drive up, and tells this failure. The next command is awaited.
fn tell_given_up<R: Repository, S: ReplySink>(
    client: Client,
    failure: Reply,
    turn: &mut Turn<S>,
) -> Result<SessionPhase<R>, AllocError>
    ensures { Answered result S.writes turn.old turn.new (says turn.old.env (Phase.Serving client)
        (Reply.Edit EditorCommand.AbortEdit ∷ failure ∷ [])) }
{
    let said = say_given_up(failure, &mut turn.out);
    stands(Phase::Serving(client), said)
}

/// Gives a drive up at which the client failed, with what it says of that. The next command is awaited.
fn give_up<R: Repository, S: ReplySink>(
    client: Client,
    links: FailureLinks,
    turn: &mut Turn<S>,
) -> Result<SessionPhase<R>, AllocError>
    ensures { Answered result S.writes turn.old turn.new
        (driven_answer turn.old.env client (Some (ClientAnswer.GivenUp links))) }
{
    let failure = drive_failure(client.is_of_today, links);
    tell_given_up(client, failure, turn)
}

/// Tells that a drive was taken. The next command is awaited.
fn tell_taken<R: Repository, S: ReplySink>(
    client: Client,
    turn: &mut Turn<S>,
) -> Result<SessionPhase<R>, AllocError>
    ensures { Answered result S.writes turn.old turn.new
        (serves turn.old.env client Reply.Success) }
{
    tell(client, Preface::Nothing, Ok(Reply::Success), turn)
}

/// Takes an item after a drive: the client's answer to it.
pub fn driven_item<R: Repository, S: ReplySink>(
    client: Client,
    item: &Item,
    turn: &mut Turn<S>,
) -> Result<SessionPhase<R>, AllocError>
    ensures { Answered result S.writes turn.old turn.new
        (driven_answer turn.old.env client (client_answer (value_of item.now))) }
{
    match ClientAnswer::from_item(turn.alloc, item) {
        Ok(ClientAnswer::Taken) => tell_taken(client, turn),
        Ok(ClientAnswer::GivenUp(links)) => give_up(client, links, turn),
        Err(CommandFault::NoMemory) => {
            drop(client);
            Err(AllocError)
        }
        Err(_) => {
            drop(client);
            end_malformed(turn)
        }
    }
}

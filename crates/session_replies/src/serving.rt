//! The answer to a command, behind what comes before it. Where one of these fails, a part of what it says
//! was written.
ghost use Rattle.std.specs.Prelude.{◌∷◌, ◌++◌, [], None, option_map};
ghost use Rattle.wire_replies.specs.{declared.reply.Reply.Reply, Sinks.Says, Made.Makes};
ghost use Rattle.machine.specs.{Answers.{behind, refuses, says, serves}, Steps.{Answered, AnsweredIfAny}};
ghost use Rattle.session_replies.specs.Telling.{told_before, fault_answer};

use crate::preface::{Preface, say_new_behind};
use crate::turn::{SessionPhase, stands};
use machine::{Client, Phase, Turn, failure_at};
use refusals::Refusal;
use repo_api::{ChangeFault, Repository};
use std::alloc::AllocError;
use std::mem::drop;
use svnpath::Path;
use wire_replies::{Reply, ReplySink};

/// Writes a reply behind what comes before it, if the reply could be made. If not, nothing is written.
fn say_made_behind<S: ReplySink>(
    preface: Preface,
    reply: Result<Reply, AllocError>,
    out: &mut S,
) -> Result<(), AllocError>
    ensures { (told : Reply) → Makes reply told → Says result
        (S.writes out.old out.new) (told_before preface ++ told ∷ []) }
{
    match reply {
        Ok(reply) => say_new_behind(preface, reply, out),
        Err(error) => Err(error),
    }
}

/// Answers a command by a reply, if it could be made. The next command is awaited.
pub fn tell<R: Repository, S: ReplySink>(
    client: Client,
    preface: Preface,
    reply: Result<Reply, AllocError>,
    turn: &mut Turn<S>,
) -> Result<SessionPhase<R>, AllocError>
    ensures { (told : Reply) → Makes reply told → Answered result S.writes turn.old turn.new
        (behind (told_before preface) (serves turn.old.env client told)) }
{
    let said = say_made_behind(preface, reply, &mut turn.out);
    stands(Phase::Serving(client), said)
}

/// Refuses a command. The next command is awaited.
pub fn refuse<R: Repository, S: ReplySink>(
    client: Client,
    preface: Preface,
    refusal: Refusal,
    turn: &mut Turn<S>,
) -> Result<SessionPhase<R>, AllocError>
    ensures { Answered result S.writes turn.old turn.new
        (behind (told_before preface) (serves turn.old.env client (Reply.Failure refusal None))) }
{
    tell(client, preface, Ok(Reply::Failure(refusal, None)), turn)
}

/// Refuses a command at this path, if it is one of a path. The next command is awaited.
pub fn refuse_at<R: Repository, S: ReplySink>(
    client: Client,
    preface: Preface,
    refusal: Refusal,
    path: Option<Path>,
    turn: &mut Turn<S>,
) -> Result<SessionPhase<R>, AllocError>
    ensures { Answered result S.writes turn.old turn.new
        (behind (told_before preface) (refuses turn.old.env client refusal path)) }
{
    let failure = failure_at(client.is_of_today, refusal, path);
    tell(client, preface, Ok(failure), turn)
}

/// Ends the session, since no change is made any more.
pub fn end_halted<R: Repository, S: ReplySink>(
    unserved: Client,
    preface: Preface,
    turn: &mut Turn<S>,
) -> Result<SessionPhase<R>, AllocError>
    ensures { Answered result S.writes turn.old turn.new (behind (told_before preface)
        (says turn.old.env Phase.Ended (Reply.Failure Refusal.StoreFailed None ∷ []))) }
{
    drop(unserved);
    let failure = Reply::Failure(Refusal::StoreFailed, None);
    say_new_behind(preface, failure, &mut turn.out)?;
    Ok(Phase::Ended)
}

/// Tells a client that a change of this path, if it is of one, was not made, and why. Once changes have come to a halt
/// the session ends. If memory ran out there is no answer, and nothing is written.
pub fn tell_fault<R: Repository, S: ReplySink>(
    client: Client,
    path: Option<Path>,
    preface: Preface,
    fault: ChangeFault,
    turn: &mut Turn<S>,
) -> Result<SessionPhase<R>, AllocError>
    ensures { AnsweredIfAny result S.writes turn.old turn.new
        (option_map (behind (told_before preface)) (fault_answer turn.old.env client path fault)) }
{
    match fault {
        ChangeFault::Refused(refusal) => refuse_at(client, preface, refusal, path, turn),
        ChangeFault::StoreFailed => {
            drop(path);
            refuse(client, preface, Refusal::StoreFailed, turn)
        }
        ChangeFault::Halted => {
            drop(path);
            end_halted(client, preface, turn)
        }
        ChangeFault::NoMemory => {
            drop(path);
            drop(client);
            Err(AllocError)
        }
    }
}

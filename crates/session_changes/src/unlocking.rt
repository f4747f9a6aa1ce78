//! A path of the repository is unlocked.
ghost use Rattle.std.specs.Prelude.{Some, option_map};
ghost use Rattle.svnpath.specs.Texts.{joined};
ghost use Rattle.machine.specs.{Answers.{Behind, behind}, Commands.UnlockStep, Steps.{AnsweredIfAny, Stepped}};
ghost use Rattle.session_replies.specs.Telling.{fault_answer, told_before};
ghost use Rattle.session_changes.specs.Asked.{UnlockAsked};

use crate::asking::unlock_asked_for;
use access::RepoAccess;
use commands::UnlockCommand;
use machine::{Client, Turn};
use refusals::path_refusal;
use repo_api::{ChangeFault, Repository, UnlockAsk};
use session_replies::{Preface, SessionPhase, refuse, tell, tell_fault};
use std::alloc::AllocError;
use std::mem::drop;
use svnpath::PathFault;
use wire_replies::{Reply, ReplySink};

/// Tells that a lock was not taken away, and why.
fn tell_unmade<R: Repository, S: ReplySink>(
    client: Client,
    preface: Preface,
    ask: UnlockAsk,
    fault: ChangeFault,
    turn: &mut Turn<S>,
) -> Result<SessionPhase<R>, AllocError>
    ensures { AnsweredIfAny result S.writes turn.old turn.new
        (option_map (behind (told_before preface))
        (fault_answer turn.old.env client (Some ask.path) fault)) }
{
    let UnlockAsk {
        path,
        user,
        token,
        breaks: _,
        tells_dead_tokens: _,
    } = ask;
    drop(user);
    drop(token);
    tell_fault(client, Some(path), preface, fault, turn)
}

/// Asks for an unlock.
fn ask_unlock<R: Repository, A: RepoAccess<View = R>, S: ReplySink>(
    client: Client,
    ask: UnlockAsk,
    preface: Preface,
    access: &mut A,
    turn: &mut Turn<S>,
) -> Result<SessionPhase<R>, AllocError>
    ensures { Stepped result S.writes turn.old turn.new A.rules A.point access.old access.new
        (Behind (told_before preface) (UnlockAsked turn.old.env client ask)) }
{
    match access.unlock(&ask) {
        Ok(()) => {
            drop(ask);
            tell(client, preface, Ok(Reply::Success), turn)
        }
        Err(fault) => tell_unmade(client, preface, ask, fault, turn),
    }
}

/// Unlocks a path, behind what the client is told before.
pub fn unlock<R: Repository, A: RepoAccess<View = R>, S: ReplySink>(
    client: Client,
    command: &UnlockCommand,
    preface: Preface,
    access: &mut A,
    turn: &mut Turn<S>,
) -> Result<SessionPhase<R>, AllocError>
    ensures { Stepped result S.writes turn.old turn.new A.rules A.point access.old access.new
        (Behind (told_before preface)
        (UnlockStep turn.old.env client command.now (joined client.path command.now.path))) }
{
    match unlock_asked_for(turn.alloc, &client, command) {
        Ok(ask) => ask_unlock(client, ask, preface, access, turn),
        Err(fault) => match fault {
            PathFault::NoMemory => {
                drop(client);
                Err(AllocError)
            }
            _ => refuse(client, preface, path_refusal(fault), turn),
        },
    }
}

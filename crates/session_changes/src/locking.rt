//! A path of the repository is locked.
ghost use Rattle.std.specs.Prelude.{Some, option_map};
ghost use Rattle.svnpath.specs.Texts.{joined};
ghost use Rattle.machine.specs.{Answers.{Behind, behind, serves}, Commands.{env_without_token, is_long_comment, LockingStep, LockStep}};
ghost use Rattle.machine.specs.Steps.{Answered, AnsweredIfAny, Stepped};
ghost use Rattle.session_replies.specs.Telling.{fault_answer, told_before};
ghost use Rattle.session_changes.specs.Asked.{LockAsked};

use crate::asking::{MadeLock, lock_asked_for, made_lock};
use access::RepoAccess;
use commands::LockCommand;
use machine::{Client, Turn, is_long_comment};
use refusals::{Refusal, path_refusal};
use repo_api::{ChangeFault, LockAsk, Repository};
use session_replies::{Preface, SessionPhase, refuse, tell, tell_fault};
use std::alloc::AllocError;
use std::mem::drop;
use svnpath::PathFault;
use wire_replies::{Reply, ReplySink};

/// Tells of a lock that is made, and with it uses its token.
fn tell_lock<R: Repository, S: ReplySink>(
    client: Client,
    preface: Preface,
    made: MadeLock,
    turn: &mut Turn<S>,
) -> Result<SessionPhase<R>, AllocError>
    ensures { Answered result S.writes turn.old turn.new (behind (told_before preface)
        (serves (env_without_token turn.old.env) client (Reply.Lock made.path made.lock))) }
{
    let MadeLock { path, lock } = made;
    turn.env = turn.env.without_token();
    tell(client, preface, Ok(Reply::Lock(path, lock)), turn)
}

/// Tells that a lock was not made, and why.
fn tell_unmade<R: Repository, S: ReplySink>(
    client: Client,
    preface: Preface,
    made: MadeLock,
    fault: ChangeFault,
    turn: &mut Turn<S>,
) -> Result<SessionPhase<R>, AllocError>
    ensures { AnsweredIfAny result S.writes turn.old turn.new
        (option_map (behind (told_before preface))
        (fault_answer turn.old.env client (Some made.path) fault)) }
{
    let MadeLock { path, lock } = made;
    drop(lock);
    tell_fault(client, Some(path), preface, fault, turn)
}

/// Asks for a lock. What is told of it is made before, so that nothing but the writing can fail
/// once it is made.
fn ask_lock<R: Repository, A: RepoAccess<View = R>, S: ReplySink>(
    client: Client,
    ask: LockAsk,
    preface: Preface,
    access: &mut A,
    turn: &mut Turn<S>,
) -> Result<SessionPhase<R>, AllocError>
    ensures { Stepped result S.writes turn.old turn.new A.rules A.point access.old access.new
        (Behind (told_before preface) (LockAsked turn.old.env client ask)) }
{
    match made_lock(turn.alloc, &ask) {
        Ok(made) => match access.lock(ask) {
            Ok(()) => tell_lock(client, preface, made, turn),
            Err(fault) => tell_unmade(client, preface, made, fault, turn),
        },
        Err(error) => {
            drop(client);
            drop(ask);
            Err(error)
        }
    }
}

/// Locks a path, after what the client is sent before.
fn lock_path<R: Repository, A: RepoAccess<View = R>, S: ReplySink>(
    client: Client,
    command: &LockCommand,
    preface: Preface,
    access: &mut A,
    turn: &mut Turn<S>,
) -> Result<SessionPhase<R>, AllocError>
    ensures { Stepped result S.writes turn.old turn.new A.rules A.point access.old access.new
        (Behind (told_before preface)
        (LockingStep turn.old.env client command.now (joined client.path command.now.path))) }
{
    match lock_asked_for(turn.alloc, turn.env, &client, command) {
        Ok(ask) => ask_lock(client, ask, preface, access, turn),
        Err(fault) => match fault {
            PathFault::NoMemory => {
                drop(client);
                Err(AllocError)
            }
            _ => refuse(client, preface, path_refusal(fault), turn),
        },
    }
}

/// Locks a path, after what the client is sent before. A comment over the limit is refused first.
pub fn lock<R: Repository, A: RepoAccess<View = R>, S: ReplySink>(
    client: Client,
    command: &LockCommand,
    preface: Preface,
    access: &mut A,
    turn: &mut Turn<S>,
) -> Result<SessionPhase<R>, AllocError>
    ensures { Stepped result S.writes turn.old turn.new A.rules A.point access.old access.new
        (Behind (told_before preface) (LockStep (is_long_comment command.now.comment) turn.old.env
        client command.now (joined client.path command.now.path))) }
{
    if is_long_comment(&command.comment) {
        refuse(client, preface, Refusal::NotSupported, turn)
    } else {
        lock_path(client, command, preface, access, turn)
    }
}

//! What a client is told once it has logged in.
ghost use Rattle.std.specs.Prelude.{◌∷◌, [], Some};
ghost use Rattle.machine.specs.{Answers.says, Logins.LoggedIn, Steps.{Answered, Stepped, Looks}};
ghost use Rattle.wire_replies.specs.{Made.Makes, Sinks.Says};

use access::RepoAccess;
use byte_string::ByteString;
use commands::MainCommand;
use machine::{Client, OpenLogin, Options, Phase, Turn};
use repo_api::Repository;
use session_commands::{Request, own_answer};
use session_replies::{Preface, SessionPhase, say_new_behind, stands};
use std::alloc::AllocError;
use std::mem::drop;
use wire_replies::{Reply, ReplySink};

/// Makes what is sent to a client about the repository that it has logged in to.
fn repos_info<R: Repository, A: RepoAccess<View = R>>(
    root: &ByteString,
    access: &mut A,
) -> Result<Reply, AllocError>
    ensures { Looks A.rules A.point access.old access.new
        (λ c. Makes result (Reply.ReposInfo c.uuid root.now)) }
{
    let root = root.clone()?;
    let view = access.look()?;
    Ok(Reply::ReposInfo(view.uuid(), root))
}

/// Tells a client that it has logged in, and of the repository.
fn tell_welcome<R: Repository, A: RepoAccess<View = R>, S: ReplySink>(
    root: &ByteString,
    access: &mut A,
    out: &mut S,
) -> Result<(), AllocError>
    ensures { Looks A.rules A.point access.old access.new (λ c. Says result
        (S.writes out.old out.new) (Reply.Success ∷ Reply.ReposInfo c.uuid root.now ∷ [])) }
{
    let info = repos_info(root, access)?;
    say_new_behind(Preface::Success, info, out)
}

/// Welcomes a client that has logged in. Its commands are awaited.
pub fn welcome<R: Repository, A: RepoAccess<View = R>, S: ReplySink>(
    client: Client,
    access: &mut A,
    turn: &mut Turn<S>,
) -> Result<SessionPhase<R>, AllocError>
    ensures { Looks A.rules A.point access.old access.new
        (λ c. Answered result S.writes turn.old turn.new (says turn.old.env (Phase.Serving client)
        (Reply.Success ∷ Reply.ReposInfo c.uuid client.root ∷ []))) }
{
    let said = tell_welcome(&client.root, access, &mut turn.out);
    stands(Phase::Serving(client), said)
}

/// Goes on with the command that has waited for a login.
fn resume_command<R: Repository, A: RepoAccess<View = R>, S: ReplySink>(
    options: &Options,
    client: Client,
    command: MainCommand,
    access: &mut A,
    turn: &mut Turn<S>,
) -> Result<SessionPhase<R>, AllocError>
    ensures { Stepped result S.writes turn.old turn.new A.rules A.point access.old access.new
        (LoggedIn options.now turn.old.env client (Some command)) }
{
    let request = Request {
        command: &command,
        preface: Preface::Success,
    };
    let phase = own_answer(options, client, request, access, turn);
    drop(command);
    phase
}

/// Logs a client in: it is told of the repository, or the command that has waited goes on.
pub fn log_client_in<R: Repository, A: RepoAccess<View = R>, S: ReplySink>(
    options: &Options,
    login: OpenLogin,
    access: &mut A,
    turn: &mut Turn<S>,
) -> Result<SessionPhase<R>, AllocError>
    ensures { Stepped result S.writes turn.old turn.new A.rules A.point access.old access.new
        (LoggedIn options.now turn.old.env login.client login.waiting) }
{
    let (client, waiting) = login.into_parts();
    match waiting {
        None => welcome(client, access, turn),
        Some(command) => resume_command(options, client, command, access, turn),
    }
}

//! The answer to the greeting.
ghost use Rattle.std.specs.Prelude.{◌≡◌, ◌∷◌, [], Ok, None};
ghost use Rattle.items.specs.View.{value_of};
ghost use Rattle.commands.specs.Logins.{client_greeting};
ghost use Rattle.machine.specs.{Answers.says, Logins.{greeting_answer, new_client, speaks}, Steps.Answered};

use byte_string::ByteString;
use commands::ClientGreeting;
use items::Item;
use machine::{Client, OpenLogin, Options, Phase, Turn};
use refusals::{Refusal, path_refusal};
use repo_api::Repository;
use session_commands::ask_for_login;
use session_replies::{SessionPhase, end_malformed};
use std::alloc::AllocError;
use svnpath::{Path, PathFault, RepositoryUrl};
use wire_forms::CommandFault;
use wire_replies::{Reply, ReplySink, say_new};

/// Says whether a client speaks this protocol.
fn speaks(greeting: &ClientGreeting) -> bool
    ensures { result ≡ speaks greeting.now }
{
    greeting.version == 2 && greeting.edit_pipeline
}

/// Makes the login of a client at this path of the repository, for which nothing waits.
fn new_login(greeting: &ClientGreeting, path: Path, root: ByteString) -> OpenLogin
    ensures { result ≡ record { client = new_client greeting.now path root; waiting = None } }
{
    OpenLogin {
        client: Client {
            path,
            root,
            user: None,
            is_of_today: greeting.mergeinfo,
        },
        waiting: None,
    }
}

/// Ends the session, and tells why.
fn end_refused<R: Repository, S: ReplySink>(
    refusal: Refusal,
    turn: &mut Turn<S>,
) -> Result<SessionPhase<R>, AllocError>
    ensures { Answered result S.writes turn.old turn.new
        (says turn.old.env Phase.Ended (Reply.Failure refusal None ∷ [])) }
{
    say_new(Reply::Failure(refusal, None), &mut turn.out)?;
    Ok(Phase::Ended)
}

/// Asks a client for its login, if it speaks this protocol and names this repository.
fn answer_greeting<R: Repository, S: ReplySink>(
    options: &Options,
    greeting: &ClientGreeting,
    turn: &mut Turn<S>,
) -> Result<SessionPhase<R>, AllocError>
    ensures { Answered result S.writes turn.old turn.new
        (greeting_answer options.now turn.old.env (Ok greeting.now)) }
{
    if !speaks(greeting) {
        return Ok(Phase::Ended);
    }
    match RepositoryUrl::read(turn.alloc, greeting.url.as_slice(), options.name()) {
        Ok(RepositoryUrl { root, path }) => {
            ask_for_login(options, new_login(greeting, path, root), turn)
        },
        Err(PathFault::NoMemory) => Err(AllocError),
        Err(fault) => end_refused(path_refusal(fault), turn),
    }
}

/// Answers the greeting.
pub fn greeting_item<R: Repository, S: ReplySink>(
    options: &Options,
    item: &Item,
    turn: &mut Turn<S>,
) -> Result<SessionPhase<R>, AllocError>
    ensures { Answered result S.writes turn.old turn.new
        (greeting_answer options.now turn.old.env (client_greeting (value_of item.now))) }
{
    match ClientGreeting::from_item(item) {
        Ok(greeting) => answer_greeting(options, &greeting, turn),
        Err(CommandFault::NoMemory) => Err(AllocError),
        Err(_) => end_malformed(turn),
    }
}

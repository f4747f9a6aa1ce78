//! A login is asked for.
ghost use Rattle.std.specs.Prelude.{◌∷◌, []};
ghost use Rattle.machine.specs.{Answers.says, Logins.asks, Steps.Answered};
ghost use Rattle.wire_replies.specs.{Made.Makes, Sinks.Says};

use byte_string::ByteString;
use machine::{OpenLogin, Options, Phase, Turn, offer};
use repo_api::Repository;
use session_replies::{SessionPhase, stands};
use std::alloc::{AllocError, Global};
use wire_replies::{Offer, Reply, ReplySink, say_new};

/// Answers a login that is under way, and awaits the choice of a mechanism.
pub fn await_choice<R: Repository, S: ReplySink>(
    login: OpenLogin,
    reply: &Reply,
    turn: &mut Turn<S>,
) -> Result<SessionPhase<R>, AllocError>
    ensures { Answered result S.writes turn.old turn.new
        (says turn.old.env (Phase.LoggingIn login) (reply.now ∷ [])) }
{
    let said = turn.out.say(reply);
    stands(Phase::LoggingIn(login), said)
}

/// Makes the request of a login to the repository of this name.
fn login_reply(alloc: Global, options: &Options, offered: Offer) -> Result<Reply, AllocError>
    ensures { Makes result (Reply.Login offered options.now.name) }
{
    let realm = ByteString::from_slice(alloc, options.name().as_bytes())?;
    Ok(Reply::Login(offered, realm))
}

/// Asks for a login to the repository of this name.
fn say_login<S: ReplySink>(
    alloc: Global,
    options: &Options,
    offered: Offer,
    out: &mut S,
) -> Result<(), AllocError>
    ensures { Says result (S.writes out.old out.new) (Reply.Login offered options.now.name ∷ []) }
{
    match login_reply(alloc, options, offered) {
        Ok(reply) => say_new(reply, out),
        Err(error) => Err(error),
    }
}

/// Asks a client for its login.
pub fn ask_for_login<R: Repository, S: ReplySink>(
    options: &Options,
    login: OpenLogin,
    turn: &mut Turn<S>,
) -> Result<SessionPhase<R>, AllocError>
    ensures { Answered result S.writes turn.old turn.new (asks options.now turn.old.env login) }
{
    let offered = offer(options, &login.waiting);
    let said = say_login(turn.alloc, options, offered, &mut turn.out);
    stands(Phase::LoggingIn(login), said)
}

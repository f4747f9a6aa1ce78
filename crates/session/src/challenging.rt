//! Challenges: how one is sent, and whose an answer to it is.
ghost use Rattle.std.specs.Prelude.{◌≡◌, ◌≢◌, ◌∷◌, [], None, IfOk};
ghost use Rattle.cram.specs.Answer.{IsAnswerOf};
ghost use Rattle.machine.specs.{Answers.says, Logins.{challenge_of, challenges, logins_or_none, without_nonce}, Steps.Answered};
ghost use Rattle.wire_replies.specs.{Made.Makes, Sinks.Says};

use byte_string::ByteString;
use cram::{Challenge, CramFault};
use machine::{Env, OpenChallenge, OpenLogin, Options, Phase, Turn};
use repo_api::Repository;
use session_replies::SessionPhase;
use std::alloc::{AllocError, Global};
use std::mem::drop;
use wire_replies::{Reply, ReplySink, say_new};

/// Makes a challenge of this moment.
fn new_challenge(alloc: Global, options: &Options, env: Env) -> Result<Challenge, AllocError>
    ensures { Makes result (challenge_of options.now env) }
{
    match Challenge::new(alloc, env.nonce, env.moment, options.name()) {
        Ok(challenge) => Ok(challenge),
        Err(_) => Err(AllocError),
    }
}

/// Sends a challenge.
fn say_challenge<S: ReplySink>(
    alloc: Global,
    challenge: &Challenge,
    out: &mut S,
) -> Result<(), AllocError>
    ensures { Says result (S.writes out.old out.new) (Reply.Challenge challenge.now ∷ []) }
{
    let text = ByteString::from_slice(alloc, challenge.text().as_bytes())?;
    say_new(Reply::Challenge(text), out)
}

/// Sends the challenge of a login, and awaits its answer.
fn await_answer<R: Repository, S: ReplySink>(
    pending: OpenChallenge,
    turn: &mut Turn<S>,
) -> Result<SessionPhase<R>, AllocError>
    ensures { Answered result S.writes turn.old turn.new
        (says (without_nonce turn.old.env) (Phase.Challenged pending)
        (Reply.Challenge pending.challenge ∷ [])) }
{
    match say_challenge(turn.alloc, &pending.challenge, &mut turn.out) {
        Ok(()) => {
            turn.env = turn.env.without_nonce();
            Ok(Phase::Challenged(pending))
        }
        Err(error) => {
            drop(pending);
            Err(error)
        }
    }
}

/// Challenges a client.
pub fn challenge<R: Repository, S: ReplySink>(
    options: &Options,
    login: OpenLogin,
    turn: &mut Turn<S>,
) -> Result<SessionPhase<R>, AllocError>
    ensures { Answered result S.writes turn.old turn.new
        (challenges options.now turn.old.env login) }
{
    match new_challenge(turn.alloc, options, turn.env) {
        Ok(challenge) => await_answer(OpenChallenge { login, challenge }, turn),
        Err(error) => {
            drop(login);
            Err(error)
        }
    }
}

/// Gives nobody, unless memory was refused.
fn none_unless_memory(fault: CramFault) -> Result<Option<ByteString>, AllocError>
    ensures { IfOk result (λ user. (fault ≢ CramFault.NoMemory) × (user ≡ None)) }
{
    match fault {
        CramFault::NoMemory => Err(AllocError),
        _ => Ok(None),
    }
}

/// Finds the user whose right answer to the challenge a text is, if it is any user's.
pub fn user_of(
    alloc: Global,
    options: &Options,
    challenge: &Challenge,
    answer: &[u8],
) -> Result<Option<ByteString>, AllocError>
    ensures { IfOk result (λ user.
        IsAnswerOf challenge.now (logins_or_none options.now.users) answer.now user) }
{
    let Some(users) = options.users() else {
        return Ok(None);
    };
    match challenge.check(alloc, answer, users) {
        Ok(user) => Ok(Some(user.into_name())),
        Err(fault) => none_unless_memory(fault),
    }
}

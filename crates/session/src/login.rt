//! The login.
ghost use Rattle.std.specs.Prelude.{◌≡◌, None, Ok, Some};
ghost use Rattle.items.specs.View.{value_of};
ghost use Rattle.commands.specs.Logins.{auth_response, challenge_answer};
ghost use Rattle.machine.specs.{Answers.malformed, Logins.{ChallengeStep, LoggedIn, LoginStep, OutcomeStep, as_account, with_user}, Steps.{Answered, Stepped}};

use crate::challenging::{challenge, user_of};
use crate::welcoming::{log_client_in, welcome};
use access::RepoAccess;
use byte_string::ByteString;
use commands::{AuthResponse, challenge_answer};
use items::Item;
use machine::{Client, Mechanism, OpenChallenge, OpenLogin, Options, Turn, chosen, offer};
use repo_api::Repository;
use session_commands::await_choice;
use session_replies::{SessionPhase, end_malformed};
use std::alloc::AllocError;
use std::mem::drop;
use wire_forms::{CommandFault, copy_optional};
use wire_replies::{Reply, ReplySink};

/// Goes on with a mechanism that was chosen.
fn choose_mechanism<R: Repository, A: RepoAccess<View = R>, S: ReplySink>(
    options: &Options,
    login: OpenLogin,
    response: &AuthResponse,
    access: &mut A,
    turn: &mut Turn<S>,
) -> Result<SessionPhase<R>, AllocError>
    ensures { Stepped result S.writes turn.old turn.new A.rules A.point access.old access.new
        (LoginStep options.now turn.old.env login (Ok response.now)) }
{
    let offered = offer(options, &login.waiting);
    match chosen(offered, response.mechanism.as_slice()) {
        Some(Mechanism::Anonymous) => log_client_in(options, login, access, turn),
        Some(Mechanism::CramMd5) => challenge(options, login, turn),
        Some(Mechanism::External) => log_account_in(options, login, access, turn),
        None => await_choice(login, &Reply::MechanismNotOffered, turn),
    }
}

/// Ends the session of a login over what chooses no mechanism.
fn end_login<R: Repository, S: ReplySink>(
    login: OpenLogin,
    turn: &mut Turn<S>,
) -> Result<SessionPhase<R>, AllocError>
    ensures { Answered result S.writes turn.old turn.new (malformed turn.old.env) }
{
    drop(login);
    end_malformed(turn)
}

/// Answers the choice of a mechanism.
pub fn login_item<R: Repository, A: RepoAccess<View = R>, S: ReplySink>(
    options: &Options,
    login: OpenLogin,
    item: &Item,
    access: &mut A,
    turn: &mut Turn<S>,
) -> Result<SessionPhase<R>, AllocError>
    ensures { Stepped result S.writes turn.old turn.new A.rules A.point access.old access.new
        (LoginStep options.now turn.old.env login (auth_response (value_of item.now))) }
{
    match AuthResponse::from_item(turn.alloc, item) {
        Ok(response) => choose_mechanism(options, login, &response, access, turn),
        Err(CommandFault::UnknownName) => end_login(login, turn),
        Err(CommandFault::BadParameters) => end_login(login, turn),
        Err(CommandFault::NoMemory) => {
            drop(login);
            Err(AllocError)
        }
    }
}

/// Gives the same client, of this user.
fn with_user(client: Client, user: Option<ByteString>) -> Client
    ensures { result ≡ record client { user = user } }
{
    let (path, root, before, is_of_today) = client.into_parts();
    drop(before);
    Client {
        path,
        root,
        user,
        is_of_today,
    }
}

/// Gives the same login, of this user.
fn login_of(login: OpenLogin, name: ByteString) -> OpenLogin
    ensures { result ≡ record login { client = with_user login.client name } }
{
    let (client, waiting) = login.into_parts();
    OpenLogin {
        client: with_user(client, Some(name)),
        waiting,
    }
}

/// Logs a client in as the account that it came as, for whose login no command waits.
fn log_account_in<R: Repository, A: RepoAccess<View = R>, S: ReplySink>(
    options: &Options,
    login: OpenLogin,
    access: &mut A,
    turn: &mut Turn<S>,
) -> Result<SessionPhase<R>, AllocError>
    ensures { Stepped result S.writes turn.old turn.new A.rules A.point access.old access.new
        (LoggedIn options.now turn.old.env (as_account login.client options.now.account) None) }
{
    let (client, waiting) = login.into_parts();
    drop(waiting);
    match copy_optional(options.account()) {
        Ok(account) => welcome(with_user(client, account), access, turn),
        Err(error) => {
            drop(client);
            Err(error)
        }
    }
}

/// Concludes a challenge: the answer was this user's, or nobody's.
fn end_challenge<R: Repository, A: RepoAccess<View = R>, S: ReplySink>(
    options: &Options,
    login: OpenLogin,
    user: Option<ByteString>,
    access: &mut A,
    turn: &mut Turn<S>,
) -> Result<SessionPhase<R>, AllocError>
    ensures { Stepped result S.writes turn.old turn.new A.rules A.point access.old access.new
        (OutcomeStep options.now turn.old.env login user) }
{
    match user {
        Some(name) => log_client_in(options, login_of(login, name), access, turn),
        None => await_choice(login, &Reply::LoginFailed, turn),
    }
}

/// Judges the answer to a challenge.
fn judge_answer<R: Repository, A: RepoAccess<View = R>, S: ReplySink>(
    options: &Options,
    pending: OpenChallenge,
    answer: &[u8],
    access: &mut A,
    turn: &mut Turn<S>,
) -> Result<SessionPhase<R>, AllocError>
    ensures { Stepped result S.writes turn.old turn.new A.rules A.point access.old access.new
        (ChallengeStep options.now turn.old.env pending (Some answer.now)) }
{
    let (login, challenge) = pending.into_parts();
    let user = user_of(turn.alloc, options, &challenge, answer);
    drop(challenge);
    match user {
        Ok(user) => end_challenge(options, login, user, access, turn),
        Err(error) => {
            drop(login);
            Err(error)
        }
    }
}

/// Takes an item that is to be the answer to a challenge.
pub fn challenge_item<R: Repository, A: RepoAccess<View = R>, S: ReplySink>(
    options: &Options,
    pending: OpenChallenge,
    item: &Item,
    access: &mut A,
    turn: &mut Turn<S>,
) -> Result<SessionPhase<R>, AllocError>
    ensures { Stepped result S.writes turn.old turn.new A.rules A.point access.old access.new
        (ChallengeStep options.now turn.old.env pending (challenge_answer (value_of item.now))) }
{
    match challenge_answer(item) {
        Some(answer) => judge_answer(options, pending, answer.as_slice(), access, turn),
        None => {
            drop(pending);
            end_malformed(turn)
        }
    }
}

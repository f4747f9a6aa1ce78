//! A login that is under way.
ghost use Rattle.std.specs.Prelude.{◌≡◌};
ghost use Rattle.machine.specs.Commands.{env_without_token};
ghost use Rattle.machine.specs.Logins.{chosen, first_offer, later_offer, offer, without_nonce};
ghost use Rattle.machine.specs.Logins.{offers_anonymous, offers_external, offers_user};

use crate::env::Env;
use crate::options::Options;
use crate::phase::Client;
use commands::MainCommand;
use cram::Challenge;
use wire_replies::Offer;

/// How a client logs in.
#[derive(Clone, Copy, Debug, PartialEq, Eq)]
pub enum Mechanism {
    /// Without a name.
    Anonymous,
    /// As a user, by its password.
    CramMd5,
    /// As the account that the client came as.
    External,
}

/// A client whose login is awaited, and the write command that waits for it, if one does.
pub struct OpenLogin {
    pub client: Client,
    pub waiting: Option<MainCommand>,
}

impl Drop for OpenLogin {
    fn drop(self) {
        let OpenLogin {
            client: _,
            waiting: _,
        } = self;
    }
}

impl OpenLogin {
    /// Gives its client, and the command that waits.
    pub fn into_parts(self) -> (Client, Option<MainCommand>)
        ensures client { result.0 ≡ self.client }
        ensures waiting { result.1 ≡ self.waiting }
    {
        let OpenLogin { client, waiting } = self;
        (client, waiting)
    }
}

/// A login whose challenge was sent, and its answer is awaited.
pub struct OpenChallenge {
    pub login: OpenLogin,
    pub challenge: Challenge,
}

impl Drop for OpenChallenge {
    fn drop(self) {
        let OpenChallenge {
            login: _,
            challenge: _,
        } = self;
    }
}

impl OpenChallenge {
    /// Gives its login and its challenge.
    pub fn into_parts(self) -> (OpenLogin, Challenge)
        ensures login { result.0 ≡ self.login }
        ensures challenge { result.1 ≡ self.challenge }
    {
        let OpenChallenge { login, challenge } = self;
        (login, challenge)
    }
}

/// Says what is offered to a client, for which a command may wait.
pub fn offer(options: &Options, waiting: &Option<MainCommand>) -> Offer
    ensures { result ≡ offer options.now.account options.now.users waiting.now }
{
    match waiting {
        None => first_offer(options),
        Some(_) => later_offer(options),
    }
}

/// Says what is offered to a client for which no command waits.
fn first_offer(options: &Options) -> Offer
    ensures { result ≡ first_offer options.now.account options.now.users }
{
    match (options.account(), options.users()) {
        (Some(_), _) => Offer::External,
        (None, None) => Offer::Anonymous,
        (None, Some(_)) => Offer::AnonymousOrUser,
    }
}

/// Says what is offered to a client for which a command waits.
fn later_offer(options: &Options) -> Offer
    ensures { result ≡ later_offer options.now.users }
{
    match options.users() {
        None => Offer::Anonymous,
        Some(_) => Offer::User,
    }
}

/// Finds the mechanism of this name, if it is offered.
pub fn chosen(offered: Offer, name: &[u8]) -> Option<Mechanism>
    ensures { result ≡ chosen offered name.now }
{
    if offers_anonymous(offered) && name == b"ANONYMOUS".as_slice() {
        Some(Mechanism::Anonymous)
    } else if offers_user(offered) && name == b"CRAM-MD5".as_slice() {
        Some(Mechanism::CramMd5)
    } else if offers_external(offered) && name == b"EXTERNAL".as_slice() {
        Some(Mechanism::External)
    } else {
        None
    }
}

/// Says whether a login without a name is offered, alone or beside one as a user.
fn offers_anonymous(offered: Offer) -> bool
    ensures { result ≡ offers_anonymous offered }
{
    matches!(offered, Offer::Anonymous | Offer::AnonymousOrUser)
}

/// Says whether a login as a user is offered, alone or beside one without a name.
fn offers_user(offered: Offer) -> bool
    ensures { result ≡ offers_user offered }
{
    matches!(offered, Offer::AnonymousOrUser | Offer::User)
}

/// Says whether a login as an account is offered.
fn offers_external(offered: Offer) -> bool
    ensures { result ≡ offers_external offered }
{
    matches!(offered, Offer::External)
}

impl Env {
    /// Gives the words that are left once the nonce is used.
    pub fn without_nonce(self) -> Env
        ensures { result ≡ without_nonce self }
    {
        Env {
            moment: self.moment,
            token: self.token,
            nonce: self.nonce.wrapping_add(1),
        }
    }

    /// Gives the words that are left once the token is used.
    pub fn without_token(self) -> Env
        ensures { result ≡ env_without_token self }
    {
        Env {
            moment: self.moment,
            token: self.token.wrapping_add(1),
            nonce: self.nonce,
        }
    }
}

//! Where a session stands.
ghost use Rattle.std.specs.Prelude.{◌≡◌, option_copied};
ghost use Rattle.machine.specs.Stages.{is_open, user_in};

use crate::commit_parameters::CommitParameters;
use crate::login::{OpenChallenge, OpenLogin};
use byte_string::ByteString;
use reporter::Report;
use svnpath::Path;

/// Where a client is: the path of its URL in the repository, the root's URL as it spells it, and its user,
/// if it has one; and whether it is a client of today.
pub struct Client {
    pub path: Path,
    pub root: ByteString,
    pub user: Option<ByteString>,
    pub is_of_today: bool,
}

impl Drop for Client {
    fn drop(self) {
        let Client {
            path: _,
            root: _,
            user: _,
            is_of_today: _,
        } = self;
    }
}

impl Client {
    /// Gives its path, its root, its user and whether it is a client of today.
    pub fn into_parts(self) -> (Path, ByteString, Option<ByteString>, bool)
        ensures path { result.0 ≡ self.path }
        ensures root { result.1 ≡ self.root }
        ensures user { result.2 ≡ self.user }
        ensures is_of_today { result.3 ≡ self.is_of_today }
    {
        let Client {
            path,
            root,
            user,
            is_of_today,
        } = self;
        (path, root, user, is_of_today)
    }
}

/// An edit that is open: whose it is, what its commit asks for, and what it has made so far.
#[derive(Drop)]
pub struct OpenEdit<E> {
    pub client: Client,
    pub asked: CommitParameters,
    pub editor: E,
}

/// A report on its way: whose it is, and what it has come to.
pub struct OpenReporting<G> {
    pub client: Client,
    pub report: Report<G>,
}

impl<G: Drop> Drop for OpenReporting<G> {
    fn drop(self) {
        let OpenReporting {
            client: _,
            report: _,
        } = self;
    }
}

impl<G> OpenReporting<G> {
    /// Gives its client and its report.
    pub fn into_parts(self) -> (Client, Report<G>)
        ensures client { result.0 ≡ self.client }
        ensures report { result.1 ≡ self.report }
    {
        let OpenReporting { client, report } = self;
        (client, report)
    }
}

/// Where a session stands; `E` is what an edit has made, `G` is what a report has put.
#[derive(Drop)]
pub enum Phase<E, G> {
    /// The answer to the greeting is awaited.
    Greeted,
    /// The choice of a mechanism is awaited.
    LoggingIn(OpenLogin),
    /// The answer to a challenge is awaited.
    Challenged(OpenChallenge),
    /// Commands are awaited.
    Serving(Client),
    /// Commands of an edit are awaited.
    Editing(OpenEdit<E>),
    /// An edit was given up, and its end is awaited.
    Skipping(Client),
    /// Commands of a report are awaited.
    Reporting(OpenReporting<G>),
    /// The client's answer to a drive is awaited.
    Driven(Client),
    /// Nothing is heard any more.
    Ended,
}

impl<E, G> Phase<E, G> {
    /// Says whether the session hears what comes.
    pub fn is_open(&self) -> bool
        ensures { result ≡ is_open self.now }
    {
        !matches!(self, Phase::Ended)
    }

    /// Gives the user that the client has logged in as, if it has.
    pub fn user(&self) -> Option<&ByteString>
        ensures { option_copied result ≡ user_in self.now }
    {
        match self {
            Phase::Greeted => None,
            Phase::LoggingIn(login) => login.client.user.as_ref(),
            Phase::Challenged(pending) => pending.login.client.user.as_ref(),
            Phase::Serving(client) => client.user.as_ref(),
            Phase::Editing(edit) => edit.client.user.as_ref(),
            Phase::Skipping(client) => client.user.as_ref(),
            Phase::Reporting(reporting) => reporting.client.user.as_ref(),
            Phase::Driven(client) => client.user.as_ref(),
            Phase::Ended => None,
        }
    }
}

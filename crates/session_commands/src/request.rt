//! A command that is to be answered: what its client is told before, and whether it waits for a
//! login.
ghost use Rattle.std.specs.Prelude.{◌≡◌};
ghost use Rattle.machine.specs.{Commands.{is_write, login_request}, Logins.wants_user};
ghost use Rattle.session_replies.specs.Telling.{told_before};

use commands::MainCommand;
use machine::{Client, Options};
use session_replies::Preface;

/// A command that is to be answered, and what its client is told before.
#[derive(Clone, Copy)]
pub struct Request<'a> {
    pub command: &'a MainCommand,
    pub preface: Preface,
}

/// Says what the client of a command is sent before the command's own answer.
pub(crate) fn preface_of(command: &MainCommand) -> Preface
    ensures { told_before result ≡ login_request command.now }
{
    match command {
        MainCommand::Read(_) => Preface::NoLogin,
        MainCommand::Drive(_) => Preface::NoLogin,
        MainCommand::Commit(_) => Preface::NoLogin,
        MainCommand::AbortEdit => Preface::Nothing,
        MainCommand::Lock(_) => Preface::NoLogin,
        MainCommand::Unlock(_) => Preface::NoLogin,
        MainCommand::ChangeRevProp(_) => Preface::NoLogin,
        MainCommand::Reparent(_) => Preface::NoLogin,
    }
}

/// Says whether a command writes.
fn is_write(command: &MainCommand) -> bool
    ensures { result ≡ is_write command.now }
{
    match command {
        MainCommand::Read(_) => false,
        MainCommand::Drive(_) => false,
        MainCommand::Commit(_) => true,
        MainCommand::AbortEdit => false,
        MainCommand::Lock(_) => true,
        MainCommand::Unlock(_) => true,
        MainCommand::ChangeRevProp(_) => true,
        MainCommand::Reparent(_) => false,
    }
}

/// Says whether a command waits for the login of a user: it writes, its client has no user, and there are users.
pub(crate) fn wants_user(options: &Options, client: &Client, command: &MainCommand) -> bool
    ensures { result ≡ wants_user options.now client.now command.now }
{
    options.users().is_some() && client.user.is_none() && is_write(command)
}

//! The program with its commands, as they are shown and parsed.

use crate::version::VERSION;
use clap::{Arg, ArgAction, Command};
use std::alloc::{AllocError, Global};

/// The command that makes a repository.
pub(crate) const CREATE: &str = "create";

/// The command that copies a repository into another format.
pub(crate) const MIGRATE: &str = "migrate";

/// The command that serves one session over the standard streams.
pub(crate) const STDIO: &str = "stdio";

/// The command that serves sessions over TCP.
pub(crate) const SERVE: &str = "serve";

/// The command that asks a server whether it serves.
pub(crate) const STATUS: &str = "status";

/// The argument that says where a server listens.
pub(crate) const ADDRESS: &str = "ADDRESS:PORT";

/// The argument that names the folder.
pub(crate) const FOLDER: &str = "DIR";

/// The argument that names the folder of the copy.
pub(crate) const NEW: &str = "NEW";

/// The argument that says which format a new repository is of.
pub(crate) const FORMAT: &str = "format";

/// The argument that names the repository.
pub(crate) const NAME: &str = "name";

/// The argument that names the account that a client came as.
pub(crate) const TUNNEL_USER: &str = "tunnel-user";

/// The argument that says where to listen, which may be there several times.
pub(crate) const LISTEN: &str = "listen";

/// The argument that names the file of users.
pub(crate) const USERS: &str = "users";

/// The argument that says how many sessions there may be at a time.
pub(crate) const SESSIONS: &str = "sessions";

/// The argument that says how many sessions the clients of one address may have.
pub(crate) const PER_ADDRESS: &str = "per-address";

/// The argument that lets clients change the properties of revisions.
pub(crate) const REVPROPS: &str = "revprops";

/// The argument by which nothing is told on standard error but a fault.
pub(crate) const QUIET: &str = "quiet";

/// The argument by which the program ends once changes have come to a halt.
pub(crate) const EXIT_ON_HALT: &str = "exit-on-halt";

/// Makes an argument with a value that has to be there.
fn required_argument<'a>(alloc: Global, name: &'a str, value: &'a str, help: &'a str) -> Arg<'a> {
    optional_argument(alloc, name, value, help).required(true)
}

/// Makes an argument with a value that may be left out.
fn optional_argument<'a>(alloc: Global, name: &'a str, value: &'a str, help: &'a str) -> Arg<'a> {
    Arg::new(alloc, name)
        .long(name)
        .value_name(value)
        .help(help)
}

/// Makes an argument without a value.
fn flag_argument<'a>(alloc: Global, name: &'a str, help: &'a str) -> Arg<'a> {
    Arg::new(alloc, name)
        .long(name)
        .action(ArgAction::SetTrue)
        .help(help)
}

/// Makes the argument for the folder of the repository.
fn folder_argument<'a>(alloc: Global, help: &'a str) -> Arg<'a> {
    Arg::new(alloc, FOLDER).required(true).help(help)
}

/// Makes the argument that names the repository.
fn name_argument<'a>(alloc: Global) -> Arg<'a> {
    required_argument(
        alloc,
        NAME,
        "NAME",
        "The repository's name in URLs: 1 to 64 of A-Z, a-z, 0-9, `-`, `_` and `.`",
    )
}

/// Makes the argument that says whether clients may change the properties of revisions.
fn revprops_argument<'a>(alloc: Global) -> Arg<'a> {
    flag_argument(
        alloc,
        REVPROPS,
        "Lets clients change the properties of revisions",
    )
}

/// Makes the argument that names the account that a client came as.
fn tunnel_user_argument<'a>(alloc: Global) -> Arg<'a> {
    optional_argument(
        alloc,
        TUNNEL_USER,
        "NAME",
        "The account that the client came as: it logs in by this name, and its commits and locks are by it",
    )
}

/// Makes the argument that says where to listen, which may be there several times.
fn listen_argument<'a>(alloc: Global) -> Arg<'a> {
    required_argument(
        alloc,
        LISTEN,
        "ADDRESS:PORT",
        "Where to listen: an IPv4 address, or an IPv6 address in brackets, and a port, where 0 is one that is free; once for each address",
    )
    .action(ArgAction::Append)
}

/// Makes the argument that names the file of users.
fn users_argument<'a>(alloc: Global) -> Arg<'a> {
    required_argument(
        alloc,
        USERS,
        "FILE",
        "The file of users: a line `[users]`, and after it lines `name = password`",
    )
}

/// Makes the argument that says how many sessions there may be at a time.
fn sessions_argument<'a>(alloc: Global) -> Arg<'a> {
    optional_argument(
        alloc,
        SESSIONS,
        "COUNT",
        "How many sessions there may be at a time, 1 to 1024; without it 16",
    )
}

/// Makes the argument that says how many sessions the clients of one address may have.
fn per_address_argument<'a>(alloc: Global) -> Arg<'a> {
    optional_argument(
        alloc,
        PER_ADDRESS,
        "COUNT",
        "How many of them one address may have, 1 to all; without it all",
    )
}

/// Makes the argument that says which format a new repository is of.
fn format_argument<'a>(alloc: Global) -> Arg<'a> {
    optional_argument(
        alloc,
        FORMAT,
        "FORMAT",
        "Its format, 2 or 3; without it 3, which Subversion 1.5 and later read",
    )
}

/// Makes the command `create DIR [--format FORMAT]`.
fn create_command<'a>(alloc: Global) -> Result<Command<'a>, AllocError> {
    Command::new(alloc, CREATE)
        .about("Makes an empty repository")
        .arg(folder_argument(
            alloc,
            "The repository's folder, which is made if it is missing",
        ))?
        .arg(format_argument(alloc))
}

/// Makes the argument by which nothing is told on standard error but a fault.
fn quiet_argument<'a>(alloc: Global) -> Arg<'a> {
    flag_argument(alloc, QUIET, "Writes nothing on standard error but a fault")
}

/// Makes the argument by which the program ends once changes have come to a halt.
fn exit_on_halt_argument<'a>(alloc: Global) -> Arg<'a> {
    flag_argument(
        alloc,
        EXIT_ON_HALT,
        "Ends with status 1 once changes have come to a halt and all sessions have ended",
    )
}

/// Makes the command `migrate DIR NEW [--quiet]`.
fn migrate_command<'a>(alloc: Global) -> Result<Command<'a>, AllocError> {
    Command::new(alloc, MIGRATE)
        .about("Copies a repository of format 2 into a new one of format 3")
        .arg(folder_argument(
            alloc,
            "The repository's folder, which stays as it is; nothing may serve it meanwhile",
        ))?
        .arg(
            Arg::new(alloc, NEW)
                .required(true)
                .help("The folder of the copy, which is made if it is missing"),
        )?
        .arg(quiet_argument(alloc))
}

/// Makes the command `stdio DIR --name NAME [--tunnel-user NAME] [--revprops]`.
fn stdio_command<'a>(alloc: Global) -> Result<Command<'a>, AllocError> {
    Command::new(alloc, STDIO)
        .about("Serves one client over standard input and output")
        .arg(folder_argument(
            alloc,
            "The repository's folder, as `create` makes it; `-` is an empty repository in memory",
        ))?
        .arg(name_argument(alloc))?
        .arg(tunnel_user_argument(alloc))?
        .arg(revprops_argument(alloc))
}

/// Makes the command `serve DIR --listen ADDRESS:PORT.. --name NAME --users FILE [--sessions COUNT] [--per-address COUNT]
/// [--revprops] [--quiet] [--exit-on-halt]`.
fn serve_command<'a>(alloc: Global) -> Result<Command<'a>, AllocError> {
    Command::new(alloc, SERVE)
        .about("Serves many clients at a time over TCP, at svn://HOST:PORT/NAME")
        .arg(folder_argument(alloc, "The repository's folder, as `create` makes it"))?
        .arg(listen_argument(alloc))?
        .arg(name_argument(alloc))?
        .arg(users_argument(alloc))?
        .arg(sessions_argument(alloc))?
        .arg(per_address_argument(alloc))?
        .arg(revprops_argument(alloc))?
        .arg(quiet_argument(alloc))?
        .arg(exit_on_halt_argument(alloc))
}

/// Makes the command `status ADDRESS:PORT --name NAME`.
fn status_command<'a>(alloc: Global) -> Result<Command<'a>, AllocError> {
    Command::new(alloc, STATUS)
        .about("Asks a server for its youngest revision, as a client that only reads")
        .arg(
            Arg::new(alloc, ADDRESS).required(true).help(
                "Where it listens: an IPv4 address, or an IPv6 address in brackets, and a port",
            ),
        )?
        .arg(name_argument(alloc))
}

/// Makes the program with its commands.
pub(crate) fn program<'a>(alloc: Global) -> Result<Command<'a>, AllocError> {
    Command::new(alloc, "svnserved")
        .about("A Subversion server")
        .version(VERSION)
        .subcommand_required(true)
        .subcommand(create_command(alloc)?)?
        .subcommand(migrate_command(alloc)?)?
        .subcommand(stdio_command(alloc)?)?
        .subcommand(serve_command(alloc)?)?
        .subcommand(status_command(alloc)?)
}

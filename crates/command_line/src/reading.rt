//! How a command line is read.
ghost use Rattle.std.specs.Prelude.{◌≡◌, IfOk, IfSome, MatchOption, Some};
ghost use Rattle.command_line.specs.{Counts.{IsCount, IsWithin}, declared.order.TheConstants.SESSION_LIMIT};

use crate::fault::CommandLineFault;
use crate::order::{Location, NewFormat, Order, SESSION_LIMIT, Service, SoleSession};
use crate::program::{
    ADDRESS, CREATE, EXIT_ON_HALT, FOLDER, FORMAT, LISTEN, MIGRATE, NAME, NEW, PER_ADDRESS, QUIET,
    REVPROPS, SERVE, SESSIONS, STATUS, TUNNEL_USER, USERS, program,
};
use clap::error::ErrorKind;
use clap::{ArgMatches, Error};
use std::alloc::Global;

/// How many sessions there may be at a time where nothing is said of it.
const USUAL_SESSIONS: u64 = 16;

/// The most bytes of an account's name.
const ACCOUNT_LIMIT: usize = 255;

/// The folder that stands for an empty repository in memory.
const IN_MEMORY: &str = "-";

/// Makes the fault of a command line that cannot be served, with the text that says so.
fn bad(alloc: Global, text: &str) -> CommandLineFault {
    match String::from_str(alloc, text) {
        Ok(text) => CommandLineFault::Bad(text),
        Err(_) => CommandLineFault::NoMemory,
    }
}

/// Says what a parse that failed comes to.
fn fault_of(alloc: Global, error: &Error) -> CommandLineFault {
    if error.kind() == ErrorKind::OutOfMemory {
        return CommandLineFault::NoMemory;
    }
    match format!(in alloc; "{error}") {
        Ok(text) if error.use_stderr() => CommandLineFault::Bad(text),
        Ok(text) => CommandLineFault::Help(text),
        Err(_) => CommandLineFault::NoMemory,
    }
}

/// Makes a copy of the value of an argument that has to be there.
fn value_of(
    alloc: Global,
    matches: &ArgMatches<'_>,
    name: &str,
) -> Result<String, CommandLineFault> {
    match matches.get_str(name) {
        Some(value) => Ok(String::from_str(alloc, value)?),
        None => Err(bad(alloc, "error: an argument is missing\n")),
    }
}

/// Makes copies of the values of an argument that has to be there, in the order in which they are.
fn values_of(
    alloc: Global,
    matches: &ArgMatches<'_>,
    name: &str,
) -> Result<Vec<String>, CommandLineFault> {
    let Some(values) = matches.get_strs(name) else {
        return Err(bad(alloc, "error: an argument is missing\n"));
    };
    let mut copies = Vec::new(alloc);
    for value in values {
        copies.push(String::from_str(alloc, value)?)?;
    }
    Ok(copies)
}

/// Gives the folder of the repository.
fn folder_of(alloc: Global, matches: &ArgMatches<'_>) -> Result<String, CommandLineFault> {
    let folder = value_of(alloc, matches, FOLDER)?;
    if folder.is_empty() {
        return Err(bad(alloc, "error: DIR is empty\n"));
    }
    Ok(folder)
}

/// Gives the folder of the repository where it can't be in memory; the text says so.
fn real_folder_of(
    alloc: Global,
    matches: &ArgMatches<'_>,
    refusal: &str,
) -> Result<String, CommandLineFault> {
    if matches.get_str(FOLDER) == Some(IN_MEMORY) {
        return Err(bad(alloc, refusal));
    }
    folder_of(alloc, matches)
}

/// Says where the repository is.
fn location_of(alloc: Global, matches: &ArgMatches<'_>) -> Result<Location, CommandLineFault> {
    if matches.get_str(FOLDER) == Some(IN_MEMORY) {
        return Ok(Location::Memory);
    }
    Ok(Location::Folder(folder_of(alloc, matches)?))
}

/// Says which format a new repository is of.
fn format_of(alloc: Global, matches: &ArgMatches<'_>) -> Result<NewFormat, CommandLineFault> {
    match matches.get_str(FORMAT) {
        None | Some("3") => Ok(NewFormat::Three),
        Some("2") => Ok(NewFormat::Two),
        Some(_) => Err(bad(alloc, "error: FORMAT of --format is 2 or 3\n")),
    }
}

/// Makes the order that the arguments of `create` give.
fn create_order(alloc: Global, matches: &ArgMatches<'_>) -> Result<Order, CommandLineFault> {
    let format = format_of(alloc, matches)?;
    Ok(Order::Create {
        folder: real_folder_of(alloc, matches, "error: DIR of `create` is a folder\n")?,
        format,
    })
}

/// Gives the folder of a copy.
fn new_folder_of(alloc: Global, matches: &ArgMatches<'_>) -> Result<String, CommandLineFault> {
    let new = value_of(alloc, matches, NEW)?;
    if new.is_empty() || new.as_str() == IN_MEMORY {
        return Err(bad(alloc, "error: NEW of `migrate` is a folder\n"));
    }
    Ok(new)
}

/// Makes the order that the arguments of `migrate` give.
fn migrate_order(alloc: Global, matches: &ArgMatches<'_>) -> Result<Order, CommandLineFault> {
    let folder = real_folder_of(alloc, matches, "error: DIR of `migrate` is a folder\n")?;
    let new = new_folder_of(alloc, matches)?;
    Ok(Order::Migrate {
        folder,
        new,
        quiet: matches.get_flag(QUIET),
    })
}

/// Says whether an account may have this name: 1 to 255 bytes, and no control character of ASCII.
fn is_account(name: &str) -> bool {
    let bytes = name.as_bytes();
    !bytes.is_empty()
        && bytes.len() <= ACCOUNT_LIMIT
        && !bytes.iter().any(|byte| byte.is_ascii_control())
}

/// Gives the account that the client came as, if that is said.
fn account_of(alloc: Global, matches: &ArgMatches<'_>) -> Result<Option<String>, CommandLineFault> {
    match matches.get_str(TUNNEL_USER) {
        None => Ok(None),
        Some(name) if is_account(name) => Ok(Some(String::from_str(alloc, name)?)),
        Some(_) => Err(bad(
            alloc,
            "error: NAME of --tunnel-user is 1 to 255 bytes, without control characters\n",
        )),
    }
}

/// Makes the order that the arguments of `stdio` give.
fn stdio_order(alloc: Global, matches: &ArgMatches<'_>) -> Result<Order, CommandLineFault> {
    let location = location_of(alloc, matches)?;
    let name = value_of(alloc, matches, NAME)?;
    Ok(Order::Stdio(SoleSession {
        location,
        name,
        account: account_of(alloc, matches)?,
        revprops: matches.get_flag(REVPROPS),
    }))
}

/// Reads a count from 1 to so many; none where the word is no such count.
fn read_count(word: &str, most: u64) -> Option<u64>
    ensures said { IfSome result (IsCount word.now) }
    ensures within { IfSome result (IsWithin most) }
{
    match word.parse::<u64>() {
        Ok(count) if count >= 1 && count <= most => Some(count),
        _ => None,
    }
}

/// Gives the count from 1 to so many that a word is; without a word the usual one.
fn count_or_usual(word: Option<&str>, most: u64, usual: u64) -> Option<u64>
    requires { IsWithin most usual }
    ensures said { MatchOption word.entry (result ≡ Some usual) (λ w. IfSome result (IsCount w.now)) }
    ensures within { IfSome result (IsWithin most) }
{
    match word {
        Some(word) => read_count(word, most),
        None => Some(usual),
    }
}

/// Makes the fault of an argument that is no count from 1 to so many.
fn bad_count(alloc: Global, name: &str, most: u64) -> CommandLineFault {
    match format!(in alloc; "error: COUNT of --{name} is 1 to {most}\n") {
        Ok(text) => CommandLineFault::Bad(text),
        Err(_) => CommandLineFault::NoMemory,
    }
}

/// Gives the count from 1 to so many that an argument says; without it the usual one.
fn count_of(
    alloc: Global,
    matches: &ArgMatches<'_>,
    name: &str,
    most: u64,
    usual: u64,
) -> Result<u64, CommandLineFault>
    requires { IsWithin most usual }
    ensures { IfOk result (IsWithin most) }
{
    match count_or_usual(matches.get_str(name), most, usual) {
        Some(count) => Ok(count),
        None => Err(bad_count(alloc, name, most)),
    }
}

/// Says how many sessions there may be at a time, and how many of them one address may have.
fn counts_of(alloc: Global, matches: &ArgMatches<'_>) -> Result<(u64, u64), CommandLineFault>
    ensures { IfOk result (λ counts. IsWithin SESSION_LIMIT counts.0 × IsWithin counts.0 counts.1) }
{
    let sessions = count_of(alloc, matches, SESSIONS, SESSION_LIMIT, USUAL_SESSIONS)?;
    let per_address = count_of(alloc, matches, PER_ADDRESS, sessions, sessions)?;
    Ok((sessions, per_address))
}

/// Makes the order that the arguments of `serve` give.
fn serve_order(alloc: Global, matches: &ArgMatches<'_>) -> Result<Order, CommandLineFault> {
    let location = location_of(alloc, matches)?;
    let listen = values_of(alloc, matches, LISTEN)?;
    let name = value_of(alloc, matches, NAME)?;
    let users = value_of(alloc, matches, USERS)?;
    let (sessions, per_address) = counts_of(alloc, matches)?;
    Ok(Order::Serve(Service {
        location,
        listen,
        name,
        users,
        sessions,
        per_address,
        revprops: matches.get_flag(REVPROPS),
        quiet: matches.get_flag(QUIET),
        exit_on_halt: matches.get_flag(EXIT_ON_HALT),
    }))
}

/// Makes the order that the arguments of `status` give.
fn status_order(alloc: Global, matches: &ArgMatches<'_>) -> Result<Order, CommandLineFault> {
    Ok(Order::Status {
        address: value_of(alloc, matches, ADDRESS)?,
        name: value_of(alloc, matches, NAME)?,
    })
}

/// Reads the words of a command line, the program's own name first.
pub fn read_command_line(alloc: Global, words: &[String]) -> Result<Order, CommandLineFault> {
    match program(alloc)?.try_get_matches_from(words) {
        Ok(matches) => match matches.subcommand() {
            Some((CREATE, arguments)) => create_order(alloc, arguments),
            Some((MIGRATE, arguments)) => migrate_order(alloc, arguments),
            Some((SERVE, arguments)) => serve_order(alloc, arguments),
            Some((STATUS, arguments)) => status_order(alloc, arguments),
            Some((_, arguments)) => stdio_order(alloc, arguments),
            None => Err(bad(alloc, "error: a command is missing\n")),
        },
        Err(error) if error.kind() == ErrorKind::DisplayVersion => Ok(Order::Version),
        Err(error) => Err(fault_of(alloc, &error)),
    }
}

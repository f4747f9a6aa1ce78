//! The lines of a script.
ghost use Rattle.std.specs.Prelude.{◌≡◌, ◌⊎◌, ◌≤◌};
ghost use Rattle.dates.specs.declared.TheConstants.{LAST_MOMENT};

use crate::fault::LineFault;
use crate::words::{
    parse_bytes, parse_file, parse_fuse, parse_moment, parse_number, parse_uuid, parse_wide_number,
};
use hub::{Env, Options, SessionId, is_repository_name};
use std::alloc::Global;
use std::str;
use store_files::{FileName, Left};

/// A hub that is asked for, over an empty repository whose revision 0 is dated at the moment.
#[derive(Drop)]
pub struct NewHub {
    pub options: Options,
    pub uuid: u128,
    pub moment: u64,
    ghost dated: { moment ≤ LAST_MOMENT },
}

/// A user, by name, and the password.
#[derive(Drop)]
pub struct NewUser {
    pub name: String,
    pub password: Vec<u8>,
}

/// Where the repository of a hub is.
#[derive(Drop)]
pub enum Place {
    /// In memory, without files.
    Plain,
    /// In files in memory.
    Memory,
    /// In the files of this folder.
    Folder(String),
}

/// Which format the files of a new repository are of.
#[derive(Clone, Copy)]
pub enum NewFormat {
    Two,
    Three,
}

impl NewFormat {
    /// Gives the number of the format.
    pub fn number(self) -> u32
        ensures { (result ≡ 2) ⊎ (result ≡ 3) }
    {
        match self {
            NewFormat::Two => 2,
            NewFormat::Three => 3,
        }
    }
}

/// How a store fails: how many calls that write it passes before the one that fails, and what that leaves.
#[derive(Clone, Copy)]
pub struct Failing {
    pub passes: u64,
    pub left: Left,
}

/// A file of a repository, and how a script names it.
#[derive(Drop)]
pub struct NamedFile {
    pub name: FileName,
    pub text: String,
}

/// A piece for a session.
#[derive(Drop)]
pub struct Piece {
    pub session: SessionId,
    pub bytes: Vec<u8>,
    pub env: Env,
}

/// A line of a script.
#[derive(Drop)]
pub enum Line {
    /// Text for a reader.
    Comment,
    /// A new hub, in place of the one before.
    Hub(NewHub),
    /// The hub that is asked for lets its clients change the properties of revisions.
    Revprops,
    /// The clients of the hub that is asked for came as the account of this name.
    Account(String),
    /// A users file for the hub that is asked for, so far without users.
    Users,
    /// One more user in the file.
    User(NewUser),
    /// The repository of the hub that is asked for is in files.
    Place(Place),
    /// The repository of the hub that is asked for is of this format, where it is new.
    Format(NewFormat),
    /// The store that is opened next fails once.
    Fuse(Failing),
    /// The hub is dropped, and its repository opened again.
    Reopen,
    /// What a file of the repository has is asked.
    File(NamedFile),
    /// A new session.
    Connect,
    /// A session is sent a piece.
    Feed(Piece),
    /// Whether a session is open is asked.
    Open(SessionId),
    /// A session's client goes.
    Disconnect(SessionId),
}

impl Line {
    /// Reads the line that a text is.
    pub fn parse(alloc: Global, text: &[u8]) -> Result<Line, LineFault> {
        let text = str::from_utf8(text).ok().ok_or(LineFault::Unknown)?;
        if text.starts_with('#') {
            return Ok(Line::Comment);
        }
        let words: Vec<&str> = text.split(' ').collect(alloc)?;
        Line::from_words(alloc, &words)
    }

    /// Reads the line that these words make up. The fault is `Unknown` where they make up none.
    fn from_words(alloc: Global, words: &[&str]) -> Result<Line, LineFault> {
        match *words {
            ["hub", name, uuid, moment] => Ok(Line::Hub(parse_hub(alloc, name, uuid, moment)?)),
            ["revprops"] => Ok(Line::Revprops),
            ["account", name] => Ok(Line::Account(String::from_str(alloc, name)?)),
            ["users"] => Ok(Line::Users),
            ["user", name, password] => Ok(Line::User(NewUser {
                name: String::from_str(alloc, name)?,
                password: parse_bytes(alloc, password)?,
            })),
            ["memory"] => Ok(Line::Place(Place::Memory)),
            ["folder", path] if !path.is_empty() => {
                Ok(Line::Place(Place::Folder(String::from_str(alloc, path)?)))
            }
            ["format", "2"] => Ok(Line::Format(NewFormat::Two)),
            ["format", "3"] => Ok(Line::Format(NewFormat::Three)),
            ["fuse", call, left] => Ok(Line::Fuse(parse_failing(call, left)?)),
            ["reopen"] => Ok(Line::Reopen),
            ["file", name] => Ok(Line::File(parse_named(alloc, name)?)),
            ["connect"] => Ok(Line::Connect),
            ["feed", session, moment, token, nonce, bytes] => {
                let session = parse_session(session)?;
                let env = parse_env(moment, token, nonce)?;
                Ok(Line::Feed(Piece {
                    session,
                    bytes: parse_bytes(alloc, bytes)?,
                    env,
                }))
            }
            ["open", session] => Ok(Line::Open(parse_session(session)?)),
            ["disconnect", session] => Ok(Line::Disconnect(parse_session(session)?)),
            _ => Err(LineFault::Unknown),
        }
    }
}

/// Reads the number of a session.
fn parse_session(word: &str) -> Result<SessionId, LineFault> {
    parse_number(word).ok_or(LineFault::Unknown)
}

/// Reads how a store fails at its call of this number, which counts from 1 on.
fn parse_failing(call: &str, left: &str) -> Result<Failing, LineFault> {
    let call = parse_number(call).ok_or(LineFault::Unknown)?;
    let passes = call.checked_sub(1).ok_or(LineFault::Unknown)?;
    let left = parse_fuse(left).ok_or(LineFault::Unknown)?;
    Ok(Failing { passes, left })
}

/// Gives the file of this name.
fn parse_named(alloc: Global, text: &str) -> Result<NamedFile, LineFault> {
    let name = parse_file(text).ok_or(LineFault::Unknown)?;
    Ok(NamedFile {
        name,
        text: String::from_str(alloc, text)?,
    })
}

/// Reads what a call hands in from outside.
fn parse_env(moment: &str, token: &str, nonce: &str) -> Result<Env, LineFault> {
    let moment = parse_moment(moment).ok_or(LineFault::Unknown)?;
    let token = parse_wide_number(token).ok_or(LineFault::Unknown)?;
    let nonce = parse_number(nonce).ok_or(LineFault::Unknown)?;
    Ok(Env {
        moment,
        token,
        nonce,
    })
}

/// Reads a hub of this name.
fn parse_hub(alloc: Global, name: &str, uuid: &str, moment: &str) -> Result<NewHub, LineFault> {
    if !is_repository_name(name) {
        return Err(LineFault::Unknown);
    }
    let uuid = parse_uuid(uuid).ok_or(LineFault::Unknown)?;
    let moment = parse_moment(moment).ok_or(LineFault::Unknown)?;
    let options = Options::new(alloc, name)?;
    Ok(NewHub {
        options,
        uuid,
        moment,
    })
}

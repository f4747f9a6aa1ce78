//! What an administrator is told.

use crate::peer::Peer;
use guests::Ending;
use std::alloc::{AllocError, Global};

/// What an administrator is told, beside what a session tells.
#[derive(Clone, Copy, Debug)]
pub enum Event {
    /// The session of this number begins, for a client at this address.
    Begins(u64, Peer),
    Ends(u64),
    /// The session of this number is ended because its client sends nothing.
    Ended(u64, Ending),
    /// As many sessions are open as may be, and this client is turned away.
    Full(Peer),
    /// The address of this client has as many sessions as it may have, and the client is turned away.
    AddressFull(Peer),
    /// A client is turned away because changes have come to a halt.
    TurnedAway(Peer),
    /// A replacement of a file has failed, and changes have come to a halt.
    StoreFailed,
    /// The file of users can be read by others than its owner and its group.
    UsersReadable,
    /// The file of users can be written by others than its owner and its group.
    UsersWritable,
    /// The clients of tunnels cannot come in.
    NoTunnel,
    /// So many files may be open at a time, and so many are needed, which are more.
    FewFiles(u64, u64),
}

/// Writes why a session is ended.
fn ending_text(alloc: Global, session: u64, ending: Ending) -> Result<String, AllocError> {
    match ending {
        Ending::NoLogin => format!(in alloc; "session {session} has not logged in"),
        Ending::Silent => format!(in alloc; "session {session} has sent nothing for an hour"),
        Ending::GivesPlace => {
            format!(in alloc; "session {session} gives its place to who waits")
        }
    }
}

/// Writes why a client is turned away.
fn refusal_text(alloc: Global, peer: Peer, why: &str) -> Result<String, AllocError> {
    format!(in alloc; "{peer} is turned away: {why}")
}

/// Writes a warning.
fn warning_text(alloc: Global, what: &str) -> Result<String, AllocError> {
    format!(in alloc; "warning: {what}")
}

/// Writes that too few files may be open.
fn few_files_text(alloc: Global, files: u64, needed: u64) -> Result<String, AllocError> {
    format!(in alloc; "warning: {files} files may be open at a time, and {needed} are needed")
}

impl Event {
    /// Writes what is told of it.
    pub(crate) fn text(self, alloc: Global) -> Result<String, AllocError> {
        match self {
            Event::Begins(number, peer) => {
                format!(in alloc; "session {number} begins, of {peer}")
            }
            Event::Ends(number) => format!(in alloc; "session {number} ends"),
            Event::Ended(number, ending) => ending_text(alloc, number, ending),
            Event::Full(peer) => refusal_text(alloc, peer, "all sessions are taken"),
            Event::AddressFull(peer) => {
                refusal_text(alloc, peer, "all sessions of its address are taken")
            }
            Event::TurnedAway(peer) => refusal_text(alloc, peer, "the store has failed"),
            Event::StoreFailed => {
                format!(in alloc; "the store has failed: no more changes are made")
            }
            Event::UsersReadable => warning_text(alloc, "others can read the file of users"),
            Event::UsersWritable => warning_text(alloc, "others can write the file of users"),
            Event::NoTunnel => {
                warning_text(
                    alloc,
                    "no socket is made in the folder, so tunnels do not reach the server",
                )
            }
            Event::FewFiles(files, needed) => few_files_text(alloc, files, needed),
        }
    }
}

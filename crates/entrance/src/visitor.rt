//! The client of a session.

use crate::peer::Peer;
use crate::registry::Registry;
use byte_string::ByteString;
use presence::{Connection, Deed, Presence};
use std::alloc::{AllocError, Global};
use std::sync::Wait;
use std::time::Clock;
use svnpath::Path;

/// The client of a session, who may have gone, and whose changes are told: who tells them, the number of the session, and the
/// address of the client.
pub struct Visitor<'a, R> {
    connection: Connection,
    told: Option<(&'a Registry<'a, R>, u64, Peer)>,
}

impl<'a, R> Drop for Visitor<'a, R> {
    fn drop(self) {
        let Visitor {
            connection: _,
            told: _,
        } = self;
    }
}

impl<'a, R> Visitor<'a, R> {
    /// Makes the client of the session of this number, at this address.
    pub(crate) fn new(
        connection: Connection,
        registry: &'a Registry<'a, R>,
        session: u64,
        peer: Peer,
    ) -> Self {
        Visitor {
            connection,
            told: Some((registry, session, peer)),
        }
    }
}

/// Writes a path from the root; bytes that are not printable ASCII are escaped.
fn path_text(alloc: Global, path: &Path) -> Result<String, AllocError> {
    let mut bytes = Vec::new(alloc);
    path.append_text(&mut bytes)?;
    format!(in alloc; "{}", bytes.as_slice().escape_ascii())
}

/// Writes why a change was refused.
fn refusal_text(
    alloc: Global,
    number: u64,
    text: &[u8],
    path: Option<&Path>,
) -> Result<String, AllocError> {
    let text = text.escape_ascii();
    match path {
        Some(path) => {
            let path = path_text(alloc, path)?;
            format!(in alloc; "is refused a change at {path}: {number} {text}")
        }
        None => format!(in alloc; "is refused a change: {number} {text}"),
    }
}

/// Writes what was done.
fn deed_text(alloc: Global, deed: Deed<'_>) -> Result<String, AllocError> {
    match deed {
        Deed::Commits(revision) => format!(in alloc; "commits revision {revision}"),
        Deed::Locks(path) => {
            let path = path_text(alloc, path)?;
            format!(in alloc; "locks {path}")
        }
        Deed::Unlocks(path) => {
            let path = path_text(alloc, path)?;
            format!(in alloc; "unlocks {path}")
        }
        Deed::ChangesProperty(revision, name) => {
            let name = name.as_slice().escape_ascii();
            format!(in alloc; "changes {name} of revision {revision}")
        }
        Deed::IsRefused(refusal, path) => {
            refusal_text(alloc, refusal.number(), refusal.text(), path)
        }
        Deed::MeetsFailure => String::from_str(alloc, "makes no change: the store fails"),
    }
}

/// Writes who did it, and what.
fn line_text(
    alloc: Global,
    session: u64,
    peer: Peer,
    user: Option<&ByteString>,
    deed: Deed<'_>,
) -> Result<String, AllocError> {
    let deed = deed_text(alloc, deed)?;
    match user {
        Some(user) => {
            let user = user.as_slice().escape_ascii();
            format!(in alloc; "session {session} ({user}, {peer}) {deed}")
        }
        None => format!(in alloc; "session {session} ({peer}) {deed}"),
    }
}

impl<'a, R: Clock + Wait> Presence for Visitor<'a, R> {
    fn nobody() -> Self {
        Visitor {
            connection: Connection::nobody(),
            told: None,
        }
    }

    fn share(&self) -> Result<Self, AllocError> {
        Ok(Visitor {
            connection: self.connection.share()?,
            told: self.told,
        })
    }

    fn is_gone(&self) -> bool {
        self.connection.is_gone()
    }

    fn is_gone_meanwhile(&self) -> bool {
        match self.told {
            Some((registry, session, _)) => registry.has_edited(session) && self.is_gone(),
            None => false,
        }
    }

    fn notes(&self, user: Option<&ByteString>, deed: Deed<'_>) {
        let Some((registry, session, peer)) = self.told else {
            return;
        };
        if let Some(alloc) = registry.writes_deeds() {
            registry.tell_deed(line_text(alloc, session, peer, user, deed));
        }
    }
}

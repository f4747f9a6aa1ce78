//! Where the clients of tunnels come in.
ghost use Rattle.std.specs.Prelude.{◌≤◌, IfSome, length};

use crate::door::{Door, Heard, Pool, limit_turns};
use crate::peer::Peer;
use crate::registry::Registry;
use session_pool::Terms;
use std::alloc::{AllocError, Global};
use std::io;
use std::io::{ErrorKind, Read};
use std::net::{Net, TcpStream};
use std::os::fd::OwnedFd;
use std::os::unix::net::UnixListener;
use std::sync::Wait;
use std::time::Clock;

/// How many bytes a line has at most by which a client says as which account it came: a name of 255, and its line feed.
const LINE_LIMIT: usize = 256;

/// The door for the clients of tunnels: a socket in the folder of the repository. Who may write into that folder may connect.
/// Each client says in a line as which account it came, and its session is served as that of the account.
pub struct Tunnel {
    listener: UnixListener,
    alloc: Global,
    may_wait: bool,
}

impl Drop for Tunnel {
    fn drop(self) {
        let Tunnel {
            listener: _,
            alloc: _,
            may_wait: _,
        } = self;
    }
}

impl Tunnel {
    /// Makes the door by a socket at which it listens. Where the server may end, it does not wait there for long.
    pub fn new(listener: UnixListener, alloc: Global, may_wait: bool) -> Self {
        Tunnel {
            listener,
            alloc,
            may_wait,
        }
    }
}

/// Looks at what has come, and does not take it: the bytes of the first line without its line feed. It does not wait for them.
fn first_line<'l>(stream: &TcpStream, room: &'l mut [u8; LINE_LIMIT]) -> Result<&'l [u8], Heard> {
    match stream.peek(room.as_mut_slice()) {
        Ok(0) => Err(Heard::Wrong),
        Ok(count) => {
            let came = room.get(..count).unwrap_or(&[]);
            match came.iter().position(|byte| *byte == b'\n') {
                Some(end) => Ok(came.get(..end).unwrap_or(&[])),
                None if count < LINE_LIMIT => Err(Heard::Part),
                None => Err(Heard::Wrong),
            }
        }
        Err(error) if is_of_time(&error) => Err(Heard::Part),
        Err(_) => Err(Heard::Wrong),
    }
}

/// Says whether nothing has come yet.
fn is_of_time(error: &io::Error) -> bool {
    matches!(error.kind(), ErrorKind::WouldBlock | ErrorKind::Interrupted)
}

/// Says whether an account may have this name: not without any byte, and without control characters of ASCII.
fn is_account(name: &[u8]) -> bool {
    !name.is_empty() && !name.iter().any(|byte| byte.is_ascii_control())
}

/// Takes the line that has come whole, and notes the name in it.
fn take_line(stream: &TcpStream, said: &mut Vec<u8>) -> Heard {
    let mut room = [0; LINE_LIMIT];
    let name = match first_line(stream, &mut room) {
        Ok(name) if is_account(name) => name,
        Ok(_) => return Heard::Wrong,
        Err(heard) => return heard,
    };
    if said.extend_from_slice(name).is_err() {
        return Heard::Wrong;
    }
    let mut line = [0; LINE_LIMIT];
    let mut input = stream;
    let length = said.len().saturating_add(1);
    let Some(line) = line.get_mut(..length) else {
        return Heard::Wrong;
    };
    match input.read_exact(line) {
        Ok(()) => Heard::All,
        Err(_) => Heard::Wrong,
    }
}

impl Door for Tunnel {
    fn places(&self) -> usize {
        1
    }

    fn may_wait(&self) -> bool {
        self.may_wait
    }

    fn take(&self, _place: usize, waits: bool) -> Option<(TcpStream, Peer)> {
        // where the mode cannot be set, it is as it was
        let _ = self.listener.set_nonblocking(!waits);
        let (stream, _) = self.listener.accept().ok()?;
        Some((TcpStream::from(OwnedFd::from(stream)), Peer::Tunnel))
    }

    fn prepare(&self, stream: &TcpStream) -> io::Result<()> {
        limit_turns(stream)
    }

    fn hear(&self, stream: &TcpStream, said: &mut Vec<u8>) -> Heard {
        if stream.set_nonblocking(true).is_err() {
            return Heard::Wrong;
        }
        let heard = take_line(stream, said);
        if stream.set_nonblocking(false).is_err() {
            return Heard::Wrong;
        }
        heard
    }

    fn terms<R: Clock + Net + Wait>(
        &self,
        pool: &Pool<'_, R>,
        _registry: &Registry<'_, R>,
        said: &[u8],
    ) -> Result<Terms, AllocError> {
        pool.terms_of_account(self.alloc, said)
    }
}

//! A client's connection: what is read of it, and what is written to it.
ghost use Rattle.std.specs.Io.{ReadsAtMost};

use crate::clock::millis_now;
use crate::door::READ_TURN;
use crate::peer::Peer;
use crate::registry::Registry;
use crate::visitor::Visitor;
use presence::{Connection, has_gone};
use session_pool::{Caller, Visit};
use std::alloc::{AllocError, Global};
use std::io::{ErrorKind, Read, Write};
use std::net::TcpStream;
use std::sync::{Arc, Wait};
use std::time::{Clock, Duration};
use std::{io, thread};

/// How often a write that moves no byte is tried: so many turns a client may take nothing of what it is sent.
const WRITE_TURNS: u64 = 60;

/// How long a session that reads nothing for a while sleeps before it looks whether its client is there, in milliseconds.
const REST_TURN: u64 = 100;

/// How many bytes are read at once where a command is awaited. As it reads and writes a session sees that its client has gone,
/// so it answers only a few commands between.
const COMMANDS: usize = 2_048;

/// A client that has come, on its way to a worker.
pub type Client<'a, R> = Caller<ClientInput<'a, R>, ClientOutput, Visitor<'a, R>>;

/// A client that has come, with the terms that its session is served by.
pub type ClientVisit<'a, R> = Visit<ClientInput<'a, R>, ClientOutput, Visitor<'a, R>>;

/// Makes the caller of a connection.
pub(crate) fn caller_of<'a, R>(
    alloc: Global,
    registry: &'a Registry<'a, R>,
    (stream, peer): (TcpStream, Peer),
    number: u64,
) -> Result<Client<'a, R>, AllocError> {
    let stream = Arc::new(alloc, stream)?;
    let output = ClientOutput {
        stream: Arc::try_clone(&stream)?,
    };
    let connection = Connection::new(Arc::try_clone(&stream)?);
    let client = Visitor::new(connection, registry, number, peer);
    let input = ClientInput {
        stream,
        registry,
        session: number,
        asked: 0,
    };
    Ok(Caller::new(number, input, output, client))
}

/// Says whether a call has ended because its time was over.
fn is_of_time(done: &io::Result<usize>) -> bool {
    match done {
        Ok(_) => false,
        Err(error) => error.kind() == ErrorKind::WouldBlock,
    }
}

/// Reads once, and no more than so many bytes.
fn read_few(stream: &TcpStream, buf: &mut [u8], most: usize) -> io::Result<usize>
    ensures { ReadsAtMost result buf.new }
{
    let mut stream = stream;
    if buf.len() <= most {
        return stream.read(buf);
    }
    stream.read(&mut buf[..most])
}

/// What a client sends. Where its session is to end, because the client sends nothing, it ends.
pub struct ClientInput<'a, R> {
    stream: Arc<TcpStream>,
    registry: &'a Registry<'a, R>,
    session: u64,
    /// When it was last asked whether the session is to end, in milliseconds.
    asked: u64,
}

impl<'a, R> Drop for ClientInput<'a, R> {
    fn drop(self) {
        let ClientInput {
            stream: _,
            registry: _,
            session: _,
            asked: _,
        } = self;
    }
}

impl<'a, R: Clock + Wait> ClientInput<'a, R> {
    /// Waits for as long as the session reads nothing, and says whether the client is still there.
    fn rest(&self) -> bool {
        for _ in 0..u64::MAX {
            let left = self.registry.rest_of(self.session);
            if left == 0 {
                return true;
            }
            if has_gone(self.stream.as_ref()) {
                return false;
            }
            let turn = Duration::from_millis(left.min(REST_TURN));
            thread::sleep(self.registry.runtime(), turn);
        }
        true
    }

    /// Says whether the session is to end. That is asked once in a turn of reading, since all sessions ask at one place.
    fn is_to_end(&mut self) -> bool {
        let now = millis_now(self.registry.runtime());
        if now < self.asked.saturating_add(READ_TURN) {
            return false;
        }
        self.asked = now;
        self.registry.is_to_end(self.session)
    }

    /// Reads once: of commands only a few.
    fn read_once(&self, buf: &mut [u8]) -> io::Result<usize>
        ensures { ReadsAtMost result buf.new }
    {
        let most = if self.registry.awaits_command(self.session) {
            COMMANDS
        } else {
            buf.len()
        };
        read_few(self.stream.as_ref(), buf, most)
    }
}

impl<'a, R: Clock + Wait> Read for ClientInput<'a, R> {
    fn read(&mut self, buf: &mut [u8]) -> io::Result<usize> {
        if !self.rest() {
            return Ok(0);
        }
        for _ in 0..u64::MAX {
            if self.is_to_end() {
                return Ok(0);
            }
            let done = self.read_once(buf);
            if !is_of_time(&done) {
                return done;
            }
        }
        Ok(0)
    }
}

/// What a client is sent. A client that takes nothing of it for a minute is given up.
pub struct ClientOutput {
    stream: Arc<TcpStream>,
}

impl Drop for ClientOutput {
    fn drop(self) {
        let ClientOutput { stream: _ } = self;
    }
}

impl Write for ClientOutput {
    fn write(&mut self, buf: &[u8]) -> io::Result<usize> {
        let mut stream = self.stream.as_ref();
        for _ in 0..WRITE_TURNS {
            let done = stream.write(buf);
            if !is_of_time(&done) {
                return done;
            }
        }
        Err(io::Error::from(ErrorKind::TimedOut))
    }

    fn flush(&mut self) -> io::Result<()> {
        Ok(())
    }
}

//! Where connections come in over TCP.

use crate::peer::Peer;
use crate::registry::Registry;
use session_pool::{Reading, SessionPool, Terms};
use std::alloc::{AllocError, Global};
use std::io;
use std::net::{Net, TcpListener, TcpStream};
use std::sync::{Arc, Wait};
use std::time::{Clock, Duration};

/// How long a read waits before its session asks whether it is to end, in milliseconds.
pub(crate) const READ_TURN: u64 = 250;

/// How long a write waits, in seconds.
const WRITE_TURN: u64 = 1;

/// What a client has said before its session begins.
#[derive(Clone, Copy)]
pub enum Heard {
    /// All that it is to say.
    All,
    /// Not all of it yet.
    Part,
    /// What it may not say; or it has gone.
    Wrong,
}

/// A pool whose sessions a registry knows.
pub type Pool<'s, R> = SessionPool<'s, Registry<'s, R>, Registry<'s, R>>;

/// Where connections come in.
pub trait Door {
    /// Says at how many places connections come in.
    fn places(&self) -> usize;

    /// Says whether it may be waited for a connection, at a door with one place.
    fn may_wait(&self) -> bool;

    /// Takes a connection that has come at a place, if there is one. Where it may wait, it waits for one.
    fn take(&self, place: usize, waits: bool) -> Option<(TcpStream, Peer)>;

    /// Sets what each connection has: nobody waits for a client for long.
    fn prepare(&self, stream: &TcpStream) -> io::Result<()>;

    /// Hears what a client says before its session begins, and notes it. It does not wait for the client.
    fn hear(&self, stream: &TcpStream, said: &mut Vec<u8>) -> Heard;

    /// Gives the terms of a session that begins now, whose client has said this.
    fn terms<R: Clock + Net + Wait>(
        &self,
        pool: &Pool<'_, R>,
        registry: &Registry<'_, R>,
        said: &[u8],
    ) -> Result<Terms, AllocError>;
}

/// Lets nobody wait long for a client.
pub(crate) fn limit_turns(stream: &TcpStream) -> io::Result<()> {
    stream.set_read_timeout(Some(Duration::from_millis(READ_TURN)))?;
    stream.set_write_timeout(Some(Duration::from_secs(WRITE_TURN)))
}

/// Knows the newest reading of the file of users.
pub trait Readings {
    /// Gives what a session is served by that begins now; none where it is served by what the server was started with. The
    /// file of users is read anew where it has changed, and the journal has a line of that.
    fn newest<R: Clock + Wait>(
        &self,
        registry: &Registry<'_, R>,
    ) -> Result<Option<Arc<Reading>>, AllocError>;
}

/// Never reads the file of users again.
#[derive(Clone, Copy)]
pub struct ReadOnce;

impl Readings for ReadOnce {
    fn newest<R: Clock + Wait>(
        &self,
        _registry: &Registry<'_, R>,
    ) -> Result<Option<Arc<Reading>>, AllocError> {
        Ok(None)
    }
}

/// The door to the network: connections come in at several addresses, and each session is served by the newest reading of the
/// file of users.
pub struct Street<'a, N> {
    listeners: &'a [TcpListener],
    readings: &'a N,
}

impl<'a, N> Drop for Street<'a, N> {
    fn drop(self) {
        let Street {
            listeners: _,
            readings: _,
        } = self;
    }
}

impl<'a, N> Street<'a, N> {
    /// Makes the door to these addresses.
    pub fn new(listeners: &'a [TcpListener], readings: &'a N) -> Self {
        Street {
            listeners,
            readings,
        }
    }
}

impl<'a, N: Readings> Door for Street<'a, N> {
    fn places(&self) -> usize {
        self.listeners.len()
    }

    fn may_wait(&self) -> bool {
        true
    }

    fn take(&self, place: usize, waits: bool) -> Option<(TcpStream, Peer)> {
        let listener = self.listeners.get(place)?;
        // where the mode cannot be set, it is as it was
        let _ = listener.set_nonblocking(!waits);
        let (stream, address) = listener.accept().ok()?;
        Some((stream, Peer::of(address)))
    }

    fn prepare(&self, stream: &TcpStream) -> io::Result<()> {
        // replies go out at once
        stream.set_nodelay(true)?;
        limit_turns(stream)
    }

    fn hear(&self, _stream: &TcpStream, _said: &mut Vec<u8>) -> Heard {
        Heard::All
    }

    fn terms<R: Clock + Net + Wait>(
        &self,
        _pool: &Pool<'_, R>,
        registry: &Registry<'_, R>,
        _said: &[u8],
    ) -> Result<Terms, AllocError> {
        match self.readings.newest(registry)? {
            Some(reading) => Ok(Terms::ReadAgain(reading)),
            None => Ok(Terms::OfStart),
        }
    }
}

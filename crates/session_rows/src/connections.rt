//! Connections in memory, and what stands at their other end.
use conversations::{Env, EnvSource};
use crossbeam_channel::{Receiver, Sender, unbounded};
use presence::{Connection, Presence};
use session_pool::{Caller, Terms, Visit};
use std::alloc::Global;
use std::io;
use std::io::{ErrorKind, Read, Write};
use std::mem::drop;
use std::process::Abort;
use std::sync::atomic::{AtomicBool, Ordering};
use std::sync::{Mutex, Wait};

/// The greeting of a client, and its login without a name.
pub(crate) const LOGIN: &[u8] = b"( 2 ( edit-pipeline ) 9:svn://h/r ) ( ANONYMOUS ( 0: ) ) ";

/// The greeting.
pub(crate) const GREETING: &[u8] =
    b"( success ( 2 2 ( ) ( edit-pipeline absent-entries commit-revprops depth atomic-revprops ) ) ) ";

/// What a client without a name is told up to the end of its login.
pub(crate) const WELCOME: &[u8] =
    b"( success ( 2 2 ( ) ( edit-pipeline absent-entries commit-revprops depth atomic-revprops ) ) ) \
      ( success ( ( ANONYMOUS ) 1:r ) ) ( success ( ) ) \
      ( success ( 36:00000000-0000-4000-8000-000000000000 9:svn://h/r ( ) ) ) ";

/// Hands one moment in, and one word.
#[derive(Clone, Copy)]
pub(crate) struct Still {
    pub(crate) moment: u32,
    pub(crate) nonce: u64,
}

/// The beginning of 1970.
pub(crate) const AT_ZERO: Still = Still {
    moment: 0,
    nonce: 0,
};

impl EnvSource for Still {
    ghost use Rattle.std.specs.Prelude.{⊤};

    ghost gives = { λ _ _ _. ⊤ };

    fn next_env(&mut self) -> Env {
        Env {
            moment: u64::from(self.moment),
            token: 0,
            nonce: self.nonce,
        }
    }
}

/// What a client sends, piece by piece.
#[derive(Drop)]
pub(crate) struct Sent<'a, R: Wait> {
    rt: &'a R,
    pieces: Receiver<Vec<u8>>,
}

impl<'a, R: Wait> Read for Sent<'a, R> {
    fn read(&mut self, buf: &mut [u8]) -> io::Result<usize> {
        let Ok(piece) = self.pieces.recv(self.rt) else {
            return Ok(0);
        };
        let count = piece.len().min(buf.len());
        buf[..count].copy_from_slice(&piece.as_slice()[..count]);
        Ok(count)
    }
}

/// Words that no client is told.
pub(crate) const NEVER: &[u8] = b"never";

/// What a client has been told, and whether the words that it awaits were among that.
#[derive(Drop)]
pub(crate) struct Client {
    bytes: Mutex<Vec<u8>>,
    awaited: Vec<u8>,
    pub(crate) is_told: AtomicBool,
}

impl Client {
    /// Makes a client that has been sent nothing.
    pub(crate) fn new(rt: &impl Abort, alloc: Global, awaited: &[u8]) -> Self {
        Client {
            bytes: Mutex::new(Vec::new(alloc)),
            awaited: Vec::from_slice(alloc, awaited).expect(rt, "memory"),
            is_told: AtomicBool::new(false),
        }
    }

    /// Says whether it has been told this, and nothing else.
    pub(crate) fn has_heard<R: Wait>(&self, rt: &R, words: &[&[u8]]) -> bool {
        let told = self.bytes.lock(rt);
        are(told.as_slice(), words)
    }
}

/// Says whether bytes are these, one after another.
fn are(bytes: &[u8], parts: &[&[u8]]) -> bool {
    let mut rest = bytes;
    for part in parts {
        match rest.strip_prefix(*part) {
            Some(behind) => rest = behind,
            None => return false,
        }
    }
    rest.is_empty()
}

/// The way to a client, which takes so many bytes and fails then.
#[derive(Drop)]
pub(crate) struct Told<'a, R: Wait> {
    rt: &'a R,
    client: &'a Client,
    room: usize,
}

impl<'a, R: Wait> Write for Told<'a, R> {
    fn write(&mut self, buf: &[u8]) -> io::Result<usize> {
        let Some(room) = self.room.checked_sub(buf.len()) else {
            return Err(io::Error::from(ErrorKind::BrokenPipe));
        };
        self.room = room;
        let mut bytes = self.client.bytes.lock(self.rt);
        if bytes.extend_from_slice(buf).is_err() {
            return Err(io::Error::from(ErrorKind::OutOfMemory));
        }
        if stands_in(bytes.as_slice(), self.client.awaited.as_slice()) {
            self.client.is_told.store(true, Ordering::SeqCst);
        }
        Ok(buf.len())
    }

    fn flush(&mut self) -> io::Result<()> {
        Ok(())
    }
}

/// Says whether one text stands in another.
fn stands_in(text: &[u8], part: &[u8]) -> bool {
    for i in 0..text.len() {
        if text[i..].starts_with(part) {
            return true;
        }
    }
    false
}

/// A caller over a connection in memory, on its way to a worker.
pub(crate) type MemoryVisit<'a, R> = Visit<Sent<'a, R>, Told<'a, R>, Connection>;

/// What a caller sends, piece by piece and then no more; the client that is told; and how many bytes it takes.
#[derive(Clone, Copy)]
pub(crate) struct Call<'a> {
    pub(crate) pieces: &'a [&'a [u8]],
    pub(crate) client: &'a Client,
    pub(crate) room: usize,
}

/// Makes the visit of the caller of this number, with the options of its pool.
fn visit_of<'a, R: Abort + Wait>(
    rt: &'a R,
    alloc: Global,
    number: u64,
    call: Call<'a>,
) -> MemoryVisit<'a, R> {
    let (say, hear) = unbounded(alloc).expect(rt, "memory");
    for piece in call.pieces {
        let piece = Vec::from_slice(alloc, piece).expect(rt, "memory");
        say.send(rt, piece).expect(rt, "a reader");
    }
    drop(say);
    let input = Sent { rt, pieces: hear };
    let output = Told {
        rt,
        client: call.client,
        room: call.room,
    };
    Visit::new(
        Terms::OfStart,
        Caller::new(number, input, output, Connection::nobody()),
    )
}

/// Sends callers to the workers, numbered from 1 on, and then no more.
pub(crate) fn callers<'a, R: Abort + Wait>(
    rt: &'a R,
    alloc: Global,
    calls: &[Call<'a>],
) -> Receiver<MemoryVisit<'a, R>> {
    let (to, from) = unbounded(alloc).expect(rt, "memory");
    let mut number = 0u64;
    for call in calls {
        number = number.wrapping_add(1);
        let visit = visit_of(rt, alloc, number, *call);
        to.send(rt, visit).expect(rt, "a worker");
    }
    drop(to);
    from
}

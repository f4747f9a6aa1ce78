//! The loop over a reader and a writer, byte by byte and where a stream fails.
ghost use Rattle.std.specs.Prelude.{◌≡◌};

use crate::hubs::{ENV, GREETING, are, new_hub, options_of_r};
use access::SoleAccess;
use conversations::{Env, EnvSource};
use flatrepo::{FlatRepo, InMemory};
use hub::Hub;
use std::alloc::Global;
use std::io;
use std::io::{ErrorKind, Read, Write};
use std::process::Abort;
use streams::{ServeFault, run_stdio};
use world::World;

const INPUT: &[u8] =
    b"( 2 ( edit-pipeline ) 15:svn://h/r/trunk ) ( ANONYMOUS ( 0: ) ) ( get-latest-rev ( ) ) \
      ( check-path ( 0: ( ) ) ) ( rev-proplist ( 0 ) ) ";

const OUTPUT: &[u8] =
    b"( success ( 2 2 ( ) ( edit-pipeline absent-entries commit-revprops depth atomic-revprops ) ) ) \
      ( success ( ( ANONYMOUS ) 1:r ) ) ( success ( ) ) \
      ( success ( 36:00000000-0000-4000-8000-000000000000 9:svn://h/r ( ) ) ) \
      ( success ( ( ) 0: ) ) ( success ( 0 ) ) ( success ( ( ) 0: ) ) ( success ( none ) ) \
      ( success ( ( ) 0: ) ) ( success ( ( ( 8:svn:date 27:1970-01-01T00:00:00.000000Z ) ) ) ) ";

/// A client that changes the date of revision 0.
const CHANGE: &[u8] = b"( 2 ( edit-pipeline ) 9:svn://h/r ) ( ANONYMOUS ( 0: ) ) \
      ( change-rev-prop ( 0 8:svn:date 3:now ) ) ";

/// What the change draws where clients may not change the properties of revisions.
const CLOSED: &[u8] =
    b"( success ( ( ) 0: ) ) ( failure ( ( 165006 30:revision properties are closed 0: 0 ) ) ) ";

/// What it draws where they may.
const CHANGED: &[u8] = b"( success ( ( ) 0: ) ) ( success ( ) ) ";

/// A client's beginning, up to the first byte of a command.
const BEGINNING: &[u8] = b"( 2 ( edit-pipeline ) 15:svn://h/r/trunk ) ( ANONYMOUS ( 0: ) ) (";

/// What it draws.
const ANSWERS: &[u8] =
    b"( success ( 2 2 ( ) ( edit-pipeline absent-entries commit-revprops depth atomic-revprops ) ) ) \
      ( success ( ( ANONYMOUS ) 1:r ) ) ( success ( ) ) \
      ( success ( 36:00000000-0000-4000-8000-000000000000 9:svn://h/r ( ) ) ) ";

/// A clock that stands still.
#[derive(Drop)]
struct Still;

impl EnvSource for Still {
    ghost gives = { λ _ env _. (env.moment ≡ 0) × (env.token ≡ 0) × (env.nonce ≡ 0) };

    fn next_env(&mut self) -> Env {
        ENV
    }
}

/// Gives a byte at each second read, as each first one is interrupted; then it ends, or fails.
#[derive(Drop)]
struct Dripping {
    bytes: &'static [u8],
    is_ready: bool,
    fails: bool,
}

impl Read for Dripping {
    fn read(&mut self, buf: &mut [u8]) -> io::Result<usize> {
        self.is_ready = !self.is_ready;
        if !self.is_ready {
            return Err(io::Error::from(ErrorKind::Interrupted));
        }
        let Some((first, rest)) = self.bytes.split_first() else {
            return if self.fails {
                Err(io::Error::from(ErrorKind::ConnectionReset))
            } else {
                Ok(0)
            };
        };
        if buf.is_empty() {
            return Ok(0);
        }
        buf[0] = *first;
        self.bytes = rest;
        Ok(1)
    }
}

/// Takes a byte at each second write, as each first one is interrupted.
#[derive(Drop)]
struct Trickling {
    bytes: Vec<u8>,
    is_ready: bool,
}

impl Write for Trickling {
    fn write(&mut self, buf: &[u8]) -> io::Result<usize> {
        self.is_ready = !self.is_ready;
        if !self.is_ready {
            return Err(io::Error::from(ErrorKind::Interrupted));
        }
        let Some(first) = buf.first() else {
            return Ok(0);
        };
        if self.bytes.push(*first).is_err() {
            return Err(io::Error::from(ErrorKind::OutOfMemory));
        }
        Ok(1)
    }

    fn flush(&mut self) -> io::Result<()> {
        Ok(())
    }
}

/// Takes the greeting, and fails then.
#[derive(Drop)]
struct Closing {
    is_greeted: bool,
}

impl Write for Closing {
    fn write(&mut self, buf: &[u8]) -> io::Result<usize> {
        if self.is_greeted {
            return Err(io::Error::from(ErrorKind::BrokenPipe));
        }
        self.is_greeted = true;
        Ok(buf.len())
    }

    fn flush(&mut self) -> io::Result<()> {
        Ok(())
    }
}

/// Makes a reader that gives these bytes one by one, and after them the end, or a failure if `fails`. The first read
/// is interrupted.
fn drip(bytes: &'static [u8], fails: bool) -> Dripping {
    Dripping {
        bytes,
        is_ready: true,
        fails,
    }
}

/// How a run ends.
#[derive(Clone, Copy, PartialEq, Eq)]
enum Ending {
    Well,
    ByReader,
    ByWriter,
    ByHub,
}

/// Says how a run has ended.
fn ending_of(ended: Result<(), ServeFault>) -> Ending {
    match ended {
        Ok(()) => Ending::Well,
        Err(ServeFault::Read(_)) => Ending::ByReader,
        Err(ServeFault::Write(_)) => Ending::ByWriter,
        Err(ServeFault::Hub(_)) => Ending::ByHub,
    }
}

/// A client: what it sends, whether the reader fails then, whether clients may change the properties of revisions, and
/// what is written.
struct Row {
    sent: &'static [u8],
    fails: bool,
    revprops: bool,
    written: [&'static [u8]; 2],
}

static ROWS: [Row; 5] = [
    // a conversation, byte by byte
    Row {
        sent: INPUT,
        fails: false,
        revprops: false,
        written: [OUTPUT, b""],
    },
    // a client is greeted before the first read
    Row {
        sent: b"",
        fails: true,
        revprops: false,
        written: [GREETING, b""],
    },
    // what was read is answered before the reader fails
    Row {
        sent: BEGINNING,
        fails: true,
        revprops: false,
        written: [ANSWERS, b""],
    },
    // clients may change properties of revisions where that is asked for
    Row {
        sent: CHANGE,
        fails: false,
        revprops: false,
        written: [ANSWERS, CLOSED],
    },
    Row {
        sent: CHANGE,
        fails: false,
        revprops: true,
        written: [ANSWERS, CHANGED],
    },
];

/// Says whether a client is served as its row says.
fn is_served<A: SoleAccess + Drop>(alloc: Global, hub: Hub<A>, row: &Row) -> bool {
    let mut hub = hub;
    let mut output = Trickling {
        bytes: Vec::new(alloc),
        is_ready: true,
    };
    let mut input = drip(row.sent, row.fails);
    let ending = ending_of(run_stdio(&mut hub, &mut input, &mut output, &mut Still));
    let wanted = if row.fails {
        Ending::ByReader
    } else {
        Ending::Well
    };
    ending == wanted && are(output.bytes.as_slice(), &row.written)
}

/// Says whether each client is served as its row says.
fn are_served<R: InMemory>(rt: &impl Abort, alloc: Global) -> bool {
    let mut are_served = true;
    for row in ROWS.iter() {
        let mut options = options_of_r(rt, alloc);
        if row.revprops {
            options = options.with_revprops();
        }
        are_served &= is_served(alloc, new_hub::<R>(rt, alloc, options), row);
    }
    are_served
}

#[test]
fn serves_over_streams(rt: HostRuntime) {
    assert!(rt; are_served::<World>(&rt, rt.alloc()));
}

#[test]
fn serves_over_streams_in_flat(rt: HostRuntime) {
    assert!(rt; are_served::<FlatRepo>(&rt, rt.alloc()));
}

/// Says how the loop ends where the writer fails.
fn ending_at_the_writer<A: SoleAccess + Drop>(hub: Hub<A>) -> Ending {
    let mut hub = hub;
    let mut output = Closing { is_greeted: false };
    ending_of(run_stdio(&mut hub, &mut drip(INPUT, false), &mut output, &mut Still))
}

/// Says whether it ends there.
fn stops_at_the_writer<R: InMemory>(rt: &impl Abort, alloc: Global) -> bool {
    let hub = new_hub::<R>(rt, alloc, options_of_r(rt, alloc));
    ending_at_the_writer(hub) == Ending::ByWriter
}

#[test]
fn stops_where_the_writer_fails(rt: HostRuntime) {
    let alloc = rt.alloc();
    assert!(rt;
        stops_at_the_writer::<World>(&rt, alloc) && stops_at_the_writer::<FlatRepo>(&rt, alloc)
    );
}

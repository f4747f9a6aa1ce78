//! Calls of a hub over a repository in memory.

use crate::hubs::{ENV, GREETING, are, new_hub, options_of_r};
use access::SoleAccess;
use conversations::OutputSink;
use flatrepo::{FlatRepo, InMemory};
use hub::{Call, Hub, Outcome, make_calls};
use machine::Turn;
use std::alloc::Global;
use std::io;
use std::io::{ErrorKind, Write};
use std::mem::drop;
use std::process::Abort;
use world::World;

/// A client that logs in and asks for the youngest revision.
const CLIENT: &[u8] =
    b"( 2 ( edit-pipeline ) 11:svn://h/r/t ) ( ANONYMOUS ( ) ) ( get-latest-rev ( ) ) ";

const ANSWER: &[u8] = b"( success ( ( ANONYMOUS ) 1:r ) ) ( success ( ) ) \
      ( success ( 36:00000000-0000-4000-8000-000000000000 9:svn://h/r ( ) ) ) \
      ( success ( ( ) 0: ) ) ( success ( 0 ) ) ";

/// Gives the bytes that a call wrote, or `dropped` or `failed` for an outcome without any.
fn wrote(outcome: &Outcome) -> &[u8] {
    match outcome {
        Outcome::Connected(_, out) => out.as_slice(),
        Outcome::Wrote(out) => out.as_slice(),
        Outcome::Dropped => b"dropped",
        Outcome::Failed(_) => b"failed",
    }
}

/// Says whether a list of calls writes what it is to write, call by call.
fn are_answered<A: SoleAccess + Drop>(rt: &impl Abort, alloc: Global, hub: Hub<A>) -> bool {
    let mut hub = hub;
    let client = Vec::from_slice(alloc, CLIENT).expect(rt, "memory");
    let calls = vec![in alloc;
        Call::Connect,
        Call::Feed(1, client, ENV),
        Call::Disconnect(1),
        Call::Connect,
    ];
    let calls = calls.expect(rt, "memory");
    let outcomes = make_calls(alloc, &mut hub, calls.as_slice()).expect(rt, "memory");
    let mut out = Vec::new(alloc);
    for outcome in outcomes.as_slice() {
        out.extend_from_slice(wrote(outcome)).expect(rt, "memory");
    }
    are(out.as_slice(), &[GREETING, ANSWER, b"dropped", GREETING])
}

/// Says whether that is so over a new repository.
fn are_answered_over<R: InMemory>(rt: &impl Abort, alloc: Global) -> bool {
    are_answered(rt, alloc, new_hub::<R>(rt, alloc, options_of_r(rt, alloc)))
}

#[test]
fn a_list_of_calls(rt: HostRuntime) {
    let alloc = rt.alloc();
    assert!(rt;
        are_answered_over::<World>(&rt, alloc) && are_answered_over::<FlatRepo>(&rt, alloc)
    );
}

/// A command, and what is written for it.
const COMMAND: &[u8] = b"( get-latest-rev ( ) ) ";

const REPLIES: &[u8] = b"( success ( ( ) 0: ) ) ( success ( 0 ) ) ";

/// What is told where an item is malformed.
const MALFORMED: &[u8] = b"( failure ( ( 210004 14:malformed data 0: 0 ) ) ) ";

/// Says whether the session ends within a million lists that are opened, and what came before in the piece is answered.
fn ends_within<A: SoleAccess + Drop>(rt: &impl Abort, alloc: Global, hub: Hub<A>) -> bool {
    let mut hub = hub;
    let (number, _) = hub.connect().expect(rt, "a session");
    drop(hub.feed(number, CLIENT, ENV).expect(rt, "replies"));
    let lists = b"( ".repeat(alloc, 1_000_000).expect(rt, "memory");
    let mut sent = Vec::from_slice(alloc, COMMAND).expect(rt, "memory");
    sent.extend_from_slice(lists.as_slice())
        .expect(rt, "memory");
    let told = hub.feed(number, sent.as_slice(), ENV).expect(rt, "replies");
    are(told.as_slice(), &[REPLIES, MALFORMED]) && !hub.is_open(number)
}

#[test]
fn a_million_lists_are_not_opened(rt: HostRuntime) {
    let hub = new_hub::<World>(&rt, rt.alloc(), options_of_r(&rt, rt.alloc()));
    assert!(rt; ends_within(&rt, rt.alloc(), hub));
}

/// How many revisions there may be behind revision 0.
const LAST: usize = 262_143;

/// A client at the root, and a commit of nothing.
const AT_ROOT: &[u8] = b"( 2 ( edit-pipeline ) 9:svn://h/r ) ( ANONYMOUS ( ) ) ";

const COMMIT: &[u8] = b"( commit ( 0: ( ) false ) ) ( open-root ( ( ) 2:d0 ) ) ( close-edit ( ) ) ";

/// What is told where there are all revisions that there may be: the youngest, and that a commit is refused.
const YOUNGEST: &[u8] = b"( success ( ( ) 0: ) ) ( success ( 262143 ) ) ";

const REFUSED: &[u8] = b"( success ( ( ) 0: ) ) ( success ( ) ) \
      ( failure ( ( 200007 13:not supported 0: 0 ) ) ) ";

/// Says whether a commit is refused where there are all revisions that there may be, and adds none.
fn is_refused_at_last<A: SoleAccess + Drop>(rt: &impl Abort, alloc: Global, hub: Hub<A>) -> bool {
    let mut hub = hub;
    let (number, _) = hub.connect().expect(rt, "a session");
    drop(hub.feed(number, AT_ROOT, ENV).expect(rt, "replies"));
    let commits = COMMIT.repeat(alloc, LAST).expect(rt, "memory");
    drop(
        hub.feed(number, commits.as_slice(), ENV)
            .expect(rt, "replies"),
    );
    let mut sent = Vec::from_slice(alloc, COMMAND).expect(rt, "memory");
    sent.extend_from_slice(COMMIT).expect(rt, "memory");
    sent.extend_from_slice(COMMAND).expect(rt, "memory");
    let told = hub.feed(number, sent.as_slice(), ENV).expect(rt, "replies");
    are(told.as_slice(), &[YOUNGEST, REFUSED, YOUNGEST])
}

#[test]
fn there_are_262_144_revisions_at_most(rt: HostRuntime) {
    let hub = new_hub::<World>(&rt, rt.alloc(), options_of_r(&rt, rt.alloc()));
    assert!(rt; is_refused_at_last(&rt, rt.alloc(), hub));
}

/// Notes how it is called.
#[derive(Drop)]
struct Noting {
    bytes: Vec<u8>,
    writes: usize,
    largest: usize,
}

impl Write for Noting {
    fn write(&mut self, buf: &[u8]) -> io::Result<usize> {
        if self.bytes.extend_from_slice(buf).is_err() {
            return Err(io::Error::from(ErrorKind::OutOfMemory));
        }
        self.writes = self.writes.saturating_add(1);
        self.largest = self.largest.max(buf.len());
        Ok(buf.len())
    }

    fn flush(&mut self) -> io::Result<()> {
        Ok(())
    }
}

/// Gives what is noted where many commands come in one piece.
fn noted<A: SoleAccess + Drop>(rt: &impl Abort, alloc: Global, hub: Hub<A>) -> Noting {
    let mut hub = hub;
    let (number, _) = hub.connect().expect(rt, "a session");
    drop(hub.feed(number, CLIENT, ENV).expect(rt, "replies"));
    let commands = COMMAND.repeat(alloc, 30_000).expect(rt, "memory");
    let mut output = Noting {
        bytes: Vec::new(alloc),
        writes: 0,
        largest: 0,
    };
    let mut turn = Turn {
        alloc,
        env: ENV,
        out: OutputSink::new(alloc, &mut output),
    };
    hub.feed_to(number, commands.as_slice(), &mut turn)
        .expect(rt, "replies");
    turn.out.finish().expect(rt, "a write");
    drop(turn);
    output
}

/// Says whether all replies were written, in pieces that end behind 65,536 bytes, and how large the largest was.
fn largest_piece(rt: &impl Abort, alloc: Global, output: &Noting) -> (bool, usize) {
    let wanted = REPLIES.repeat(alloc, 30_000).expect(rt, "memory");
    let are_written = output.bytes.as_slice() == wanted.as_slice()
        && output.largest >= 65_536
        && output.largest < 65_536 + REPLIES.len()
        && output.writes == wanted.len().div_ceil(65_536);
    (are_written, output.largest)
}

/// Says so of the replies over a new repository.
fn largest_piece_over<R: InMemory>(rt: &impl Abort, alloc: Global) -> (bool, usize) {
    let hub = new_hub::<R>(rt, alloc, options_of_r(rt, alloc));
    largest_piece(rt, alloc, &noted(rt, alloc, hub))
}

#[test]
fn replies_go_out_as_they_are_made(rt: HostRuntime) {
    let (are_written, largest) = largest_piece_over::<World>(&rt, rt.alloc());
    assert!(rt; are_written && largest_piece_over::<FlatRepo>(&rt, rt.alloc()) == (true, largest));
}

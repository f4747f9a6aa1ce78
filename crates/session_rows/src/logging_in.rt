//! A client of a server that was started with a file of users has to log in before it changes anything.
ghost use Rattle.std.specs.Prelude.{◌≡◌};

use crate::clients::{come, hear, send, serve_with};
use command_line::{Location, Service};
use cram::hmac_md5;
use published::{Naming, NewHistory};
use serving::{Server, Settings, read_settings};
use std::alloc::Global;
use std::fs;
use std::io::{Eprint, Print, Read};
use std::marker::Brand;
use std::net::{Net, SocketAddr, TcpListener, TcpStream};
use std::process::Abort;
use std::random::RandomSource;
use std::rt::Runtime;
use std::sync::Wait;
use std::thread::{Threads, join};
use std::time::Clock;

/// The client comes without a name.
const LOGIN: &[u8] = b"( 2 ( edit-pipeline ) 9:svn://h/r ) ( ANONYMOUS ( 0: ) ) ";

/// What it is told.
const WELCOME: &[u8] =
    b"( success ( 2 2 ( ) ( edit-pipeline absent-entries commit-revprops depth atomic-revprops ) ) ) \
      ( success ( ( ANONYMOUS CRAM-MD5 ) 1:r ) ) ( success ( ) ) \
      ( success ( 36:00000000-0000-4000-8000-000000000000 9:svn://h/r ( ) ) ) ";

/// It commits, and is asked to log in.
const COMMIT: &[u8] = b"( commit ( 5:first ( ) false ) ) ";

const DEMAND: &[u8] = b"( success ( ( CRAM-MD5 ) 1:r ) ) ";

const CHOICE: &[u8] = b"( CRAM-MD5 ( ) ) ";

/// An answer under no password, and what it is told.
const WRONG: &[u8] = b"38:alice 00000000000000000000000000000000 ";

const FAILED: &[u8] = b"( failure ( 12:login failed ) ) ";

/// What it is told at the right answer: it has logged in, and its commit begins.
const LOGGED_IN: &[u8] = b"( success ( ) ) ( success ( ) ) ";

/// It gives its commit up, and changes a property of a revision, which no client of this server may do.
const CHANGE: &[u8] = b"( abort-edit ( ) ) ( change-rev-prop ( 0 7:svn:log 1:x ) ) ";

const CLOSED: &[u8] = b"( success ( ) ) ( success ( ( ) 0: ) ) \
      ( failure ( ( 165006 30:revision properties are closed 0: 0 ) ) ) ";

/// Reads what a server is asked to serve by: a file with a user alice, whose password is `secret`, and no changes of the
/// properties of revisions.
fn settings<R: Abort + Runtime>(rt: &R, alloc: Global) -> Settings {
    fs::write(rt, "guests", b"[users]\nalice = secret\n").expect(rt, "a file");
    let text = |text: &str| String::from_str(alloc, text).expect(rt, "memory");
    let asked = Service {
        location: Location::Memory,
        listen: vec![in alloc; text("127.0.0.1:0")].expect(rt, "memory"),
        name: text("r"),
        users: text("guests"),
        sessions: 16,
        per_address: 16,
        revprops: false,
        quiet: true,
        exit_on_halt: false,
    };
    let read = read_settings(rt, alloc, &asked);
    fs::remove_file(rt, "guests").expect(rt, "the file");
    read.expect(rt, "settings")
}

/// Reads a challenge: `( step ( LENGTH:CHALLENGE ) ) `.
fn hear_challenge(rt: &impl Abort, alloc: Global, stream: &mut TcpStream) -> Vec<u8> {
    hear(rt, stream, b"( step ( ");
    let mut told = Vec::new(alloc);
    let mut byte = [0; 1];
    for _ in 0..100 {
        stream.read_exact(&mut byte).expect(rt, "a byte");
        match byte[0] {
            // what came before was the length
            b':' => told.clear(),
            b' ' => {
                hear(rt, stream, b") ) ");
                return told;
            }
            other => told.push(other).expect(rt, "memory"),
        }
    }
    panic!(rt; "a challenge without an end")
}

/// Answers a challenge as alice does.
fn answer(rt: &impl Abort, stream: &mut TcpStream, challenge: &[u8]) {
    let mut digits = [0; 32];
    hex::encode_to_slice(&hmac_md5(b"secret", challenge), &mut digits).unwrap();
    send(rt, stream, b"38:alice ");
    send(rt, stream, &digits);
    send(rt, stream, b" ");
}

/// Has a client commit that logs in only when it has to, first in vain.
fn log_in<R: Abort + Net<Stream = TcpStream>>(rt: &R, alloc: Global, address: SocketAddr) {
    let mut stream = come(rt, address);
    send(rt, &mut stream, LOGIN);
    hear(rt, &mut stream, WELCOME);
    send(rt, &mut stream, COMMIT);
    hear(rt, &mut stream, DEMAND);
    send(rt, &mut stream, CHOICE);
    let _unanswered = hear_challenge(rt, alloc, &mut stream);
    send(rt, &mut stream, WRONG);
    hear(rt, &mut stream, FAILED);
    send(rt, &mut stream, CHOICE);
    let challenge = hear_challenge(rt, alloc, &mut stream);
    answer(rt, &mut stream, challenge.as_slice());
    hear(rt, &mut stream, LOGGED_IN);
    send(rt, &mut stream, CHANGE);
    hear(rt, &mut stream, CLOSED);
}

/// Has a client log in at a server of its own. A client that is sent something else ends the process.
fn serve_one<J, R>(server: &Server<'_, R>, history: NewHistory)
where
    J: Naming + Send + Sync + 'static,
    R: Net<Listener = TcpListener, Stream = TcpStream>
        + Abort
        + Clock
        + Eprint
        + Print
        + RandomSource
        + Threads
        + Wait
        + Sync,
    requires { history.seen.book ≡ J.book }
{
    let (rt, alloc) = (server.rt, server.alloc);
    let listener = TcpListener::bind(rt, server.settings.addresses.as_slice()).expect(
        rt,
        "a listener",
    );
    let address = listener.local_addr().expect(rt, "an address");
    join(
        rt,
        ||
            requires { history.seen.book ≡ J.book }
        { serve_with::<J, R>(server, &listener, 1, history) },
        || log_in(rt, alloc, address),
    );
}

#[test]
fn who_changes_something_has_to_log_in(rt: HostRuntime) {
    let settings = settings(&rt, rt.alloc());
    let server = Server {
        rt: &rt,
        alloc: rt.alloc(),
        settings: &settings,
    };
    serve_one::<Brand, HostRuntime>(&server, NewHistory::new());
}

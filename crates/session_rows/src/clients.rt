//! Sessions over TCP.
ghost use Rattle.std.specs.Prelude.{◌≡◌};

use crate::connections::{GREETING, LOGIN, WELCOME};
use crate::repositories::{desks_at, empty_repository};
use filed_repository::FiledWorld;
use machine::Options;
use published::{Naming, NewHistory};
use serving::{Server, Settings, serve_connections};
use std::alloc::Global;
use std::io::{Eprint, Print, Read, Write};
use std::marker::Brand;
use std::mem::drop;
use std::net::{Ipv4Addr, Net, SocketAddr, SocketAddrV4, TcpListener, TcpStream};
use std::process::Abort;
use std::random::RandomSource;
use std::slice;
use std::sync::Wait;
use std::thread::{Threads, join};
use std::time::{Clock, Duration};
use store_files::MemoryStore;

/// What clients do.
#[derive(Clone, Copy)]
enum Clients {
    /// Two commit, one of them while the other is inside its commit, and a third comes then.
    Commit,
    /// As many are open as may be while another comes, and then one leaves.
    Fill,
    /// The same, where there may be five sessions.
    FillFew,
    /// The same, where one address may have three of sixteen.
    FillAddress,
}

impl Clients {
    /// Says how many there are.
    fn count(self) -> usize {
        match self {
            Clients::Commit => 3,
            Clients::Fill => 18,
            Clients::FillFew => 7,
            Clients::FillAddress => 5,
        }
    }

    /// Says how many sessions there may be.
    fn sessions(self) -> u64 {
        match self {
            Clients::FillFew => 5,
            Clients::Commit | Clients::Fill | Clients::FillAddress => 16,
        }
    }

    /// Says how many sessions one address may have.
    fn per_address(self) -> u64 {
        match self {
            Clients::FillAddress => 3,
            Clients::Commit | Clients::Fill | Clients::FillFew => self.sessions(),
        }
    }
}

/// What who finds no place is told.
const REFUSAL: &[u8] = b"( failure ( ( 200007 13:not supported 0: 0 ) ) ) ";

/// The first client begins an edit.
const OPEN: &[u8] = b"( commit ( 5:first ( ) false ) ) ( open-root ( ( ) 2:d0 ) ) ";

/// What it is told.
const OPENED: &[u8] = b"( success ( ( ) 0: ) ) ( success ( ) ) ";

/// The second commits.
const COMMIT: &[u8] = b"( commit ( 6:second ( ) false ) ) ( open-root ( ( ) 2:d0 ) ) \
      ( add-dir ( 5:trunk 2:d0 2:d1 ( ) ) ) ( close-dir ( 2:d1 ) ) ( close-dir ( 2:d0 ) ) \
      ( close-edit ( ) ) ";

/// What it is told up to the date of its revision.
const FIRST: &[u8] = b"( success ( ( ) 0: ) ) ( success ( ) ) ( success ( ) ) \
      ( success ( ( ) 0: ) ) ( 1 ( 27:";

/// It reads.
const READ: &[u8] = b"( get-latest-rev ( ) ) ( check-path ( 5:trunk ( ) ) ) ";

/// What it is told.
const WAS_READ: &[u8] = b"( success ( ( ) 0: ) ) ( success ( 1 ) ) \
      ( success ( ( ) 0: ) ) ( success ( dir ) ) ";

/// The first ends its edit.
const CLOSE: &[u8] = b"( add-dir ( 8:branches 2:d0 2:d1 ( ) ) ) ( close-dir ( 2:d1 ) ) \
      ( close-dir ( 2:d0 ) ) ( close-edit ( ) ) ";

/// What it is told up to the date of its revision.
const SECOND: &[u8] = b"( success ( ) ) ( success ( ( ) 0: ) ) ( 2 ( 27:";

/// Connects a client. It waits for 20 seconds at most.
pub(crate) fn come<R: Abort + Net<Stream = TcpStream>>(rt: &R, address: SocketAddr) -> TcpStream {
    let stream = TcpStream::connect(rt, address).expect(rt, "a connection");
    let patience = Some(Duration::from_secs(20));
    stream.set_read_timeout(patience).expect(rt, "a limit");
    stream
}

/// Sends a client's words.
pub(crate) fn send(rt: &impl Abort, stream: &mut TcpStream, words: &[u8]) {
    stream.write_all(words).expect(rt, "a write");
}

/// Reads what a client is sent next, which is to be this.
pub(crate) fn hear(rt: &impl Abort, stream: &mut TcpStream, words: &[u8]) {
    let mut told = [0; 256];
    let told = &mut told[..words.len().min(256)];
    stream.read_exact(told).expect(rt, "a reply");
    assert!(rt; &*told == words);
}

/// Reads the same, a date, and the end of a commit without an author.
fn hear_of_commit(rt: &impl Abort, stream: &mut TcpStream, words: &[u8]) {
    hear(rt, stream, words);
    stream.read_exact(&mut [0; 27]).expect(rt, "a date");
    hear(rt, stream, b" ) ( ) ( ) ) ");
}

/// Has a client commit and read while another is inside its commit, which is made afterwards. Who comes then is greeted.
fn commit_two<R: Abort + Net<Stream = TcpStream>>(rt: &R, address: SocketAddr) {
    let mut first = come(rt, address);
    send(rt, &mut first, LOGIN);
    send(rt, &mut first, OPEN);
    hear(rt, &mut first, WELCOME);
    hear(rt, &mut first, OPENED);
    let mut second = come(rt, address);
    send(rt, &mut second, LOGIN);
    send(rt, &mut second, COMMIT);
    hear(rt, &mut second, WELCOME);
    hear_of_commit(rt, &mut second, FIRST);
    send(rt, &mut second, READ);
    hear(rt, &mut second, WAS_READ);
    send(rt, &mut first, CLOSE);
    hear_of_commit(rt, &mut first, SECOND);
    drop(come_greeted(rt, address));
}

/// Connects a client, which is greeted.
fn come_greeted<R: Abort + Net<Stream = TcpStream>>(rt: &R, address: SocketAddr) -> TcpStream {
    let mut stream = come(rt, address);
    hear(rt, &mut stream, GREETING);
    stream
}

/// Connects a client, which is refused and meets the end.
fn come_refused<R: Abort + Net<Stream = TcpStream>>(rt: &R, address: SocketAddr) {
    let mut stream = come(rt, address);
    hear(rt, &mut stream, REFUSAL);
    assert!(rt; stream.read(&mut [0; 1]).expect(rt, "an end") == 0);
}

/// Has so many clients come, and one more that is refused; and once one of the others has gone another one.
fn fill<R: Abort + Net<Stream = TcpStream>>(
    rt: &R,
    alloc: Global,
    address: SocketAddr,
    places: u64,
) {
    let mut open = Vec::new(alloc);
    for _ in 0..places {
        open.push(come_greeted(rt, address)).expect(rt, "memory");
    }
    come_refused(rt, address);
    drop(open.pop());
    drop(come_greeted(rt, address));
}

/// Has the clients come.
fn come_all<R: Abort + Net<Stream = TcpStream>>(
    rt: &R,
    alloc: Global,
    address: SocketAddr,
    clients: Clients,
) {
    match clients {
        Clients::Commit => commit_two(rt, address),
        Clients::Fill | Clients::FillFew | Clients::FillAddress => {
            fill(rt, alloc, address, clients.per_address())
        }
    }
}

/// Serves so many clients on an empty repository, and answers once all have gone.
pub(crate) fn serve_with<J, R>(
    server: &Server<'_, R>,
    listener: &TcpListener,
    count: usize,
    history: NewHistory,
)
where
    J: Naming + Send + Sync + 'static,
    R: Net<Listener = TcpListener, Stream = TcpStream>
        + Abort
        + Clock
        + Eprint
        + Print
        + RandomSource
        + Threads
        + Wait
        + Sync,
    requires { history.seen.book ≡ J.book }
{
    let (rt, alloc) = (server.rt, server.alloc);
    let stored = empty_repository(rt, alloc);
    let sessions = server.settings.sessions;
    let desks = desks_at::<R, FiledWorld, MemoryStore, J>(rt, alloc, stored, history, sessions);
    serve_connections(server, slice::from_ref(listener), count, desks).expect(rt, "all threads");
}

/// Serves these clients on an empty repository, and answers once all have gone.
fn serve<J, R>(rt: &R, alloc: Global, listener: &TcpListener, clients: Clients, history: NewHistory)
where
    J: Naming + Send + Sync + 'static,
    R: Net<Listener = TcpListener, Stream = TcpStream>
        + Abort
        + Clock
        + Eprint
        + Print
        + RandomSource
        + Threads
        + Wait
        + Sync,
    requires { history.seen.book ≡ J.book }
{
    let settings = Settings {
        options: Options::new(alloc, "r").expect(rt, "memory"),
        addresses: Vec::new(alloc),
        sessions: clients.sessions(),
        per_address: clients.per_address(),
        is_exposed: false,
        is_writable: false,
        is_quiet: true,
        exits_on_halt: false,
    };
    let server = Server {
        rt,
        alloc,
        settings: &settings,
    };
    serve_with::<J, R>(&server, listener, clients.count(), history);
}

/// Has clients come to a server of their own. A client that is sent something else ends the process.
fn serve_clients<J, R>(rt: &R, alloc: Global, clients: Clients, history: NewHistory)
where
    J: Naming + Send + Sync + 'static,
    R: Net<Listener = TcpListener, Stream = TcpStream>
        + Abort
        + Clock
        + Eprint
        + Print
        + RandomSource
        + Threads
        + Wait
        + Sync,
    requires { history.seen.book ≡ J.book }
{
    let address = SocketAddrV4::new(Ipv4Addr::LOCALHOST, 0);
    let listener = TcpListener::bind(rt, address).expect(rt, "a listener");
    let address = listener.local_addr().expect(rt, "an address");
    join(
        rt,
        ||
            requires { history.seen.book ≡ J.book }
        { serve::<J, R>(rt, alloc, &listener, clients, history) },
        || come_all(rt, alloc, address, clients),
    );
}

#[test]
fn a_client_commits_while_another_is_inside_its_commit(rt: HostRuntime) {
    serve_clients::<Brand, HostRuntime>(&rt, rt.alloc(), Clients::Commit, NewHistory::new());
}

#[test]
fn the_seventeenth_is_turned_away(rt: HostRuntime) {
    serve_clients::<Brand, HostRuntime>(&rt, rt.alloc(), Clients::Fill, NewHistory::new());
}

#[test]
fn the_sixth_of_five_is_turned_away(rt: HostRuntime) {
    serve_clients::<Brand, HostRuntime>(&rt, rt.alloc(), Clients::FillFew, NewHistory::new());
}

#[test]
fn the_fourth_of_an_address_is_turned_away(rt: HostRuntime) {
    serve_clients::<Brand, HostRuntime>(&rt, rt.alloc(), Clients::FillAddress, NewHistory::new());
}

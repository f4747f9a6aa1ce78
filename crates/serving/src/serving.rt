//! Sessions over TCP: a thread for each, at one repository that they share.
ghost use Rattle.std.specs.Prelude.{◌≡◌, All};
ghost use Rattle.access.specs.Points.{content_of};
ghost use Rattle.published.specs.Events.{point_of};
ghost use Rattle.repo_api.specs.Soundness.{AreSound};
ghost use Rattle.session_pool.specs.Serving.{settings_of};

use crate::desks::{Desk, Desks, SharedFiles, work_at};
use crate::fault::ServingFault;
use crate::opening::{Aloud, Opening, Silent};
use crate::reason::Reason;
use crate::settings::{Server, Settings};
use crossbeam_channel::{Receiver, Sender, unbounded};
use entrance::{
    ClientVisit, Door, Entrance, Event, Pool, ReadOnce, Readings, Registry, Street, Tunnel,
    take_all, too_few_files,
};
use filed_repository::FiledWorld;
use journals::{Journal, Room, write_lines};
use published::Naming;
use session_pool::SessionPool;
use std::alloc::Global;
use std::fs::Files;
use std::io::{Eprint, Print};
use std::net::{Net, SocketAddr, TcpListener, TcpStream};
use std::random::RandomSource;
use std::sync::Wait;
use std::thread;
use std::thread::Threads;
use std::time::Clock;
use store_files::{Store, StoreFault};
use stored_repository::Filed;

/// Takes the connections of a door at an entrance of a repository in files: for any repository, since at a named one the
/// checker reaches its limit of steps.
fn take_at<'e, R, F, S, J, D>(
    entrance: &'e Entrance<'e, R, SharedFiles<F, S, J>>,
    pool: &Pool<'_, R>,
    visits: &Sender<ClientVisit<'e, R>>,
    door: &D,
)
where
    R: Clock + Net + Wait,
    F: Filed,
    S: Store,
    J: Naming,
    D: Door,
{
    take_all(entrance, pool, visits, door)
}

/// Says why no more connections are taken, where that is a fault.
fn ending_of<R, F, S, J>(
    entrance: &Entrance<'_, R, SharedFiles<F, S, J>>,
) -> Result<(), ServingFault>
where
    F: Filed,
    S: Store,
    J: Naming,
{
    if entrance.is_closing() {
        return Err(ServingFault::Store(StoreFault::Halted));
    }
    Ok(())
}

/// The doors by which clients come in: over TCP, and by tunnels where there is a socket in the folder.
#[derive(Drop)]
struct Doors<'a, N> {
    street: &'a Street<'a, N>,
    tunnel: Option<&'a Tunnel>,
}

/// The way of connections to the threads that serve them, by these doors, and what is told as it opens.
#[derive(Drop)]
struct Way<'a, 'e, R, O, N> {
    sender: Sender<ClientVisit<'e, R>>,
    visits: &'a Receiver<ClientVisit<'e, R>>,
    opening: &'a O,
    doors: Doors<'a, N>,
}

/// Starts a thread for each desk, tells that all have started, and takes connections: those over TCP itself, those by tunnels in
/// a thread of their own. It answers once no more are to be taken and all sessions have ended, by a fault where changes have
/// come to a halt; or where a thread cannot be started.
fn run_pool<'e, R, S, J, O, N>(
    server: &Server<'_, R>,
    entrance: &'e Entrance<'e, R, SharedFiles<FiledWorld, S, J>>,
    pool: &Pool<'_, R>,
    way: Way<'_, 'e, R, O, N>,
    desks: Vec<Desk<'_, R, FiledWorld, S, J>>,
) -> Result<(), ServingFault>
where
    R: Net<Listener = TcpListener, Stream = TcpStream>
        + Clock
        + Eprint
        + RandomSource
        + Threads
        + Wait
        + Sync,
    S: Store + Send + Sync + 'static,
    J: Naming + Send + Sync + 'static,
    O: Opening,
    N: Readings,
    requires options { settings_of pool.now ≡ server.now.settings.now.options }
    requires sound { All (λ d. AreSound (content_of (point_of d.seat)).revisions) desks.items }
{
    let Way {
        sender,
        visits,
        opening,
        doors,
    } = way;
    thread::scope(
        thread::scope_env(),
        server.rt,
        move |scope| -> Result<(), ServingFault>
            requires { (settings_of pool.now ≡ server.now.settings.now.options)
                × All (λ d. AreSound (content_of (point_of d.seat)).revisions) desks.items }
        {
            for desk in desks {
                let worker = scope.spawn(
                    move ||
                        requires { (settings_of pool.now ≡ server.now.settings.now.options)
                            × AreSound (content_of (point_of desk.seat)).revisions }
                    { work_at(server, pool, visits, desk) },
                );
                if worker.is_err() {
                    return Err(ServingFault::Thread);
                }
            }
            opening.tell(&entrance.registry)?;
            let Doors { street, tunnel } = doors;
            if let Some(tunnel) = tunnel {
                let sender = sender.clone()?;
                let taker = scope.spawn(move || take_at(entrance, pool, &sender, tunnel));
                if taker.is_err() {
                    return Err(ServingFault::Thread);
                }
            }
            take_at(entrance, pool, &sender, street);
            ending_of(entrance)
        },
    )
}

/// Serves the connections that come in by an entrance, each at one of these desks.
fn serve_desks<'e, R, S, J, O, N>(
    server: &Server<'_, R>,
    entrance: &'e Entrance<'e, R, SharedFiles<FiledWorld, S, J>>,
    told: (&O, Doors<'_, N>),
    desks: Vec<Desk<'_, R, FiledWorld, S, J>>,
) -> Result<(), ServingFault>
where
    R: Net<Listener = TcpListener, Stream = TcpStream>
        + Clock
        + Eprint
        + RandomSource
        + Threads
        + Wait
        + Sync,
    S: Store + Send + Sync + 'static,
    J: Naming + Send + Sync + 'static,
    O: Opening,
    N: Readings,
    requires { All (λ d. AreSound (content_of (point_of d.seat)).revisions) desks.items }
{
    let (opening, doors) = told;
    let (sender, visits) = unbounded::<ClientVisit<'e, R>, Global>(entrance.alloc)?;
    let options = &server.settings.options;
    let pool = SessionPool::new(
        options,
        &entrance.registry,
        &entrance.registry,
        server.settings.sessions,
    );
    let way = Way {
        sender,
        visits: &visits,
        opening,
        doors,
    };
    run_pool(server, entrance, &pool, way, desks)
}

/// Where connections come in, how many are taken, what is told once they are, and who knows the newest reading of the file of
/// users.
#[derive(Drop)]
struct Arrivals<'a, O, N> {
    listeners: &'a [TcpListener],
    tunnel: Option<&'a Tunnel>,
    connections: usize,
    opening: &'a O,
    readings: &'a N,
}

/// Serves so many connections at the desks of a repository, one after another, each in the thread of a desk. It
/// answers once all have ended, or where a thread fails. The file of users is not read again.
pub fn serve_connections<R, S, J>(
    server: &Server<'_, R>,
    listeners: &[TcpListener],
    connections: usize,
    desks: Desks<'_, R, FiledWorld, S, J>,
) -> Result<(), ServingFault>
where
    R: Net<Listener = TcpListener, Stream = TcpStream>
        + Clock
        + Eprint
        + RandomSource
        + Threads
        + Wait
        + Sync,
    S: Store + Send + Sync + 'static,
    J: Naming + Send + Sync + 'static,
    requires { All (λ d. AreSound (content_of (point_of d.seat)).revisions) desks.1.items }
{
    let arrivals = Arrivals {
        listeners,
        tunnel: None,
        connections,
        opening: &Silent,
        readings: &ReadOnce,
    };
    serve_arrivals(server, arrivals, desks)
}

/// Tells what is to be known of the file of users before any client comes.
fn tell_of_users<R: Clock + Eprint>(settings: &Settings, registry: &Registry<'_, R>) {
    if settings.is_exposed {
        registry.tell_first(Event::UsersReadable);
    }
    if settings.is_writable {
        registry.tell_first(Event::UsersWritable);
    }
}

/// Serves the connections that arrive, and tells of them in a journal.
fn serve_told<R, S, J, O, N>(
    server: &Server<'_, R>,
    arrivals: Arrivals<'_, O, N>,
    journal: Journal<'_, R>,
    desks: Desks<'_, R, FiledWorld, S, J>,
) -> Result<(), ServingFault>
where
    R: Net<Listener = TcpListener, Stream = TcpStream>
        + Clock
        + Eprint
        + RandomSource
        + Threads
        + Wait
        + Sync,
    S: Store + Send + Sync + 'static,
    J: Naming + Send + Sync + 'static,
    O: Opening,
    N: Readings,
    requires { All (λ d. AreSound (content_of (point_of d.seat)).revisions) desks.1.items }
{
    let (repository, desks) = desks;
    let (rt, alloc) = (server.rt, server.alloc);
    let Arrivals {
        listeners,
        tunnel,
        connections,
        opening,
        readings,
    } = arrivals;
    let exits_on_halt = server.settings.exits_on_halt;
    let wakes_at = match listeners {
        [listener] if exits_on_halt => listener.local_addr().ok(),
        _ => None,
    };
    let entrance = Entrance {
        rt,
        alloc,
        connections,
        per_address: server.settings.per_address,
        registry: Registry::new(rt, alloc, journal, server.settings.sessions, wakes_at),
        repository,
        exits_on_halt,
    };
    tell_of_users(server.settings, &entrance.registry);
    let street = Street::new(listeners, readings);
    let doors = Doors {
        street: &street,
        tunnel,
    };
    serve_desks(server, &entrance, (opening, doors), desks)
}

/// Serves the connections that arrive, while a thread writes what is told of them. That ends once all is written.
fn serve_arrivals<R, S, J, O, N>(
    server: &Server<'_, R>,
    arrivals: Arrivals<'_, O, N>,
    desks: Desks<'_, R, FiledWorld, S, J>,
) -> Result<(), ServingFault>
where
    R: Net<Listener = TcpListener, Stream = TcpStream>
        + Clock
        + Eprint
        + RandomSource
        + Threads
        + Wait
        + Sync,
    S: Store + Send + Sync + 'static,
    J: Naming + Send + Sync + 'static,
    O: Opening,
    N: Readings,
    requires { All (λ d. AreSound (content_of (point_of d.seat)).revisions) desks.1.items }
{
    let (rt, alloc, is_quiet) = (server.rt, server.alloc, server.settings.is_quiet);
    let (sender, receiver) = unbounded::<String, Global>(alloc)?;
    let all_room = Room::new();
    let (room, lines) = (&all_room, &receiver);
    thread::scope(
        thread::scope_env(),
        rt,
        move |scope| -> Result<(), ServingFault>
            requires { All (λ d. AreSound (content_of (point_of d.seat)).revisions) desks.1.items }
        {
            let writer = scope.spawn(move || write_lines(rt, alloc, room, lines));
            if writer.is_err() {
                return Err(ServingFault::Thread);
            }
            let journal = Journal::new(rt, alloc, is_quiet, room, sender);
            serve_told(server, arrivals, journal, desks)
        },
    )
}

/// Listens at these addresses.
fn listeners_at<R>(
    rt: &R,
    alloc: Global,
    addresses: &[SocketAddr],
) -> Result<Vec<TcpListener>, ServingFault>
where
    R: Net<Listener = TcpListener, Stream = TcpStream>,
{
    let mut listeners = Vec::new(alloc);
    for place in 0..addresses.len() {
        match TcpListener::bind(rt, addresses[place]) {
            Ok(listener) => listeners.push(listener)?,
            Err(error) => return Err(ServingFault::Listening(place, Reason::of(&error))),
        }
    }
    Ok(listeners)
}

/// Serves sessions over TCP at the desks of a repository, and those of tunnels where there is a door for them. It prints `ready`
/// once it listens and all threads have started, and answers only where that or a thread fails, or changes have come to a halt
/// and it is to end then. Where the file of users has changed, sessions over TCP that begin from then on are served by its users,
/// if its lines are right.
pub fn serve<R, S, J, N>(
    server: &Server<'_, R>,
    readings: &N,
    tunnel: Option<Tunnel>,
    desks: Desks<'_, R, FiledWorld, S, J>,
) -> Result<(), ServingFault>
where
    R: Net<Listener = TcpListener, Stream = TcpStream>
        + Clock
        + Eprint
        + Files
        + Print
        + RandomSource
        + Threads
        + Wait
        + Sync,
    S: Store + Send + Sync + 'static,
    J: Naming + Send + Sync + 'static,
    N: Readings,
    requires { All (λ d. AreSound (content_of (point_of d.seat)).revisions) desks.1.items }
{
    let addresses = server.settings.addresses.as_slice();
    let listeners = listeners_at(server.rt, server.alloc, addresses)?;
    let opening = Aloud {
        rt: server.rt,
        listeners: listeners.as_slice(),
        too_few_files: too_few_files(server.rt, server.settings.sessions),
        has_tunnel: tunnel.is_some(),
    };
    let arrivals = Arrivals {
        listeners: listeners.as_slice(),
        tunnel: tunnel.as_ref(),
        connections: usize::MAX,
        opening: &opening,
        readings,
    };
    serve_arrivals(server, arrivals, desks)
}

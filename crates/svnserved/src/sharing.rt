//! Sessions over TCP at a repository in a folder.
ghost use Rattle.std.specs.Prelude.{◌≡◌};

use crate::fault::ProgramFault;
use crate::repositories::DiskStore;
use filed_repository::{FiledWorld, FolderRepository, opened_trees_are_sound};
use published::{Naming, NewHistory};
use serving::{Readings, Server, Tunnel, desks_of, serve};
use std::fs::Files;
use std::io::{Eprint, Print};
use std::net::{Net, TcpListener, TcpStream};
use std::random::RandomSource;
use std::sync::Wait;
use std::thread::Threads;
use std::time::Clock;

/// Serves sessions over TCP at a repository that was opened, by the users of a file that is read anew where it has changed; and
/// those of tunnels where there is a door for them.
pub fn serve_shared<J, R, N>(
    server: &Server<'_, R>,
    comes_by: (&N, Option<Tunnel>),
    stored: FolderRepository<DiskStore>,
    history: NewHistory,
) -> Result<(), ProgramFault>
where
    J: Naming + Send + Sync + 'static,
    N: Readings,
    R: Net<Listener = TcpListener, Stream = TcpStream>
        + Clock
        + Eprint
        + Files
        + Print
        + RandomSource
        + Threads
        + Wait
        + Sync,
    requires { history.seen.book ≡ J.book }
{
    opened_trees_are_sound(stored.repository());
    let (rt, alloc) = (server.rt, server.alloc);
    let (readings, tunnel) = comes_by;
    let sessions = server.settings.sessions;
    let desks = desks_of::<R, FiledWorld, DiskStore, J>(rt, alloc, stored, history, sessions)?;
    serve(server, readings, tunnel, desks)?;
    Ok(())
}

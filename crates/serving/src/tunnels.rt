//! The door for the clients of tunnels, in the folder of a repository.

use entrance::Tunnel;
use std::alloc::{AllocError, Global};
use std::fs::Files;
use std::net::Net;
use std::os::unix::fs::PermissionsExt;
use std::os::unix::net::UnixListener;
use std::{fs, io};

/// The rights of a folder that its socket has too: those to read, to write and to search it.
const RIGHTS: u32 = 0o777;

/// Gives the path of the socket in the folder of a repository, by which a server takes the clients of tunnels.
pub fn socket_in(alloc: Global, folder: &str) -> Result<String, AllocError> {
    format!(in alloc; "{folder}/svnserved.socket")
}

/// Listens at a socket in a folder, in the place of one that an earlier server has left, by the rights of the folder.
fn listen_in<R: Files + Net>(rt: &R, folder: &str, socket: &str) -> io::Result<UnixListener> {
    let mode = fs::metadata(rt, folder)?.permissions().mode() & RIGHTS;
    // where there is none, there is nothing to take away; where it cannot be taken away, its name is not free
    let _ = fs::remove_file(rt, socket);
    let listener = UnixListener::bind(rt, socket)?;
    fs::set_permissions(rt, socket, PermissionsExt::from_mode(mode))?;
    Ok(listener)
}

/// Opens the door for the clients of tunnels in the folder of a repository, which this server alone has. There is none where
/// the system makes no socket there. Where the server may end, the door does not wait for clients.
pub fn tunnel_in<R: Files + Net>(
    rt: &R,
    alloc: Global,
    folder: &str,
    may_end: bool,
) -> Result<Option<Tunnel>, AllocError> {
    let socket = socket_in(alloc, folder)?;
    match listen_in(rt, folder, socket.as_str()) {
        Ok(listener) => Ok(Some(Tunnel::new(listener, alloc, !may_end))),
        Err(_) => Ok(None),
    }
}

//! A server that is asked whether it serves.

use crate::fault::ProgramFault;
use health::ask_youngest;
use serving::Reason;
use std::net::{SocketAddr, TcpStream};
use std::time::Duration;

/// How long a server may take to answer, in seconds, each time that it is waited for.
const PATIENCE: u64 = 10;

/// Asks a server for the youngest revision of the repository at a URL.
fn youngest_at(rt: &HostRuntime, address: SocketAddr, url: &str) -> Result<u64, ProgramFault> {
    let patience = Duration::from_secs(PATIENCE);
    let mut stream = match TcpStream::connect_timeout(rt, &address, patience) {
        Ok(stream) => stream,
        Err(error) => return Err(ProgramFault::Unanswered(error.into())),
    };
    // where no limit can be set, none holds
    let _ = stream.set_read_timeout(Some(patience));
    let _ = stream.set_write_timeout(Some(patience));
    Ok(ask_youngest(rt.alloc(), &mut stream, url)?)
}

/// Prints which revision is the youngest of the repository of this name, by the server at an address. A server at which
/// changes have come to a halt lets no client in, and says so.
pub fn tell_status(rt: &HostRuntime, address: &str, name: &str) -> Result<(), ProgramFault> {
    let Ok(place) = address.parse::<SocketAddr>() else {
        return Err(ProgramFault::Address);
    };
    let url = format!(in rt.alloc(); "svn://{address}/{name}")?;
    let youngest = youngest_at(rt, place, url.as_str())?;
    match println!(rt; "{url} is at revision {youngest}, and takes changes") {
        Ok(()) => Ok(()),
        Err(error) => Err(ProgramFault::Output(Reason::of(&error))),
    }
}

//! A session over the standard streams that the server has which has the folder.

use crate::fault::ProgramFault;
use command_line::{Location, SoleSession};
use serving::{Reason, ServingFault, socket_in};
use std::alloc::Global;
use std::io::{ErrorKind, Read, Write};
use std::net::Shutdown;
use std::os::unix::net::UnixStream;
use std::thread::{Builder, Threads};
use std::{env, io};
use store_folder::FolderFault;

/// How many bytes are handed on at a time.
const PIECE: usize = 65_536;

/// The variables of the environment that have the name of the account, as a login sets them.
const NAMES: [&str; 2] = ["LOGNAME", "USER"];

/// Hands on what comes, as it comes, until no more comes or it is not taken any more. What can be neither read nor written
/// ends it too.
fn hand_on<I: Read, O: Write>(alloc: Global, input: &mut I, output: &mut O) -> io::Result<()> {
    let mut piece = Vec::new(alloc);
    piece.resize(PIECE, 0)?;
    for _ in 0..u64::MAX {
        match input.read(piece.as_mut_slice()) {
            Ok(0) => return Ok(()),
            Ok(count) => {
                output.write_all(piece.get(..count).unwrap_or(&[]))?;
                output.flush()?;
            }
            Err(error) if error.kind() == ErrorKind::Interrupted => {}
            Err(error) => return Err(error),
        }
    }
    Ok(())
}

/// Hands on what the client sends, and then tells the server that no more comes.
fn send(rt: HostRuntime, server: UnixStream) {
    let mut output = &server;
    // where it cannot be handed on, the server has ended the session
    let _ = hand_on(rt.alloc(), &mut rt.stdin(), &mut output);
    let _ = server.shutdown(Shutdown::Write);
}

/// Gives the name of the account that the client came as: the one that is said, else that of the account which runs this.
fn account_of(rt: &HostRuntime, session: &SoleSession) -> Result<Option<String>, ProgramFault> {
    if let Some(account) = &session.account {
        return Ok(Some(account.clone()?));
    }
    for name in NAMES {
        if let Ok(account) = env::var(rt, name) {
            return Ok(Some(account));
        }
    }
    Ok(None)
}

/// Connects to the server that has a folder, and tells it as which account the client came. There is none where no server that
/// can be reached listens in the folder.
fn connect(
    rt: &HostRuntime,
    folder: &str,
    session: &SoleSession,
) -> Result<Option<UnixStream>, ProgramFault> {
    let Some(account) = account_of(rt, session)? else {
        return Ok(None);
    };
    let Ok(server) = UnixStream::connect(rt, socket_in(rt.alloc(), folder)?.as_str()) else {
        return Ok(None);
    };
    let line = format!(in rt.alloc(); "{account}\n")?;
    let mut output = &server;
    match output.write_all(line.as_bytes()) {
        Ok(()) => Ok(Some(server)),
        Err(_) => Ok(None),
    }
}

/// Connects to the server that has the folder of a session, and makes a second handle of the connection.
fn connect_twice(
    rt: &HostRuntime,
    session: &SoleSession,
) -> Result<(UnixStream, UnixStream), ProgramFault> {
    if let Location::Folder(folder) = &session.location {
        if let Some(server) = connect(rt, folder.as_str(), session)? {
            if let Ok(other) = server.try_clone() {
                return Ok((server, other));
            }
        }
    }
    Err(ProgramFault::Folder(FolderFault::InUse))
}

/// Has a session served by the server that has its folder: hands on what the client sends and what the server answers, until the
/// server ends the session. Threads are started by who has the runtime of `main`.
pub fn serve_elsewhere<T: Threads>(
    threads: &T,
    rt: &HostRuntime,
    session: &SoleSession,
) -> Result<(), ProgramFault> {
    let (server, other) = connect_twice(rt, session)?;
    let host = *rt;
    // it ends with the program, if not before
    if Builder::new()
        .spawn(threads, move || send(host, other))
        .is_err()
    {
        return Err(ProgramFault::Serving(ServingFault::Thread));
    }
    let mut input = &server;
    match hand_on(rt.alloc(), &mut input, &mut rt.stdout()) {
        Ok(()) => Ok(()),
        Err(error) => Err(ProgramFault::Output(Reason::of(&error))),
    }
}

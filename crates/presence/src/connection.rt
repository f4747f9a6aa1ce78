//! A client at the other end of a connection.
use crate::client::Presence;
use std::alloc::AllocError;
use std::io::{ErrorKind, Write};
use std::net::TcpStream;
use std::sync::Arc;

/// A client at the other end of a connection, if there is one. It has gone where the connection has failed, or where it
/// sends nothing more and all that it has sent was read. What is sent to one that takes nothing any more makes the connection
/// fail, so such a client has gone also where it has sent what was not read.
pub struct Connection {
    stream: Option<Arc<TcpStream>>,
}

impl Drop for Connection {
    fn drop(self) {
        let Connection { stream: _ } = self;
    }
}

impl Connection {
    /// Takes the stream of a connection.
    pub fn new(stream: Arc<TcpStream>) -> Self {
        Connection {
            stream: Some(stream),
        }
    }
}

/// Says whether a connection has nobody at its other end, also where there are bytes that came before. One over TCP has no
/// address there then. One through a socket in a folder has no addresses at all, and takes nothing then, not even no bytes.
fn has_failed(stream: &TcpStream) -> bool {
    if stream.local_addr().is_ok() {
        return stream.peer_addr().is_err();
    }
    let mut output = stream;
    output.write(&[]).is_err()
}

/// Says whether nothing more comes, while no read waits for it.
fn has_ended(stream: &TcpStream) -> bool {
    let mut next = [0; 1];
    match stream.peek(&mut next) {
        Ok(count) => count == 0 || has_failed(stream),
        Err(error) => !matches!(error.kind(), ErrorKind::WouldBlock | ErrorKind::Interrupted),
    }
}

/// Says whether the client at the other end has gone, and does not wait for it. Meanwhile nobody else may read or write.
pub fn has_gone(stream: &TcpStream) -> bool {
    if stream.set_nonblocking(true).is_err() {
        return true;
    }
    let has_ended = has_ended(stream);
    stream.set_nonblocking(false).is_err() || has_ended
}

impl Presence for Connection {
    fn nobody() -> Self {
        Connection { stream: None }
    }

    fn share(&self) -> Result<Self, AllocError> {
        match &self.stream {
            None => Ok(Connection { stream: None }),
            Some(stream) => Ok(Connection {
                stream: Some(Arc::try_clone(stream)?),
            }),
        }
    }

    fn is_gone(&self) -> bool {
        match &self.stream {
            None => false,
            Some(stream) => has_gone(stream.as_ref()),
        }
    }
}

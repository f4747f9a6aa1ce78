//! Clients that are turned away.
ghost use Rattle.std.specs.Prelude.{◌≡◌, ◌∷◌, [], IfOk, None};
ghost use Rattle.wire_replies.specs.{Replies.print, declared.reply.Reply.TheVariants.Failure};

use refusals::Refusal;
use std::alloc::{AllocError, Global};
use std::io::{Read, Write};
use std::net::{Shutdown, TcpStream};
use wire_replies::{MemorySink, tell_refusal};

/// Makes the bytes by which a client is told why it is not served.
fn refusal_bytes(alloc: Global, refusal: Refusal) -> Result<Vec<u8>, AllocError>
    ensures { IfOk result (λ bytes. bytes.items ≡ print (Failure refusal None ∷ [])) }
{
    let mut output = MemorySink::new(alloc);
    tell_refusal(refusal, &mut output)?;
    Ok(output.into_bytes())
}

/// Ends a connection. What has come is read once: where a connection is closed before, the client may not get what it
/// was sent.
fn end(stream: &TcpStream) {
    let _ = stream.shutdown(Shutdown::Write);
    let _ = stream.set_nonblocking(true);
    let mut came = [0; 4096];
    let mut input = stream;
    let _ = input.read(&mut came);
}

/// Tells a client why it is not served, and ends the connection. Nothing waits for the client: what it does not take at once is
/// lost.
pub(crate) fn turn_away(
    alloc: Global,
    stream: &TcpStream,
    refusal: Refusal,
) -> Result<(), AllocError> {
    let bytes = refusal_bytes(alloc, refusal)?;
    let _ = stream.set_nonblocking(true);
    let mut output = stream;
    // a client that is gone already is told nothing
    let _ = output.write_all(bytes.as_slice());
    end(stream);
    Ok(())
}

//! One session over a reader and a writer.
ghost use Rattle.std.specs.Io.KnownBytes.{Appends};
ghost use Rattle.streams.specs.Stream.{scene, PieceSent, PiecesSent, StreamServed};

use crate::fault::ServeFault;
use access::SoleAccess;
use conversations::{Env, EnvSource, OutputSink, PIECE, read_piece, write_and_flush};
use hub::{Hub, SessionId};
use machine::Turn;
use std::io;
use std::io::{ErrorKind, Read, Write};

/// Feeds a piece, and writes what it draws as it is made.
fn answer_piece<A: SoleAccess, W: Write>(
    hub: &mut Hub<A>,
    number: SessionId,
    piece: &[u8],
    env: Env,
    output: &mut W,
) -> Result<(), ServeFault>
    ensures { PieceSent result hub.old env number piece.now hub.new
        (Appends (W.contents output.old) (W.contents output.new)) }
{
    let alloc = hub.alloc();
    let buffer = Vec::new(alloc);
    let mut turn = Turn {
        alloc,
        env,
        out: OutputSink {
            alloc,
            output,
            buffer,
            fault: None,
            refused: 0,
        },
    };
    let fed = hub.feed_to(number, piece, &mut turn);
    let finished = turn.out.finish();
    let OutputSink {
        alloc: _,
        output,
        buffer: _buffer,
        fault: _fault,
        refused: _,
    } = turn.out;
    // No effect at run time. The proof reads what the writer holds from this use of it.
    let _ = &*output;
    match finished {
        Ok(()) => match fed {
            Ok(()) => Ok(()),
            Err(fault) => Err(ServeFault::Hub(fault)),
        },
        Err(error) => Err(ServeFault::Write(error)),
    }
}

/// Answers pieces of the input, each before the next is read, until it ends or the session isn't open any more.
fn serve_pieces<A: SoleAccess, R: Read, W: Write, E: EnvSource>(
    hub: &mut Hub<A>,
    number: SessionId,
    input: &mut R,
    output: &mut W,
    envs: &mut E,
) -> Result<(), ServeFault>
    ensures { PiecesSent result E.gives number
        (scene hub.old (R.remaining input.old) (W.contents output.old) envs.old)
        (scene hub.new (R.remaining input.new) (W.contents output.new) envs.new) }
{
    let mut buffer = [0; PIECE];
    for _ in 0..u64::MAX {
        if !hub.is_open(number) {
            return Ok(());
        }
        let count = read_piece(input, &mut buffer).map_err(ServeFault::Read)?;
        if count == 0 {
            return Ok(());
        }
        let env = envs.next_env();
        answer_piece(hub, number, &buffer[..count], env, output)?;
    }
    Err(ServeFault::Read(io::Error::from(ErrorKind::Other)))
}

/// Serves one session: greets it, and answers each piece of the input before the next is read, until the input ends
/// or the session isn't open any more. Where a read fails, all that was read before is answered.
pub fn run_stdio<A: SoleAccess, R: Read, W: Write, E: EnvSource>(
    hub: &mut Hub<A>,
    input: &mut R,
    output: &mut W,
    envs: &mut E,
) -> Result<(), ServeFault>
    ensures { StreamServed result E.gives
        (scene hub.old (R.remaining input.old) (W.contents output.old) envs.old)
        (scene hub.new (R.remaining input.new) (W.contents output.new) envs.new) }
{
    let (number, greeting) = hub.connect().map_err(ServeFault::Hub)?;
    write_and_flush(output, greeting.as_slice()).map_err(ServeFault::Write)?;
    serve_pieces(hub, number, input, output, envs)
}

//! What a client is told before the answer to its command.
ghost use Rattle.std.specs.Prelude.{◌∷◌, ◌++◌, []};
ghost use Rattle.session_replies.specs.Telling.{told_before};
ghost use Rattle.wire_replies.specs.Sinks.{Says};

use std::alloc::AllocError;
use std::mem::drop;
use wire_replies::{Reply, ReplySink};

/// What a client is told before the answer to its command.
#[derive(Clone, Copy)]
pub enum Preface {
    /// Nothing.
    Nothing,
    /// A login request, which asks for nothing.
    NoLogin,
    /// That its login has succeeded.
    Success,
}

/// Writes what comes before an answer.
pub fn say_preface<S: ReplySink>(preface: Preface, out: &mut S) -> Result<(), AllocError>
    ensures { Says result (S.writes out.old out.new) (told_before preface) }
{
    match preface {
        Preface::Nothing => Ok(()),
        Preface::NoLogin => out.say(&Reply::NoLogin),
        Preface::Success => out.say(&Reply::Success),
    }
}

/// Writes a reply behind what comes before it.
pub fn say_behind<S: ReplySink>(
    preface: Preface,
    reply: &Reply,
    out: &mut S,
) -> Result<(), AllocError>
    ensures { Says result (S.writes out.old out.new) (told_before preface ++ reply.now ∷ []) }
{
    say_preface(preface, out)?;
    out.say(reply)
}

/// Writes a new reply behind what comes before it.
pub fn say_new_behind<S: ReplySink>(
    preface: Preface,
    reply: Reply,
    out: &mut S,
) -> Result<(), AllocError>
    ensures { Says result (S.writes out.old out.new) (told_before preface ++ reply ∷ []) }
{
    let said = say_behind(preface, &reply, out);
    drop(reply);
    said
}

//! Replies that are written as they are made. Where one of these fails, a part of what it says was
//! written.
ghost use Rattle.std.specs.Prelude.{◌≡◌, ◌∷◌, [], IfOk, None};
ghost use Rattle.items.specs.{Print.printed, Values.ItemValue, View.value_of};
ghost use Rattle.wire_replies.specs.Sinks.{Says, Writes};

use crate::reply::{Reply, write_made};
use crate::sink::ReplySink;
use items::Item;
use refusals::Refusal;
use std::alloc::{AllocError, Global};
use std::mem::drop;

/// Writes two replies.
pub fn say_both<S: ReplySink>(first: &Reply, second: &Reply, out: &mut S) -> Result<(), AllocError>
    ensures { Says result (S.writes out.old out.new) (first.now ∷ second.now ∷ []) }
{
    out.say(first)?;
    out.say(second)
}

/// Writes a reply.
pub fn say_new<S: ReplySink>(reply: Reply, out: &mut S) -> Result<(), AllocError>
    ensures { Says result (S.writes out.old out.new) (reply ∷ []) }
{
    let said = out.say(&reply);
    drop(reply);
    said
}

/// Writes a reply, if it could be made. If not, nothing is written.
pub fn say_made<S: ReplySink>(
    reply: Result<Reply, AllocError>,
    out: &mut S,
) -> Result<(), AllocError>
    ensures { (told : Reply) → IfOk reply (λ made. made ≡ told)
        → Says result (S.writes out.old out.new) (told ∷ []) }
{
    match reply {
        Ok(reply) => say_new(reply, out),
        Err(error) => Err(error),
    }
}

/// Writes a refusal, without a path.
pub fn tell_refusal<S: ReplySink>(refusal: Refusal, out: &mut S) -> Result<(), AllocError>
    ensures { Says result (S.writes out.old out.new) (Reply.Failure refusal None ∷ []) }
{
    say_new(Reply::Failure(refusal, None), out)
}

/// Writes an item that is a part of a reply, if it could be made. If not, nothing is written.
pub fn say_item<S: ReplySink>(
    alloc: Global,
    made: Result<Item, AllocError>,
    out: &mut S,
) -> Result<(), AllocError>
    ensures { (item : ItemValue) → IfOk made (λ part. value_of part ≡ item)
        → Writes result (S.writes out.old out.new) (printed item) }
{
    let mut bytes = Vec::new(alloc);
    write_made(made, &mut bytes)?;
    out.write_part(bytes.as_slice())
}

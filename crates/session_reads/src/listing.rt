//! The end of what is listed. Where one of these fails, a part of what it says was written.
ghost use Rattle.std.specs.Prelude.{None, option_copied};
ghost use Rattle.machine.specs.{Answers.failure_at, Histories.ended};
ghost use Rattle.wire_replies.specs.Sinks.{Says};

use crate::refusing::copied;
use machine::failure_at;
use refusals::Refusal;
use std::alloc::AllocError;
use std::mem::drop;
use svnpath::Path;
use wire_replies::{Reply, ReplySink, say_both};

/// Writes that no more is listed, and what the command came to.
pub(crate) fn say_end<S: ReplySink>(reply: Reply, out: &mut S) -> Result<(), AllocError>
    ensures { Says result (S.writes out.old out.new) (ended reply) }
{
    let said = say_both(&Reply::Done, &reply, out);
    drop(reply);
    said
}

/// Writes that nothing is listed, and why.
pub(crate) fn say_refused<S: ReplySink>(refusal: Refusal, out: &mut S) -> Result<(), AllocError>
    ensures { Says result (S.writes out.old out.new) (ended (Reply.Failure refusal None)) }
{
    say_end(Reply::Failure(refusal, None), out)
}

/// Writes that nothing is listed for a client of today, or for another, and why, and at which path, if it is at one.
pub(crate) fn say_refused_at<S: ReplySink>(
    is_of_today: bool,
    refusal: Refusal,
    path: Option<&Path>,
    out: &mut S,
) -> Result<(), AllocError>
    ensures { Says result (S.writes out.old out.new)
        (ended (failure_at is_of_today refusal (option_copied path.entry))) }
{
    match copied(path) {
        Ok(path) => say_end(failure_at(is_of_today, refusal, path), out),
        Err(error) => Err(error),
    }
}

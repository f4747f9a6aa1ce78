//! What one revision did. Where one of these fails, a part of what it says was written.
ghost use Rattle.std.specs.Prelude.{◌≡◌, ◌++◌, ◌∷◌, [], IfOk};
ghost use Rattle.replays.specs.Edits.{edit_replies};
ghost use Rattle.machine.specs.{Histories.is_to_come, Replays.{replay_ask, replay_replies}};
ghost use Rattle.wire_replies.specs.Sinks.{Says};

use commands::ReplayCommand;
use machine::Client;
use refusals::Refusal;
use replays::{ReplayAsk, Replayed, say_edit};
use repo_api::Repository;
use std::alloc::{AllocError, Global};
use std::mem::drop;
use wire_replies::{Reply, ReplySink, say_new, tell_refusal};

/// Says whether a revision is above the youngest.
pub(crate) fn is_to_come<R: Repository>(view: &R, revision: u64) -> bool
    ensures { result ≡ is_to_come (R.content view.now) revision }
{
    view.youngest() < revision
}

/// Makes what is asked of a replay by a client at its URL.
pub(crate) fn replay_ask(
    client: &Client,
    low: u64,
    sends_deltas: bool,
) -> Result<ReplayAsk, AllocError>
    ensures { IfOk result (λ ask. ask ≡ replay_ask client.now low sends_deltas) }
{
    Ok(ReplayAsk {
        part: client.path.clone()?,
        low,
        sends_deltas,
    })
}

/// Writes what a revision did, and that it is whole.
fn say_whole<R: Repository, S: ReplySink>(
    alloc: Global,
    view: &R,
    ask: &ReplayAsk,
    revision: u64,
    out: &mut S,
) -> Result<(), AllocError>
    ensures { Says result (S.writes out.old out.new)
        (edit_replies (R.content view.now) ask.now revision ++ Reply.Success ∷ []) }
{
    let replay = Replayed {
        view,
        ask,
        revision,
    };
    say_edit(alloc, &replay, out)?;
    say_new(Reply::Success, out)
}

/// Writes what a revision did, as it is seen from the path of the client's URL.
pub fn say_replay<R: Repository, S: ReplySink>(
    alloc: Global,
    view: &R,
    client: &Client,
    command: &ReplayCommand,
    out: &mut S,
) -> Result<(), AllocError>
    ensures { Says result (S.writes out.old out.new)
        (replay_replies client.now (R.content view.now) command.now) }
{
    if is_to_come(view, command.revision) {
        return tell_refusal(Refusal::NoSuchRevision, out);
    }
    let ask = replay_ask(client, command.low, command.sends_deltas)?;
    let said = say_whole(alloc, view, &ask, command.revision, out);
    drop(ask);
    said
}

//! What revisions did, one after another. Where one of these fails, a part of what it says was written.
ghost use Rattle.std.specs.{Prelude.{◌++◌, ◌∷◌, ◌-◌, ◌+◌, []}, List.{flat_map, range_with_len}};
ghost use Rattle.repo_api.specs.Kinds.{properties_at};
ghost use Rattle.machine.specs.Replays.{replay_range_replies, revision_replayed};
ghost use Rattle.wire_replies.specs.{Made.Makes, Sinks.Says};

use crate::replaying::{is_to_come, replay_ask};
use commands::ReplayRangeCommand;
use machine::Client;
use refusals::Refusal;
use replays::{ReplayAsk, Replayed, say_edit};
use repo_api::{Properties, Repository};
use std::alloc::{AllocError, Global};
use std::mem::drop;
use wire_replies::{Reply, ReplySink, say_made, say_new, tell_refusal};

/// Copies the properties of a revision.
fn revision_properties<R: Repository>(
    alloc: Global,
    view: &R,
    revision: u64,
) -> Result<Properties, AllocError>
    ensures { Makes result (properties_at (R.content view.now) revision) }
{
    match view.revision_properties(revision) {
        Some(properties) => properties.clone(),
        None => Ok(Properties::new(alloc)),
    }
}

/// Makes the reply with the properties of a revision.
fn properties_told<R: Repository>(
    alloc: Global,
    view: &R,
    revision: u64,
) -> Result<Reply, AllocError>
    ensures { Makes result
        (Reply.ReplayedProperties (properties_at (R.content view.now) revision)) }
{
    Ok(Reply::ReplayedProperties(revision_properties(alloc, view, revision)?))
}

/// Writes the properties of a revision, and what it did.
fn say_revision<R: Repository, S: ReplySink>(
    alloc: Global,
    view: &R,
    ask: &ReplayAsk,
    revision: u64,
    out: &mut S,
) -> Result<(), AllocError>
    ensures { Says result (S.writes out.old out.new)
        (revision_replayed (R.content view.now) ask.now revision) }
{
    say_made(properties_told(alloc, view, revision), out)?;
    let replay = Replayed {
        view,
        ask,
        revision,
    };
    say_edit(alloc, &replay, out)
}

/// The first and the last revision of a range, which has none where the first is above the last.
#[derive(Clone, Copy)]
struct Range {
    start: u64,
    end: u64,
}

/// Writes the same of each revision of a range.
fn say_each<R: Repository, S: ReplySink>(
    alloc: Global,
    view: &R,
    ask: &ReplayAsk,
    range: Range,
    out: &mut S,
) -> Result<(), AllocError>
    ensures { Says result (S.writes out.old out.new)
        (flat_map (revision_replayed (R.content view.now) ask.now)
        (range_with_len range.start (range.end + 1 - range.start))) }
{
    if range.end < range.start {
        return Ok(());
    }
    for revision in range.start..range.end {
        say_revision(alloc, view, ask, revision, out)?;
    }
    say_revision(alloc, view, ask, range.end, out)
}

/// Writes the same, and that the range is whole.
fn say_whole<R: Repository, S: ReplySink>(
    alloc: Global,
    view: &R,
    ask: &ReplayAsk,
    range: Range,
    out: &mut S,
) -> Result<(), AllocError>
    ensures { Says result (S.writes out.old out.new)
        (flat_map (revision_replayed (R.content view.now) ask.now)
        (range_with_len range.start (range.end + 1 - range.start)) ++ Reply.Success ∷ []) }
{
    say_each(alloc, view, ask, range, out)?;
    say_new(Reply::Success, out)
}

/// Writes what the revisions of a range did, as it is seen from the path of the client's URL, each with its properties
/// before.
pub fn say_replay_range<R: Repository, S: ReplySink>(
    alloc: Global,
    view: &R,
    client: &Client,
    command: &ReplayRangeCommand,
    out: &mut S,
) -> Result<(), AllocError>
    ensures { Says result (S.writes out.old out.new)
        (replay_range_replies client.now (R.content view.now) command.now) }
{
    if is_to_come(view, command.start.max(command.end)) {
        return tell_refusal(Refusal::NoSuchRevision, out);
    }
    let ask = replay_ask(client, command.low, command.sends_deltas)?;
    let range = Range {
        start: command.start,
        end: command.end,
    };
    let said = say_whole(alloc, view, &ask, range, out);
    drop(ask);
    said
}

//! Whether anything is to be said of an entry, or of what is beneath it.
ghost use Rattle.std.specs.Prelude.{◌≡◌, ◌<◌, ◌++◌, ◌∷◌, [], ℕ, suc, not, IfOk};
ghost use Rattle.repo_api.specs.Histories.{history_of};
ghost use Rattle.replays.specs.{Commands.is_empty, Edits.{below, entry_commands, is_named}, Places.{child_of, run_at}};

use crate::entries::has_own_news;
use crate::names::names_to_visit;
use crate::places::{Shape, is_in_part, shape_of};
use crate::replayed::Replayed;
use crate::spots::{Spot, spot_entered, spot_in};
use byte_string::ByteString;
use repo_api::{NodeKind, Repository};
use std::alloc::{AllocError, Global};

/// Says whether something is to be said of what is in a directory, of which the client has this.
#[cycle(searching)]
fn has_news_below<R: Repository>(
    alloc: Global,
    replay: &Replayed<R>,
    here: &Spot<'_>,
) -> Result<bool, AllocError>
    requires run { here.now.run.now
        ≡ run_at (history_of (R.content replay.now.view.now) replay.now.revision) here.now.path }
    ensures { IfOk result (λ has. has ≡ not (is_empty (below here.now.levels
        (R.content replay.now.view.now) replay.now.ask.now replay.now.revision
        here.now.place here.now.path))) }
{
    if here.levels == 0 {
        return Ok(false);
    }
    let names = names_to_visit(alloc, replay, here)?;
    for name in names {
        if has_news_in(alloc, replay, here, name)? {
            return Ok(true);
        }
    }
    Ok(false)
}

/// Says whether something is to be said of an entry of a directory.
#[cycle(searching)]
fn has_news_in<R: Repository>(
    alloc: Global,
    replay: &Replayed<R>,
    here: &Spot<'_>,
    name: ByteString,
) -> Result<bool, AllocError>
    requires levels { 0 < here.now.levels }
    requires run { here.now.run.now
        ≡ run_at (history_of (R.content replay.now.view.now) replay.now.revision) here.now.path }
    ensures { (n : ℕ) → here.now.levels ≡ suc n → IfOk result (λ has. has ≡ not (is_empty
        (entry_commands (R.content replay.now.view.now) replay.now.ask.now replay.now.revision
        (child_of name here.now.place) (here.now.path ++ name ∷ [])
        (below n (R.content replay.now.view.now) replay.now.ask.now replay.now.revision)))) }
{
    let spot = spot_in(alloc, here, name)?;
    has_news(alloc, replay, &spot)
}

/// Says whether something is to be said of an entry, which the client has at this place.
#[cycle(searching)]
fn has_news<R: Repository>(
    alloc: Global,
    replay: &Replayed<R>,
    spot: &Spot<'_>,
) -> Result<bool, AllocError>
    requires run { spot.now.run.now
        ≡ run_at (history_of (R.content replay.now.view.now) replay.now.revision) spot.now.path }
    ensures { IfOk result (λ has. has ≡ not (is_empty (entry_commands
        (R.content replay.now.view.now) replay.now.ask.now replay.now.revision
        spot.now.place spot.now.path
        (below spot.now.levels (R.content replay.now.view.now) replay.now.ask.now
        replay.now.revision)))) }
{
    if !is_in_part(replay.ask, &spot.path) {
        return Ok(false);
    }
    let shape = shape_of(replay, spot)?;
    if shape.goes {
        return Ok(true);
    }
    if !shape.kind.is_present() {
        return Ok(false);
    }
    if shape.kept.is_none() {
        return Ok(true);
    }
    is_to_be_opened(alloc, replay, spot, &shape)
}

/// Says whether an entry that the client keeps is named: the list has it, or something is to be said of it, or of what is
/// beneath it.
#[cycle(searching)]
pub(crate) fn is_to_be_opened<R: Repository>(
    alloc: Global,
    replay: &Replayed<R>,
    spot: &Spot<'_>,
    shape: &Shape,
) -> Result<bool, AllocError>
    requires run { spot.now.run.now
        ≡ run_at (history_of (R.content replay.now.view.now) replay.now.revision) spot.now.path }
    ensures { IfOk result (λ named. named ≡ is_named (R.content replay.now.view.now)
        replay.now.ask.now replay.now.revision shape.now spot.now.path
        (below spot.now.levels (R.content replay.now.view.now) replay.now.ask.now
        replay.now.revision)) }
{
    if shape.is_listed {
        return Ok(true);
    }
    if has_own_news(alloc, replay, &spot.path, shape)? {
        return Ok(true);
    }
    match shape.kind {
        NodeKind::Absent | NodeKind::File => Ok(false),
        NodeKind::Directory => {
            let here = spot_entered(spot, shape)?;
            has_news_below(alloc, replay, &here)
        }
    }
}

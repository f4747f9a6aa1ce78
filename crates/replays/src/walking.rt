//! The commands of a revision, written as they are made. Where one of these fails, a part of what it says was written.
ghost use Rattle.std.specs.Prelude.{◌≡◌, ◌<◌, ◌++◌, ◌∷◌, [], ℕ, suc, true, if◌then◌else◌};
ghost use Rattle.repo_api.specs.{Histories.history_of, Kinds.is_directory_kind};
ghost use Rattle.replays.specs.Commands.{add_command, close_command, delete_command, open_command};
ghost use Rattle.replays.specs.{Edits.{below, entry_commands, inside_commands, is_named, standing_commands}, Places.{child_of, place_in, run_at}};
ghost use Rattle.replays.specs.{Sending.Sends, Shaping.base_of};

use crate::entering::{add_command, delete_command, open_command};
use crate::entries::{say_close, say_own};
use crate::names::names_to_visit;
use crate::places::{Shape, is_in_part, shape_of};
use crate::replayed::Replayed;
use crate::saying::say_command;
use crate::searching::is_to_be_opened;
use crate::spots::{Spot, spot_entered, spot_in};
use byte_string::ByteString;
use repo_api::Repository;
use std::alloc::{AllocError, Global};
use svnpath::Path;
use wire_replies::ReplySink;

/// Writes that what the client has at a path is deleted, if it goes.
fn say_going<S: ReplySink>(
    alloc: Global,
    goes: bool,
    path: &Path,
    out: &mut S,
) -> Result<(), AllocError>
    ensures { Sends result (S.writes out.old out.new)
        (if goes then delete_command path.now ∷ [] else []) }
{
    if goes {
        say_command(delete_command(alloc, path), out)
    } else {
        Ok(())
    }
}

/// Writes the commands of what is in a directory, of which the client has this.
#[cycle(walking)]
fn say_below<R: Repository, S: ReplySink>(
    alloc: Global,
    replay: &Replayed<R>,
    here: &Spot<'_>,
    out: &mut S,
) -> Result<(), AllocError>
    requires run { here.now.run.now
        ≡ run_at (history_of (R.content replay.now.view.now) replay.now.revision) here.now.path }
    ensures { Sends result (S.writes out.old out.new) (below here.now.levels
        (R.content replay.now.view.now) replay.now.ask.now replay.now.revision
        here.now.place here.now.path) }
{
    if here.levels == 0 {
        return Ok(());
    }
    let names = names_to_visit(alloc, replay, here)?;
    for name in names {
        say_named(alloc, replay, here, name, out)?;
    }
    Ok(())
}

/// Writes the commands of an entry of a directory.
#[cycle(walking)]
fn say_named<R: Repository, S: ReplySink>(
    alloc: Global,
    replay: &Replayed<R>,
    here: &Spot<'_>,
    name: ByteString,
    out: &mut S,
) -> Result<(), AllocError>
    requires levels { 0 < here.now.levels }
    requires run { here.now.run.now
        ≡ run_at (history_of (R.content replay.now.view.now) replay.now.revision) here.now.path }
    ensures { (n : ℕ) → here.now.levels ≡ suc n → Sends result (S.writes out.old out.new)
        (entry_commands (R.content replay.now.view.now) replay.now.ask.now replay.now.revision
        (child_of name here.now.place) (here.now.path ++ name ∷ [])
        (below n (R.content replay.now.view.now) replay.now.ask.now replay.now.revision)) }
{
    let spot = spot_in(alloc, here, name)?;
    say_entry(alloc, replay, &spot, out)
}

/// Writes the commands of an entry, which the client has at this place.
#[cycle(walking)]
fn say_entry<R: Repository, S: ReplySink>(
    alloc: Global,
    replay: &Replayed<R>,
    spot: &Spot<'_>,
    out: &mut S,
) -> Result<(), AllocError>
    requires run { spot.now.run.now
        ≡ run_at (history_of (R.content replay.now.view.now) replay.now.revision) spot.now.path }
    ensures { Sends result (S.writes out.old out.new) (entry_commands
        (R.content replay.now.view.now) replay.now.ask.now replay.now.revision
        spot.now.place spot.now.path
        (below spot.now.levels (R.content replay.now.view.now) replay.now.ask.now
        replay.now.revision)) }
{
    if !is_in_part(replay.ask, &spot.path) {
        return Ok(());
    }
    let shape = shape_of(replay, spot)?;
    say_going(alloc, shape.goes, &spot.path, out)?;
    if shape.kind.is_present() {
        say_standing(alloc, replay, spot, &shape, out)
    } else {
        Ok(())
    }
}

/// Writes the commands of an entry that is to stand there: it is opened, if it is to be, or added.
#[cycle(walking)]
fn say_standing<R: Repository, S: ReplySink>(
    alloc: Global,
    replay: &Replayed<R>,
    spot: &Spot<'_>,
    shape: &Shape,
    out: &mut S,
) -> Result<(), AllocError>
    requires run { spot.now.run.now
        ≡ run_at (history_of (R.content replay.now.view.now) replay.now.revision) spot.now.path }
    ensures { Sends result (S.writes out.old out.new) (standing_commands
        (R.content replay.now.view.now) replay.now.ask.now replay.now.revision shape.now
        spot.now.path (below spot.now.levels (R.content replay.now.view.now)
        replay.now.ask.now replay.now.revision)) }
{
    if shape.kept.is_none() {
        say_added(alloc, replay, spot, shape, out)
    } else {
        say_kept(alloc, replay, spot, shape, out)
    }
}

/// Writes that an entry is added, and all that is told of it.
#[cycle(walking)]
fn say_added<R: Repository, S: ReplySink>(
    alloc: Global,
    replay: &Replayed<R>,
    spot: &Spot<'_>,
    shape: &Shape,
    out: &mut S,
) -> Result<(), AllocError>
    requires run { spot.now.run.now
        ≡ run_at (history_of (R.content replay.now.view.now) replay.now.revision) spot.now.path }
    ensures { Sends result (S.writes out.old out.new)
        (add_command (is_directory_kind shape.now.kind) spot.now.path shape.now.source
        ∷ inside_commands (R.content replay.now.view.now) replay.now.ask.now
        replay.now.revision shape.now spot.now.path (below spot.now.levels
        (R.content replay.now.view.now) replay.now.ask.now replay.now.revision)) }
{
    let added = add_command(alloc, shape.kind.is_directory(), &spot.path, &shape.source);
    say_command(added, out)?;
    say_inside(alloc, replay, spot, shape, out)
}

/// Writes the commands of an entry that the client keeps: it is opened, if it is to be.
#[cycle(walking)]
fn say_kept<R: Repository, S: ReplySink>(
    alloc: Global,
    replay: &Replayed<R>,
    spot: &Spot<'_>,
    shape: &Shape,
    out: &mut S,
) -> Result<(), AllocError>
    requires run { spot.now.run.now
        ≡ run_at (history_of (R.content replay.now.view.now) replay.now.revision) spot.now.path }
    ensures { Sends result (S.writes out.old out.new)
        (if is_named (R.content replay.now.view.now) replay.now.ask.now replay.now.revision
        shape.now spot.now.path (below spot.now.levels (R.content replay.now.view.now)
        replay.now.ask.now replay.now.revision)
        then open_command (is_directory_kind shape.now.kind) spot.now.path
        ∷ inside_commands (R.content replay.now.view.now) replay.now.ask.now
        replay.now.revision shape.now spot.now.path (below spot.now.levels
        (R.content replay.now.view.now) replay.now.ask.now replay.now.revision)
        else []) }
{
    if !is_to_be_opened(alloc, replay, spot, shape)? {
        return Ok(());
    }
    let opened = open_command(alloc, shape.kind.is_directory(), &spot.path);
    say_command(opened, out)?;
    say_inside(alloc, replay, spot, shape, out)
}

/// Writes what is told of an entry that was opened or added, the commands of what is beneath it, and its close.
#[cycle(walking)]
pub(crate) fn say_inside<R: Repository, S: ReplySink>(
    alloc: Global,
    replay: &Replayed<R>,
    spot: &Spot<'_>,
    shape: &Shape,
    out: &mut S,
) -> Result<(), AllocError>
    requires run { spot.now.run.now
        ≡ run_at (history_of (R.content replay.now.view.now) replay.now.revision) spot.now.path }
    ensures { Sends result (S.writes out.old out.new) (inside_commands
        (R.content replay.now.view.now) replay.now.ask.now replay.now.revision shape.now
        spot.now.path (below spot.now.levels (R.content replay.now.view.now)
        replay.now.ask.now replay.now.revision)) }
{
    say_own(alloc, replay, &spot.path, shape, out)?;
    if shape.kind.is_directory() {
        say_entered(alloc, replay, spot, shape, out)
    } else {
        say_close(alloc, replay, false, &spot.path, out)
    }
}

/// Writes the commands of what is beneath a directory that was opened or added, and its close.
#[cycle(walking)]
fn say_entered<R: Repository, S: ReplySink>(
    alloc: Global,
    replay: &Replayed<R>,
    spot: &Spot<'_>,
    shape: &Shape,
    out: &mut S,
) -> Result<(), AllocError>
    requires run { spot.now.run.now
        ≡ run_at (history_of (R.content replay.now.view.now) replay.now.revision) spot.now.path }
    ensures { Sends result (S.writes out.old out.new) (below spot.now.levels
        (R.content replay.now.view.now) replay.now.ask.now replay.now.revision
        (base_of shape.now) spot.now.path ++ close_command (R.content replay.now.view.now) true
        (place_in replay.now.revision spot.now.path) ∷ []) }
{
    let here = spot_entered(spot, shape)?;
    say_below(alloc, replay, &here, out)?;
    say_close(alloc, replay, true, &spot.path, out)
}

//! Where something was in other revisions. Where one of these fails, a part of what it says was
//! written.
ghost use Rattle.std.specs.{Prelude.{◌≡◌, ◌++◌, ◌∷◌, [], map, Ok}, List.list_any};
ghost use Rattle.svnpath.specs.Texts.{joined};
ghost use Rattle.machine.specs.Histories.{ended, is_to_come, location_told, locations_refusal, locations_replies};
ghost use Rattle.wire_replies.specs.Sinks.{Says};

use crate::asked::LocationsAsked;
use crate::listing::{say_end, say_refused, say_refused_at};
use crate::paths::{is_there, is_to_come};
use commands::GetLocationsCommand;
use history::{Place, locations};
use machine::Client;
use refusals::{Refusal, path_refusal};
use repo_api::Repository;
use std::alloc::{AllocError, Global};
use svnpath::{Path, PathFault};
use wire_replies::{Reply, ReplySink, say_new};

/// Says whether one of the revisions is above the youngest.
fn are_any_to_come<R: Repository>(view: &R, revisions: &[u64]) -> bool
    ensures { result ≡ list_any (is_to_come (R.content view.now)) revisions.now }
{
    revisions.iter().any(|n| is_to_come(view, *n))
}

/// Says why locations are refused, if they are: a revision is above the youngest, or the path is not in the peg
/// revision.
fn locations_refusal<R: Repository>(view: &R, place: &Place, revisions: &[u64]) -> Option<Refusal>
    ensures { result ≡ locations_refusal (R.content view.now) place.now revisions.now }
{
    if is_to_come(view, place.revision) || are_any_to_come(view, revisions) {
        Some(Refusal::NoSuchRevision)
    } else if is_there(view, place.revision, &place.path) {
        None
    } else {
        Some(Refusal::NotFound)
    }
}

/// Writes a location.
fn say_location<S: ReplySink>(revision: u64, path: &Path, out: &mut S) -> Result<(), AllocError>
    ensures { Says result (S.writes out.old out.new) (location_told (revision, path.now) ∷ []) }
{
    match path.clone() {
        Ok(path) => say_new(Reply::Location(revision, path), out),
        Err(error) => Err(error),
    }
}

/// Writes locations.
fn say_each<S: ReplySink>(found: &[(u64, Path)], out: &mut S) -> Result<(), AllocError>
    ensures { Says result (S.writes out.old out.new) (map location_told found.now) }
{
    for (revision, path) in found {
        say_location(*revision, path, out)?;
    }
    Ok(())
}

/// Writes locations, and that no more come.
fn say_found<S: ReplySink>(found: &[(u64, Path)], out: &mut S) -> Result<(), AllocError>
    ensures { Says result (S.writes out.old out.new)
        (map location_told found.now ++ ended Reply.Success) }
{
    say_each(found, out)?;
    say_end(Reply::Success, out)
}

/// Writes where something was.
fn say_locations<R: Repository, S: ReplySink>(
    alloc: Global,
    view: &R,
    asked: LocationsAsked<'_>,
    path: Path,
    out: &mut S,
) -> Result<(), AllocError>
    ensures { Says result (S.writes out.old out.new) (locations_replies asked.entry.is_of_today
        (R.content view.now) asked.entry.command.now (Ok path)) }
{
    let place = Place {
        path,
        revision: asked.command.peg,
    };
    let revisions = asked.command.revisions.as_slice();
    match locations_refusal(view, &place, revisions) {
        None => {
            let found = locations(alloc, view, &place, revisions)?;
            say_found(found.as_slice(), out)
        }
        Some(refusal) => say_refused_at(asked.is_of_today, refusal, Some(&place.path), out),
    }
}

/// Writes where something was that is named, seen from the path of the client's URL.
pub(crate) fn say_named<R: Repository, S: ReplySink>(
    alloc: Global,
    view: &R,
    client: &Client,
    command: &GetLocationsCommand,
    out: &mut S,
) -> Result<(), AllocError>
    ensures { Says result (S.writes out.old out.new) (locations_replies client.now.is_of_today
        (R.content view.now) command.now (joined client.now.path command.now.path)) }
{
    match client.path.join(alloc, command.path.as_slice()) {
        Ok(path) => {
            let asked = LocationsAsked {
                command,
                is_of_today: client.is_of_today,
            };
            say_locations(alloc, view, asked, path, out)
        }
        Err(PathFault::NoMemory) => Err(AllocError),
        Err(fault) => say_refused(path_refusal(fault), out),
    }
}

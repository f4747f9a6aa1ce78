//! Where a place was or went in revisions that are asked for together: each trace is gone along once.
ghost use Rattle.std.specs.{Prelude.{◌≡◌, ◌≤◌, ℕ, Option, Some, IfOk, OnOk}, Option.ForSome};
ghost use Rattle.repo_api.specs.Histories.{History, history_of};
ghost use Rattle.svnpath.specs.Paths.{PathValue};
ghost use Rattle.history.specs.{Gathered.{AreKnown, GoesOn, IsNoted, path_from, path_known}, Locations.{location_back, location_on}};

use crate::locating::place_down;
use crate::meeting::Meeting;
use repo_api::Repository;
use std::alloc::{AllocError, Global};
use std::collections::BTreeMap;
use svnpath::Path;
use traces::Place;

/// The paths of a place in revisions, as far as they are known: at and below the place, and above it.
#[derive(Drop)]
pub struct Known {
    pub(crate) back: BTreeMap<u64, Option<Path>>,
    pub(crate) on: BTreeMap<u64, Option<Path>>,
}

impl Known {
    ghost use Rattle.repo_api.specs.Histories.{History};
    ghost use Rattle.history.specs.Gathered.{AreKnown};
    ghost use Rattle.traces.specs.declared.place.Place.{Place};

    /// Makes what is known of no revision.
    pub(crate) fn none(alloc: Global) -> Self
        ensures { (h : History) (at : Place) → AreKnown h at result }
    {
        Known {
            back: BTreeMap::new(alloc),
            on: BTreeMap::new(alloc),
        }
    }
}

/// Goes on along a trace, which may have come to its end, to the first place that is not above the revision.
fn further_down<R: Repository>(
    alloc: Global,
    repository: &R,
    at: Option<Place>,
    revision: u64,
) -> Result<Option<Place>, AllocError>
    ensures within { IfOk result (λ next. ForSome next (λ place. place.revision ≤ revision)) }
    ensures goes { IfOk result (GoesOn (history_of (R.content repository.now)) at revision) }
{
    match at {
        None => Ok(None),
        Some(place) => place_down(alloc, repository, place, revision),
    }
}

/// Gives the path in the revision of a trace that goes on from a place at or below it, or not.
pub(crate) fn path_there(at: &Option<Place>, revision: u64) -> Result<Option<Path>, AllocError>
    requires { ForSome at.now (λ place. place.revision ≤ revision) }
    ensures { (h : History) → IfOk result (λ path. path ≡ path_from h at.now revision) }
{
    match at {
        None => Ok(None),
        Some(place) => {
            if place.revision == revision {
                Ok(Some(place.path.clone()?))
            } else {
                Ok(None)
            }
        }
    }
}

/// Finds the paths of the place's trace in those of the revisions that are not above it. It is gone along once where the
/// greatest stand last.
fn paths_back<R: Repository>(
    alloc: Global,
    repository: &R,
    place: &Place,
    revisions: &[u64],
) -> Result<BTreeMap<u64, Option<Path>>, AllocError>
    ensures { let h = history_of (R.content repository.now) in
        IfOk result (λ found. (n : ℕ) (o : Option PathValue) → path_known found.entries n ≡ Some o
        → o ≡ location_back h place.now n) }
{
    let mut found = BTreeMap::new(alloc);
    let mut last = place.revision;
    let mut at = Some(Place {
        path: place.path.clone()?,
        revision: place.revision,
    });
    let mut left = revisions.len();
    while left > 0 {
        left -= 1;
        let revision = revisions[left];
        if revision <= last {
            at = further_down(alloc, repository, at, revision)?;
            last = revision;
            note(&mut found, revision, path_there(&at, revision)?)?;
        }
    }
    Ok(found)
}

/// Notes the path that was found in a revision.
pub(crate) fn note(
    found: &mut BTreeMap<u64, Option<Path>>,
    revision: u64,
    path: Option<Path>,
) -> Result<(), AllocError>
    ensures { OnOk result (IsNoted revision path found.old.entries found.new.entries) }
{
    found.insert(revision, path)?;
    Ok(())
}

/// Finds the paths of the place in those of the revisions that are above it, as if something were there in each. What
/// several traces go through is traced once where the greatest stand last.
fn paths_on<R: Repository>(
    alloc: Global,
    repository: &R,
    place: &Place,
    revisions: &[u64],
) -> Result<BTreeMap<u64, Option<Path>>, AllocError>
    ensures { let h = history_of (R.content repository.now) in
        IfOk result (λ found. (n : ℕ) (o : Option PathValue) → path_known found.entries n ≡ Some o
        → o ≡ location_on h place.now n) }
{
    let mut meeting = Meeting::none(alloc);
    let mut left = revisions.len();
    while left > 0 {
        left -= 1;
        let revision = revisions[left];
        if revision > place.revision {
            meeting.begin(alloc, repository, place, revision)?;
        }
    }
    meeting.go_down(alloc, repository, place, place.revision)?;
    meeting.paths()
}

/// Finds the paths of a place in these revisions.
pub(crate) fn known_paths<R: Repository>(
    alloc: Global,
    repository: &R,
    place: &Place,
    revisions: &[u64],
) -> Result<Known, AllocError>
    ensures { IfOk result (AreKnown (history_of (R.content repository.now)) place.now) }
{
    let mut rising = revisions.to_vec(alloc)?;
    rising.sort()?;
    let back = paths_back(alloc, repository, place, &rising)?;
    let on = paths_on(alloc, repository, place, &rising)?;
    Ok(Known { back, on })
}

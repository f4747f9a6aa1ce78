//! Where a place was, or went.
ghost use Rattle.std.specs.{Prelude.{◌≡◌, ◌≤◌, IfOk, Some}, List.filter_map, Option.ForSome};
ghost use Rattle.repo_api.specs.Histories.{history_of};
ghost use Rattle.history.specs.{Gathered.{AreKnown, GoesOn}, Locations.{each_once, location, location_back, location_on, located_in, locations, only_same}};

use crate::gathering::{Known, known_paths};
use crate::walk::step_back;
use repo_api::{NodeKind, Repository};
use std::alloc::{AllocError, Global};
use std::collections::BTreeSet;
use svnpath::Path;
use traces::Place;

/// Finds the path of the place in a revision: at or below its own by its trace, above it the same path, where something
/// exists there whose trace passes through the place.
pub fn location<R: Repository>(
    alloc: Global,
    repository: &R,
    place: &Place,
    revision: u64,
) -> Result<Option<Path>, AllocError>
    ensures { IfOk result (λ path. path ≡ location (R.content repository.now) place.now revision) }
{
    known_location(alloc, repository, place, &Known::none(alloc), revision)
}

/// Finds the place's paths in the revisions: those that have one, in the order asked, each once.
pub fn locations<R: Repository>(
    alloc: Global,
    repository: &R,
    place: &Place,
    revisions: &[u64],
) -> Result<Vec<(u64, Path)>, AllocError>
    ensures { IfOk result (λ found. found.items ≡ locations (R.content repository.now) place.now
        revisions.now) }
{
    let once = each_once(alloc, revisions)?;
    located(alloc, repository, place, once.as_slice())
}

/// Finds the place's paths in the revisions that have one.
fn located<R: Repository>(
    alloc: Global,
    repository: &R,
    place: &Place,
    revisions: &[u64],
) -> Result<Vec<(u64, Path)>, AllocError>
    ensures { let c = R.content repository.now in
        IfOk result (λ found. found.items ≡ filter_map (located_in c place.now) revisions.now) }
{
    let known = known_paths(alloc, repository, place, revisions)?;
    let mut found = Vec::new(alloc);
    for revision in revisions {
        if let Some(path) = known_location(alloc, repository, place, &known, *revision)? {
            found.push((*revision, path))?;
        }
    }
    Ok(found)
}

/// Finds the path of the place in a revision, which may be known.
fn known_location<R: Repository>(
    alloc: Global,
    repository: &R,
    place: &Place,
    known: &Known,
    revision: u64,
) -> Result<Option<Path>, AllocError>
    requires { AreKnown (history_of (R.content repository.now)) place.now known.now }
    ensures { IfOk result (λ path. path ≡ location (R.content repository.now) place.now revision) }
{
    if revision <= place.revision {
        return match known.back.get(&revision) {
            None => location_back(alloc, repository, place, revision),
            Some(path) => copy_of(path),
        };
    }
    match repository.kind(revision, &place.path) {
        NodeKind::Absent => Ok(None),
        NodeKind::File => known_on(alloc, repository, place, known, revision),
        NodeKind::Directory => known_on(alloc, repository, place, known, revision),
    }
}

/// Finds the path of the place in a later revision in which something is there, which may be known.
fn known_on<R: Repository>(
    alloc: Global,
    repository: &R,
    place: &Place,
    known: &Known,
    revision: u64,
) -> Result<Option<Path>, AllocError>
    requires { AreKnown (history_of (R.content repository.now)) place.now known.now }
    ensures { let h = history_of (R.content repository.now) in
        IfOk result (λ path. path ≡ location_on h place.now revision) }
{
    match known.on.get(&revision) {
        None => location_on(alloc, repository, place, revision),
        Some(path) => copy_of(path),
    }
}

/// Copies a path, if there is one.
pub(crate) fn copy_of(path: &Option<Path>) -> Result<Option<Path>, AllocError>
    ensures { IfOk result (λ copy. copy ≡ path.now) }
{
    match path {
        None => Ok(None),
        Some(path) => Ok(Some(path.clone()?)),
    }
}

/// Gives each of the revisions once, where it comes first.
pub fn each_once(alloc: Global, revisions: &[u64]) -> Result<Vec<u64>, AllocError>
    ensures { IfOk result (λ once. once.items ≡ each_once revisions.now) }
{
    let mut seen = BTreeSet::new(alloc);
    let mut once = Vec::new(alloc);
    for revision in revisions {
        if seen.insert(*revision)? {
            once.push(*revision)?;
        }
    }
    Ok(once)
}

/// Gives the place's own path, if the trace that begins at it in the later revision passes through the place; otherwise
/// `None`.
fn location_on<R: Repository>(
    alloc: Global,
    repository: &R,
    place: &Place,
    revision: u64,
) -> Result<Option<Path>, AllocError>
    ensures { let h = history_of (R.content repository.now) in
        IfOk result (λ path. path ≡ location_on h place.now revision) }
{
    let later = Place {
        path: place.path.clone()?,
        revision,
    };
    let back = location_back(alloc, repository, &later, place.revision)?;
    Ok(only_same(later.path, &back))
}

/// Gives the path, if it is the other.
pub(crate) fn only_same(path: Path, other: &Option<Path>) -> Option<Path>
    ensures { result ≡ only_same path other.now }
{
    match other {
        None => None,
        Some(other) => { if path == *other { Some(path) } else { None } }
    }
}

/// Finds the path of the place's trace in the revision.
#[tactic(auto, using(crate::proofs::Steps::is_at, crate::proofs::Steps::is_past))]
pub(crate) fn location_back<R: Repository>(
    alloc: Global,
    repository: &R,
    place: &Place,
    revision: u64,
) -> Result<Option<Path>, AllocError>
    ensures { let h = history_of (R.content repository.now) in
        IfOk result (λ path. path ≡ location_back h place.now revision) }
{
    let from = Place {
        path: place.path.clone()?,
        revision: place.revision,
    };
    let Some(at) = place_down(alloc, repository, from, revision)? else {
        return Ok(None);
    };
    if at.revision == revision {
        Ok(Some(at.path))
    } else {
        Ok(None)
    }
}

/// Finds the first place of the place's trace that is not above the revision, if there is one.
pub(crate) fn place_down<R: Repository>(
    alloc: Global,
    repository: &R,
    place: Place,
    revision: u64,
) -> Result<Option<Place>, AllocError>
    ensures within { IfOk result (λ found. ForSome found (λ at. at.revision ≤ revision)) }
    ensures goes { IfOk result
        (GoesOn (history_of (R.content repository.now)) (Some place) revision) }
{
    let mut at = place;
    while at.revision > revision {
        let found = settled_above(repository, at, revision);
        if found.revision == revision {
            return Ok(Some(found));
        }
        let Some(next) = step_back(alloc, repository, false, &found)? else {
            return Ok(None);
        };
        at = next;
    }
    Ok(Some(at))
}

/// Gives the place in the revision that it has settled in, or in this one where that is greater.
pub(crate) fn settled_above<R: Repository>(repository: &R, at: Place, revision: u64) -> Place
    requires { revision ≤ at.revision }
    ensures within { result.revision ≤ at.revision }
    ensures above { revision ≤ result.revision }
    ensures goes { GoesOn (history_of (R.content repository.now)) (Some at) revision (Some result) }
{
    let settled = repository.settled(at.revision, &at.path);
    Place {
        path: at.path,
        revision: settled.max(revision),
    }
}

//! The revisions of a file.
ghost use Rattle.std.specs.Prelude.{◌≡◌, ◌≤◌, IfOk, Some};
ghost use Rattle.repo_api.specs.Histories.{history_of};
ghost use Rattle.file_histories.specs.FileRevisions.{down_to, file_revisions, found_first, listed_places};

use history::step_back;
use repo_api::Repository;
use std::alloc::{AllocError, Global};
use svnpath::Path;
use traces::{Place, is_touched};

/// A place at which a log lists the revision, and the place from which the trace goes on.
#[derive(Drop)]
pub(crate) struct FoundPlace {
    pub(crate) at: Place,
    pub(crate) next: Option<Place>,
}

/// Gives the place in the revision that it has settled in: from there to the place nothing is listed.
fn settled_place<R: Repository>(repository: &R, at: Place) -> Place
    ensures within { result.revision ≤ at.revision }
    ensures same { let h = history_of (R.content repository.now) in
        listed_places h (Some at) ≡ listed_places h (Some result) }
{
    if at.path.is_root() {
        return at;
    }
    let revision = repository.settled(at.revision, &at.path);
    Place {
        path: at.path,
        revision,
    }
}

/// Finds the first place along a trace at which a log lists the revision.
#[tactic(auto, using(crate::proofs::Passed::passed_on, crate::proofs::Passed::found_at))]
fn next_place<R: Repository>(
    alloc: Global,
    repository: &R,
    start: Option<Place>,
) -> Result<Option<FoundPlace>, AllocError>
    ensures { let h = history_of (R.content repository.now) in
        IfOk result (λ found. listed_places h start ≡ found_first h found) }
{
    let mut place = start;
    while let Some(found) = place {
        let at = settled_place(repository, found);
        let next = step_back(alloc, repository, false, &at)?;
        if is_touched(repository.changes(at.revision), &at.path) {
            return Ok(Some(FoundPlace { at, next }));
        }
        place = next;
    }
    Ok(None)
}

/// Finds the places along a trace at which a log lists the revision, down to the first that is not above revision `low`,
/// that one too.
fn places_down<R: Repository>(
    alloc: Global,
    repository: &R,
    low: u64,
    start: Place,
) -> Result<Vec<Place>, AllocError>
    ensures { let h = history_of (R.content repository.now) in
        IfOk result (λ places. places.items ≡ down_to low (listed_places h (Some start))) }
{
    let mut places = Vec::new(alloc);
    let mut left = Some(start);
    while let Some(found) = next_place(alloc, repository, left)? {
        let FoundPlace { at, next } = found;
        let is_last = at.revision <= low;
        places.push(at)?;
        if is_last {
            return Ok(places);
        }
        left = next;
    }
    Ok(places)
}

/// Finds the revisions of what is at the path in the greater of the two revisions, from `start` to `end`, and the place
/// of the file in each: those that a log lists, down to the first that is not above the smaller one, that one too. It
/// ends as a walk does where the repository is given up.
pub fn file_revisions<R: Repository>(
    alloc: Global,
    repository: &R,
    path: Path,
    start: u64,
    end: u64,
) -> Result<Vec<Place>, AllocError>
    ensures { let h = history_of (R.content repository.now) in
        IfOk result (λ places. places.items ≡ file_revisions h path start end) }
{
    let newest = Place {
        path,
        revision: start.max(end),
    };
    let mut places = places_down(alloc, repository, start.min(end), newest)?;
    if start <= end {
        places.reverse();
    }
    Ok(places)
}

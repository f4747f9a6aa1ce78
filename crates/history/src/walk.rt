//! A walk along the trace of a place.
ghost use Rattle.std.specs.{Prelude.{◌≡◌, ◌≤◌, ◌∷◌, ℕ, Bool, false, IfOk}, List.list_any};
ghost use Rattle.repo_api.specs.Histories.{History, history_of};
ghost use Rattle.traces.specs.Traces.{trace_below, trace, traced, IsBelow};
ghost use Rattle.history.specs.{Lines.{AreOneLineBeneath, line_start}, Logs.{IsNext, listed}, Unconcerned.{concerns, IsUnconcerned}};

use crate::listed::Listed;
use repo_api::{Action, Change, Repository};
use std::alloc::{AllocError, Global};
use std::mem::drop;
use svnpath::Path;
use traces::{Place, is_touched, next_place};

/// How many revisions are looked through before the repository is asked again how far nothing happened.
const LOOKED_THROUGH: u64 = 64;

/// Gives the place, if it is below the revision.
fn only_below(place: Option<Place>, revision: u64) -> Option<Place>
    ensures below { IsBelow revision result }
    ensures trace { (h : History) (strict : Bool) → trace_below h strict revision place
        ≡ traced h strict result }
{
    match place {
        None => None,
        Some(place) => {
            if place.revision < revision {
                Some(place)
            } else {
                None
            }
        }
    }
}

/// Asks the repository for the names of what exists in revision 0, which are none. One that is given up, as its client has
/// gone, answers as where memory runs out: so a walk ends that finds nothing for long.
pub fn ask_on<R: Repository>(alloc: Global, repository: &R) -> Result<(), AllocError> {
    drop(repository.names(0, &Path::root(alloc))?);
    Ok(())
}

/// Takes one step back along the trace of a place.
pub fn step_back<R: Repository>(
    alloc: Global,
    repository: &R,
    strict: bool,
    at: &Place,
) -> Result<Option<Place>, AllocError>
    ensures below { IfOk result (λ next. IsBelow at.now.revision next) }
    ensures trace { let h = history_of (R.content repository.now) in
        IfOk result (λ next. trace h strict at.now ≡ at.now ∷ traced h strict next) }
{
    ask_on(alloc, repository)?;
    let next = next_place(alloc, repository.changes(at.revision), strict, at)?;
    Ok(only_below(next, at.revision))
}

/// Gives the place in the revision that it has settled in: from there to the place nothing is listed, and its line is the
/// same, as are those of what is beneath it.
pub(crate) fn settled_place<R: Repository>(repository: &R, at: Place) -> Place
    ensures within { result.revision ≤ at.revision }
    ensures listed { let h = history_of (R.content repository.now) in (strict : Bool) (low : ℕ)
        → listed h low (trace h strict at) ≡ listed h low (trace h strict result) }
    ensures line { let h = history_of (R.content repository.now) in
        line_start h at ≡ line_start h result }
    ensures beneath { AreOneLineBeneath (history_of (R.content repository.now)) at result }
{
    if at.path.is_root() {
        return at;
    }
    let revision = repository.settled(at.revision, &at.path);
    Place {
        path: at.path,
        revision,
    }
}

/// Says whether a revision with these changes may end a trace that is at the path, may lead it elsewhere, or is listed.
fn is_concerned(changes: &[(Path, Change)], path: &Path) -> bool
    ensures { result ≡ false → IsUnconcerned changes.now path.now }
{
    path.is_root() || is_any_concerning(changes, path)
}

/// Says whether any of the changes concerns the path.
fn is_any_concerning(changes: &[(Path, Change)], path: &Path) -> bool
    ensures { result ≡ list_any (concerns path.now) changes.now }
{
    changes
        .iter()
        .any(|entry| concerns(path, &entry.0, &entry.1))
}

/// Says whether the change, which is at `at`, is one at or under the path, or made what is at or above it.
fn concerns(path: &Path, at: &Path, change: &Change) -> bool
    ensures { result ≡ concerns path.now (at.now, change.now) }
{
    let is_made = matches!(change.action, Action::Add | Action::Replace);
    at.is_at_or_under(path) || (change.source.is_some() || is_made) && path.is_at_or_under(at)
}

/// Gives the place in a revision before, but for some at most, until which no change concerns its path.
fn unconcerned_place<R: Repository>(repository: &R, at: Place) -> Place
    ensures within { result.revision ≤ at.revision }
    ensures listed { let h = history_of (R.content repository.now) in (strict : Bool) (low : ℕ)
        → listed h low (trace h strict at) ≡ listed h low (trace h strict result) }
{
    let last = at.revision.saturating_sub(LOOKED_THROUGH);
    let mut revision = at.revision;
    while revision > last && !is_concerned(repository.changes(revision), &at.path) {
        revision -= 1;
    }
    Place {
        path: at.path,
        revision,
    }
}

/// Gives the place in a revision that may concern its path: from there to the place nothing is listed.
fn place_passed_to<R: Repository>(repository: &R, at: Place) -> Place
    ensures within { result.revision ≤ at.revision }
    ensures listed { let h = history_of (R.content repository.now) in (strict : Bool) (low : ℕ)
        → listed h low (trace h strict at) ≡ listed h low (trace h strict result) }
{
    unconcerned_place(repository, settled_place(repository, at))
}

/// Finds the first revision, from `low` on, that the log lists along the trace from the place back, and the place from
/// which the log goes on: so a log goes out revision by revision.
#[tactic(auto, using(crate::proofs::Steps::walked_on, crate::proofs::Steps::walked_to, crate::proofs::Steps::nothing_listed_below))]
pub fn next_listed<R: Repository>(
    alloc: Global,
    repository: &R,
    strict: bool,
    low: u64,
    start: Option<Place>,
) -> Result<Option<Listed>, AllocError>
    ensures { IfOk result (λ found. IsNext (history_of (R.content repository.now)) strict low
        start found) }
{
    let mut place = start;
    while let Some(found) = place {
        let at = place_passed_to(repository, found);
        let revision = at.revision;
        if revision < low {
            return Ok(None);
        }
        let next = step_back(alloc, repository, strict, &at)?;
        if is_touched(repository.changes(revision), &at.path) {
            return Ok(Some(Listed { revision, next }));
        }
        place = next;
    }
    Ok(None)
}

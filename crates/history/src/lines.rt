//! Lines of history: what was added once, followed through changes and copies.
ghost use Rattle.std.specs.Prelude.{◌≡◌, ◌≤◌, false, IfOk};
ghost use Rattle.repo_api.specs.Histories.{history_of};
ghost use Rattle.traces.specs.Traces.{traced, IsBelow};
ghost use Rattle.history.specs.Lines.{AreOneLineBeneath, AreTheseTwo, is_one_line, last_place, line_start, same_place};

use crate::walk::{settled_place, step_back};
use repo_api::Repository;
use std::alloc::{AllocError, Global};
use std::mem::swap;
use traces::Place;

/// Says whether two places, in either order, are of one line of history: whether what is at both was added once. It walks
/// back from the later of the two, and again from the later of those that it has come to, until both are one or a line
/// begins.
pub fn is_one_line<R: Repository>(
    alloc: Global,
    repository: &R,
    older: &Place,
    newer: &Place,
) -> Result<bool, AllocError>
    ensures { let h = history_of (R.content repository.now) in
        IfOk result (λ one. one ≡ is_one_line h older.now newer.now) }
{
    let mut earlier = settled_copy(repository, older)?;
    let mut later = settled_copy(repository, newer)?;
    while !is_same_place(&earlier, &later) {
        put_in_order(&mut earlier, &mut later);
        let Some(before) = line_back(alloc, repository, &later)? else {
            return Ok(false);
        };
        later = before;
    }
    Ok(true)
}

/// Copies a place, in the revision that it has settled in.
pub(crate) fn settled_copy<R: Repository>(
    repository: &R,
    place: &Place,
) -> Result<Place, AllocError>
    ensures line { let h = history_of (R.content repository.now) in
        IfOk result (λ settled. line_start h settled ≡ line_start h place.now) }
    ensures beneath { let h = history_of (R.content repository.now) in
        IfOk result (AreOneLineBeneath h place.now) }
{
    let copy = Place {
        path: place.path.clone()?,
        revision: place.revision,
    };
    Ok(settled_place(repository, copy))
}

/// Says whether two places are one.
pub(crate) fn is_same_place(place: &Place, other: &Place) -> bool
    ensures { result ≡ same_place place.now other.now }
{
    place.revision == other.revision && place.path == other.path
}

/// Exchanges two places where the second is in an older revision than the first.
pub(crate) fn put_in_order(earlier: &mut Place, later: &mut Place)
    ensures order { earlier.new.revision ≤ later.new.revision }
    ensures two { AreTheseTwo earlier.new later.new earlier.old later.old }
{
    if later.revision < earlier.revision {
        swap(earlier, later);
    }
}

/// Goes one step back along the line of a place, to the revision in which what was there before has settled. `None` where
/// the line begins at the place.
fn line_back<R: Repository>(
    alloc: Global,
    repository: &R,
    at: &Place,
) -> Result<Option<Place>, AllocError>
    ensures below { IfOk result (IsBelow at.now.revision) }
    ensures line { let h = history_of (R.content repository.now) in
        IfOk result (λ before. line_start h at.now ≡ last_place at.now (traced h false before)) }
{
    match step_back(alloc, repository, false, at)? {
        None => Ok(None),
        Some(next) => Ok(Some(settled_place(repository, next))),
    }
}

//! What the changes of one revision say of a path.
ghost use Rattle.std.specs.{Prelude.{◌≡◌, ◌≤◌, length, IfOk, option_copied, Some, drop}, List.list_any};
ghost use Rattle.repo_api.specs.Histories.{Changed};
ghost use Rattle.traces.specs.{Traces.{decides, deciding_change, earlier, source_place, place_before, is_copied, next_place}, Touching.{touches, is_touched}};

use crate::place::Place;
use repo_api::{Action, Change, Source};
use std::alloc::{AllocError, Global};
use svnpath::Path;

/// Says whether the change made what is at the path, or a directory above it.
fn decides(path: &Path, at: &Path, change: &Change) -> bool
    ensures { result ≡ decides path.now (at.now, change.now) }
{
    matches!(change.action, Action::Add | Action::Replace) && path.is_at_or_under(at)
}

/// Finds the change at the longest path, at or above this one, that was added or replaced.
fn deciding_change<'a>(changes: &'a [(Path, Change)], path: &Path) -> Option<&'a (Path, Change)>
    ensures value { option_copied result ≡ deciding_change changes.now path.now }
    ensures above { (e : Changed) → option_copied result ≡ Some e → length e.0 ≤ length path.now }
{
    changes
        .iter()
        .rev()
        .find(|entry| decides(path, &entry.0, &entry.1))
}

/// Says whether the revision lists a change at or under the path, or a copy at or above it.
pub fn is_touched(changes: &[(Path, Change)], path: &Path) -> bool
    ensures { result ≡ is_touched changes.now path.now }
{
    if path.is_root() {
        return true;
    }
    is_any_touching(changes, path)
}

/// Says whether any of the changes is at or under the path, or a copy at or above it.
fn is_any_touching(changes: &[(Path, Change)], path: &Path) -> bool
    ensures { result ≡ list_any (touches path.now) changes.now }
{
    changes
        .iter()
        .any(|entry| touches(path, &entry.0, &entry.1))
}

/// Says whether the change, which is at `at`, is at or under the path, or is a copy at or above it.
fn touches(path: &Path, at: &Path, change: &Change) -> bool
    ensures { result ≡ touches path.now (at.now, change.now) }
{
    at.is_at_or_under(path) || change.source.is_some() && path.is_at_or_under(at)
}

/// Gives the place before: the same path in the revision before, or beneath a copy the place in its source. What was
/// made by the revision without a source was nowhere.
pub fn place_before(
    alloc: Global,
    changes: &[(Path, Change)],
    at: &Place,
) -> Result<Option<Place>, AllocError>
    ensures { IfOk result (λ place. place ≡ place_before changes.now at.now) }
{
    match deciding_change(changes, &at.path) {
        None => earlier(at),
        Some(entry) => source_place(alloc, &entry.0, &entry.1.source, &at.path),
    }
}

/// Gives the same path in the revision before.
fn earlier(at: &Place) -> Result<Option<Place>, AllocError>
    ensures { IfOk result (λ place. place ≡ earlier at.now.path at.now.revision) }
{
    let revision = at.revision;
    if revision == 0 {
        return Ok(None);
    }
    Ok(Some(Place {
        path: at.path.clone()?,
        revision: revision - 1,
    }))
}

/// Gives the path, which lies at or under `top`, beneath the source of a copy to `top`.
fn source_place(
    alloc: Global,
    top: &Path,
    source: &Option<Source>,
    path: &Path,
) -> Result<Option<Place>, AllocError>
    requires { length top.now ≤ length path.now }
    ensures { IfOk result (λ place. place ≡ source_place source.now
        (drop (length top.now) path.now)) }
{
    match source {
        None => Ok(None),
        Some(source) => {
            Ok(Some(Place {
                path: path.rebased(alloc, top, &source.path)?,
                revision: source.revision,
            }))
        }
    }
}

/// Says whether a copy brought what is at the path.
pub fn is_copied(changes: &[(Path, Change)], path: &Path) -> bool
    ensures { result ≡ is_copied changes.now path.now }
{
    match deciding_change(changes, path) {
        None => false,
        Some(entry) => entry.1.source.is_some(),
    }
}

/// Gives the place before, where a strict trace ends at a copy.
pub fn next_place(
    alloc: Global,
    changes: &[(Path, Change)],
    strict: bool,
    at: &Place,
) -> Result<Option<Place>, AllocError>
    ensures { IfOk result (λ place. place ≡ next_place strict changes.now at.now) }
{
    if strict && is_copied(changes, &at.path) {
        return Ok(None);
    }
    place_before(alloc, changes, at)
}

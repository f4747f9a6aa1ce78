//! Lines of history of all that is at two places and beneath them.
ghost use Rattle.std.specs.{Prelude.{◌≡◌, true, IfOk, IfSome}, List.list_any};
ghost use Rattle.repo_api.specs.Histories.{history_of};
ghost use Rattle.traces.specs.Traces.{IsBelow};
ghost use Rattle.history.specs.Lines.{AreOneLineBeneath, AreOneLineBeside, is_beside, makes_beside};

use crate::lines::{is_same_place, put_in_order, settled_copy};
use crate::walk::{ask_on, settled_place};
use byte_string::ByteString;
use repo_api::{Action, Change, Repository};
use std::alloc::{AllocError, Global};
use std::collections::BTreeSet;
use svnpath::Path;
use traces::{Place, place_before};

/// Says whether what is at two places, in either order, is of one line of history, and so is what is at each path beneath
/// both. It walks back as `is_one_line` does, and ends where something beneath was made: so a `false` answer is always
/// right, and one of two places that have one node revision is `true`.
pub fn are_one_line_beneath<R: Repository>(
    alloc: Global,
    repository: &R,
    older: &Place,
    newer: &Place,
) -> Result<bool, AllocError>
    ensures { let h = history_of (R.content repository.now) in
        IfOk result (λ all. all ≡ true → AreOneLineBeneath h older.now newer.now) }
{
    let none = BTreeSet::new(alloc);
    are_one_line_beside(alloc, repository, &none, older, newer)
}

/// Says the same of two places, but for what is beneath them by these names. It ends where something beneath was made that
/// is not by one of them.
pub fn are_one_line_beside<R: Repository>(
    alloc: Global,
    repository: &R,
    names: &BTreeSet<ByteString>,
    older: &Place,
    newer: &Place,
) -> Result<bool, AllocError>
    ensures { let h = history_of (R.content repository.now) in
        IfOk result (λ all. all ≡ true → AreOneLineBeside names.now.keys h older.now newer.now) }
{
    let mut earlier = settled_copy(repository, older)?;
    let mut later = settled_copy(repository, newer)?;
    while !is_same_place(&earlier, &later) {
        put_in_order(&mut earlier, &mut later);
        let Some(before) = lines_back(alloc, repository, names, &later)? else {
            return Ok(false);
        };
        later = before;
    }
    Ok(true)
}

/// Says whether a path, by its names, does not begin with one of these.
fn is_beside(names: &BTreeSet<ByteString>, path: &[ByteString]) -> bool
    ensures { result ≡ is_beside names.now.keys path.now }
{
    match path {
        [] => true,
        [name, ..] => !names.contains(name),
    }
}

/// Says whether the change, which is at `at`, added or replaced what is beneath a path by none of these names.
fn makes_beside(names: &BTreeSet<ByteString>, path: &Path, at: &Path, change: &Change) -> bool
    ensures { result ≡ makes_beside names.now.keys path.now (at.now, change.now) }
{
    matches!(change.action, Action::Add | Action::Replace)
        && at.is_at_or_under(path)
        && !path.is_at_or_under(at)
        && is_beside(names, &at.components()[path.len()..])
}

/// Says whether any of the changes added or replaced what is beneath a path by none of these names.
fn is_made_beside(names: &BTreeSet<ByteString>, changes: &[(Path, Change)], path: &Path) -> bool
    ensures { result ≡ list_any (makes_beside names.now.keys path.now) changes.now }
{
    changes
        .iter()
        .any(|entry| makes_beside(names, path, &entry.0, &entry.1))
}

/// Goes one step back along the line of a place, and along those of what is beneath it by none of these names, to the
/// revision in which what was there before has settled. `None` where a line begins at the place, or something beneath it
/// was made by none of them.
fn lines_back<R: Repository>(
    alloc: Global,
    repository: &R,
    names: &BTreeSet<ByteString>,
    at: &Place,
) -> Result<Option<Place>, AllocError>
    ensures below { IfOk result (IsBelow at.now.revision) }
    ensures lines { let h = history_of (R.content repository.now) in
        IfOk result (λ before. IfSome before (AreOneLineBeside names.now.keys h at.now)) }
{
    ask_on(alloc, repository)?;
    let changes = repository.changes(at.revision);
    if is_made_beside(names, changes, &at.path) {
        return Ok(None);
    }
    match place_before(alloc, changes, at)? {
        None => Ok(None),
        Some(next) => {
            if next.revision < at.revision {
                Ok(Some(settled_place(repository, next)))
            } else {
                Ok(None)
            }
        }
    }
}

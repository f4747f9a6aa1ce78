//! The changes that a revision's file says.
ghost use Rattle.std.specs.{Prelude.{◌≡◌, true, [], IfOk, Some, IsSome, Decides, option_copied, option_map}, List.Sorted.IsStrictlySortedBy, Map.keys_of};
ghost use Rattle.std.specs.{Ordering.is_lt, Result.result_ok};
ghost use Rattle.svnpath.specs.{Paths.path_cmp, Texts.parsed};
ghost use Rattle.revision_data.specs.Found.{found};
ghost use Rattle.filed_trees.specs.{Changes.{action_in, source_in, change_in, changes_by, with_lines, with_rows}, Readable.{Judges, Reads}};

use byte_string::ByteString;
use fsfs_nodes::{FileAction, FileChange};
use fsfs_text::{FileFault, Place};
use repo_api::{Action, Change, Source};
use std::alloc::Global;
use std::cmp::Ordering;
use svnpath::{Path, PathFault};

/// Reads a path.
pub(crate) fn read_path(alloc: Global, text: &ByteString) -> Result<Path, FileFault>
    ensures { Reads result (result_ok (parsed text.now)) }
{
    match Path::parse(alloc, text.as_slice()) {
        Ok(path) => Ok(path),
        Err(PathFault::NoMemory) => Err(FileFault::NoMemory),
        Err(_) => Err(FileFault::BadLine),
    }
}

/// Says what was done, as a repository does.
fn action_in(action: FileAction) -> Action
    ensures { result ≡ action_in action }
{
    match action {
        FileAction::Add => Action::Add,
        FileAction::Delete => Action::Delete,
        FileAction::Replace => Action::Replace,
        FileAction::Modify => Action::Modify,
    }
}

/// Reads the source of a copy, if there is one.
fn read_source(alloc: Global, place: &Option<Place>) -> Result<Option<Source>, FileFault>
    ensures { Reads result (source_in place.now) }
{
    let Some(place) = place else {
        return Ok(None);
    };
    let path = read_path(alloc, &place.path)?;
    Ok(Some(Source {
        revision: place.revision as u64,
        path,
    }))
}

/// Reads a changed path, and its change.
#[tactic(auto, unfolding(crate::specs::Changes::change_in))]
fn read_change(alloc: Global, change: &FileChange) -> Result<(Path, Change), FileFault>
    ensures { Reads result (change_in change.now) }
{
    let path = read_path(alloc, &change.path)?;
    let source = read_source(alloc, &change.source)?;
    let made = Change {
        action: action_in(change.action),
        text: change.text,
        properties: change.properties,
        source,
    };
    Ok((path, made))
}

/// Reads the changes, as they stand.
///
/// # Errors
///
/// `BadLine` where a path is none; `NoMemory`.
fn read_changes(alloc: Global, changes: &[FileChange]) -> Result<Vec<(Path, Change)>, FileFault>
    ensures read { IfOk result (λ list. with_lines [] changes.now ≡ Some list.items) }
    ensures judges { Judges result (IsSome (with_lines [] changes.now)) }
{
    let mut list = Vec::with_capacity(alloc, changes.len())?;
    for change in changes {
        list.push(read_change(alloc, change)?)?;
    }
    Ok(list)
}

/// Says whether each path comes after the one before.
fn are_rising(changes: &[(Path, Change)]) -> bool
    ensures { Decides result (IsStrictlySortedBy path_cmp (keys_of changes.now)) }
{
    let is_before = |change: &(Path, Change), next: &(Path, Change)| -> bool
        ensures { result ≡ is_lt (path_cmp change.now.0 next.now.0) }
    { change.0 < next.0 };
    changes.is_sorted_by(is_before)
}

/// Sorts changes by their paths.
///
/// # Errors
///
/// `BadLine` where a path is changed twice; `NoMemory`.
fn in_order(mut changes: Vec<(Path, Change)>) -> Result<Vec<(Path, Change)>, FileFault>
    ensures changes { IfOk result (λ list. with_rows [] changes.items ≡ Some list.items) }
    ensures sorted { IfOk result (λ list. IsStrictlySortedBy path_cmp (keys_of list.items)) }
    ensures judges { Judges result (IsSome (with_rows [] changes.items)) }
{
    let compare = |change: &(Path, Change), other: &(Path, Change)| -> Ordering
        ensures { result ≡ path_cmp change.now.0 other.now.0 }
    { change.0.cmp(&other.0) };
    changes.sort_by(compare)?;
    if are_rising(changes.as_slice()) {
        Ok(changes)
    } else {
        Err(FileFault::BadLine)
    }
}

/// Gives the changes in the order of their paths. Nothing is moved where they stand so.
///
/// # Errors
///
/// `BadLine` where a path is none, or is changed twice; `NoMemory`.
pub fn changes_by_path(
    alloc: Global,
    changes: &[FileChange],
) -> Result<Vec<(Path, Change)>, FileFault>
    ensures changes { IfOk result (λ list. changes_by changes.now ≡ Some list.items) }
    ensures sorted { IfOk result (λ list. IsStrictlySortedBy path_cmp (keys_of list.items)) }
    ensures judges { Judges result (IsSome (changes_by changes.now)) }
{
    let list = read_changes(alloc, changes)?;
    if are_rising(list.as_slice()) {
        return Ok(list);
    }
    in_order(list)
}

/// Finds the change of a path, with the path, among changes in the order of their paths.
pub(crate) fn change_at<'a>(
    changes: &'a [(Path, Change)],
    path: &Path,
) -> Option<&'a (Path, Change)>
    requires { IsStrictlySortedBy path_cmp (keys_of changes.now) }
    ensures { option_copied result
        ≡ option_map (λ change. (path.now, change)) (found changes.now path.now) }
{
    let compare = |change: &(Path, Change)| -> Ordering
        ensures { result ≡ path_cmp change.now.0 path.entry.now }
    { change.0.cmp(path) };
    match changes.binary_search_by(compare) {
        Ok(place) => Some(&changes[place]),
        Err(_) => None,
    }
}

/// Says whether two paths are the same.
#[tactic(auto, using(svnpath::specs::PathLaws::same_path_is, svnpath::specs::PathLaws::same_path_refl))]
pub(crate) fn is_same_path(path: &Path, other: &Path) -> bool
    ensures { Decides result (path.now ≡ other.now) }
{
    path == other
}

/// Says whether both are the same source, or both none.
fn is_same_source(source: &Option<Source>, other: &Option<Source>) -> bool
    ensures { Decides result (source.now ≡ other.now) }
{
    match (source, other) {
        (None, None) => true,
        (Some(source), Some(other)) => source.revision == other.revision
            && is_same_path(&source.path, &other.path),
        _ => false,
    }
}

/// Says whether two changes are the same.
fn is_same_change(change: &Change, other: &Change) -> bool
    ensures { Decides result (change.now ≡ other.now) }
{
    change.action == other.action
        && change.text == other.text
        && change.properties == other.properties
        && is_same_source(&change.source, &other.source)
}

/// Says whether two changes of paths are the same.
fn is_same_row(row: &(Path, Change), other: &(Path, Change)) -> bool
    ensures { Decides result (row.now ≡ other.now) }
{
    is_same_path(&row.0, &other.0) && is_same_change(&row.1, &other.1)
}

/// Says whether changes with their paths are the same, in the same order.
pub(crate) fn are_same_changes(changes: &[(Path, Change)], others: &[(Path, Change)]) -> bool
    ensures { Decides result (changes.now ≡ others.now) }
{
    if changes.len() != others.len() {
        return false;
    }
    for k in 0..changes.len() {
        if !is_same_row(&changes[k], &others[k]) {
            return false;
        }
    }
    true
}

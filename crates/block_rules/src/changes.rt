//! What the changes of a revision make, at a path and above it.
ghost use Rattle.std.specs.{Prelude.{◌≡◌, option_copied}, List.Sorted.IsStrictlySortedBy, Map.keys_of};
ghost use Rattle.svnpath.specs.Paths.{path_cmp};
ghost use Rattle.history_marks.specs.Transactions.{has_made};
ghost use Rattle.revision_data.specs.Found.{found};
ghost use Rattle.block_rules.specs.Rules.{is_made, makes_at};

use byte_string::ByteString;
use repo_api::{Action, Change};
use std::cmp::Ordering;
use svnpath::Path;

/// Finds the change of a path, among changes in the order of their paths.
pub fn change_of<'a>(changes: &'a [(Path, Change)], path: &[ByteString]) -> Option<&'a Change>
    ensures { IsStrictlySortedBy path_cmp (keys_of changes.now)
        → option_copied result ≡ found changes.now path.now }
{
    let compare = |entry: &(Path, Change)| -> Ordering
        ensures { result ≡ path_cmp entry.now.0 path.entry.now }
    { entry.0.components().cmp(path) };
    match changes.binary_search_by(compare) {
        Ok(place) => Some(&changes.get(place)?.1),
        Err(_) => None,
    }
}

/// Says whether a change puts something new at its path.
fn has_made(change: Option<&Change>) -> bool
    ensures { result ≡ has_made (option_copied change.entry) }
{
    match change {
        Some(change) => matches!(change.action, Action::Add | Action::Replace),
        None => false,
    }
}

/// Says whether something was added or replaced at a path.
fn makes_at(changes: &[(Path, Change)], path: &[ByteString]) -> bool
    ensures { IsStrictlySortedBy path_cmp (keys_of changes.now)
        → result ≡ makes_at changes.now path.now }
{
    has_made(change_of(changes, path))
}

/// Says whether something was added or replaced at a path or above it.
pub(crate) fn is_made(changes: &[(Path, Change)], path: &[ByteString]) -> bool
    requires { IsStrictlySortedBy path_cmp (keys_of changes.now) }
    ensures { result ≡ is_made changes.now path.now }
{
    (0..path.len() + 1).any(|depth| makes_at(changes, &path[..depth]))
}

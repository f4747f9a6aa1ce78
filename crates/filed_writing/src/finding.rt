//! Finding the changes of paths that come in their order.
ghost use Rattle.std.specs.{Prelude.{◌≡◌, IfSome, Some, option_copied}, List.Sorted.IsStrictlySortedBy, Map.keys_of};
ghost use Rattle.svnpath.specs.Paths.{path_cmp};
ghost use Rattle.revision_data.specs.Found.{found};

use byte_string::ByteString;
use repo_api::Change;
use std::cmp::Ordering;
use svnpath::Path;

/// Gives the change at a place, if it is that of a path.
fn change_at<'a>(
    changes: &'a [(Path, Change)],
    place: usize,
    path: &[ByteString],
) -> Option<&'a Change>
    ensures { IsStrictlySortedBy path_cmp (keys_of changes.now)
        → IfSome (option_copied result) (λ change. found changes.now path.now ≡ Some change) }
{
    let entry = changes.get(place)?;
    match entry.0.components().cmp(path) {
        Ordering::Equal => Some(&entry.1),
        _ => None,
    }
}

/// Finds the change of a path, among changes in the order of their paths: at the place where it is likely, else by a search.
/// Gives with it the place where that of the next path is likely. Nothing that the clause says depends on these places.
pub fn change_near<'a>(
    changes: &'a [(Path, Change)],
    likely: usize,
    path: &[ByteString],
) -> (Option<&'a Change>, usize)
    ensures { IsStrictlySortedBy path_cmp (keys_of changes.now)
        → option_copied result.0 ≡ found changes.now path.now }
{
    if let Some(change) = change_at(changes, likely, path) {
        return (Some(change), likely.saturating_add(1));
    }
    let compare = |entry: &(Path, Change)| -> Ordering
        ensures { result ≡ path_cmp entry.now.0 path.entry.now }
    { entry.0.components().cmp(path) };
    match changes.binary_search_by(compare) {
        Ok(place) => (Some(&changes[place].1), place.saturating_add(1)),
        Err(place) => (None, place),
    }
}

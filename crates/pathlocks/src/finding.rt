//! The locks that changes reach, found run by run in a map that goes by components.
ghost use Rattle.std.specs.{Prelude.{◌≡◌, ◌++◌, OnOk, map, option_copied}, List.filter, List.Sorted.IsStrictlySortedBy, Map.keys_of, Map.Iter.deref_pair};
ghost use Rattle.svnpath.specs.Paths.{is_at_or_under, path_cmp, same_path};
ghost use Rattle.repo_api.specs.Locking.{is_reached, reaches};
ghost use Rattle.pathlocks.specs.Tops.{is_below, top_after};

use repo_api::{Action, Change, Lock};
use small_rules::is_of_whole_tree;
use std::alloc::{AllocError, Global};
use std::collections::BTreeMap;
use svnpath::Path;

/// Appends the locks at the path and under it, which stand side by side in the map.
pub(crate) fn append_under<'a>(
    locks: &'a BTreeMap<Path, Lock>,
    path: &Path,
    found: &mut Vec<(&'a Path, &'a Lock)>,
) -> Result<(), AllocError>
    ensures ok { OnOk result (map deref_pair found.new.items
        ≡ map deref_pair found.old.items ++ filter (λ e. is_at_or_under e.0 path.now) locks.now.entries) }
    ensures ordered { IsStrictlySortedBy path_cmp (keys_of locks.now.entries) }
{
    for (key, lock) in locks.range(path..) {
        if !key.is_at_or_under(path) {
            break;
        }
        found.push((key, lock))?;
    }
    Ok(())
}

/// Appends the lock at the path, if there is one.
fn append_at<'a>(
    locks: &'a BTreeMap<Path, Lock>,
    path: &Path,
    found: &mut Vec<(&'a Path, &'a Lock)>,
) -> Result<(), AllocError>
    ensures { OnOk result (map deref_pair found.new.items
        ≡ map deref_pair found.old.items ++ filter (λ e. same_path path.now e.0) locks.now.entries) }
{
    note_order(locks);
    if let Some(entry) = locks.get_key_value(path) {
        found.push(entry)?;
    }
    Ok(())
}

/// Appends the locks that the change at the path reaches.
fn append_reached<'a>(
    locks: &'a BTreeMap<Path, Lock>,
    path: &Path,
    change: &Change,
    found: &mut Vec<(&'a Path, &'a Lock)>,
) -> Result<(), AllocError>
    ensures { OnOk result (map deref_pair found.new.items
        ≡ map deref_pair found.old.items ++ filter (λ e. reaches (path.now, change.now) e.0) locks.now.entries) }
{
    if is_of_whole_tree(change.action) {
        append_under(locks, path, found)
    } else {
        append_at(locks, path, found)
    }
}

/// Says whether the path is at the other, if there is one, or under it.
fn is_below(above: Option<&Path>, path: &Path) -> bool
    ensures { result ≡ is_below (option_copied above.entry) path.now }
{
    match above {
        None => false,
        Some(above) => path.is_at_or_under(above),
    }
}

/// Appends the locks that the changes reach, in the map's order. What lies under a changed tree was found with it, so a
/// change there finds nothing more.
pub(crate) fn append_in_the_way<'a>(
    locks: &'a BTreeMap<Path, Lock>,
    changes: &BTreeMap<Path, Change>,
    found: &mut Vec<(&'a Path, &'a Lock)>,
) -> Result<(), AllocError>
    ensures ok { OnOk result (map deref_pair found.new.items
        ≡ map deref_pair found.old.items ++ filter (λ e. is_reached changes.now.entries e.0) locks.now.entries) }
    ensures ordered { IsStrictlySortedBy path_cmp (keys_of locks.now.entries) }
    ensures changes_ordered { IsStrictlySortedBy path_cmp (keys_of changes.now.entries) }
{
    note_order(locks);
    note_order(changes);
    let mut top = None;
    for (path, change) in changes {
        if !is_below(top, path) {
            append_reached(locks, path, change, found)?;
            top = new_top(top, path, change.action);
        }
    }
    Ok(())
}

/// Gives the path of the last tree that changed whole, after this change.
fn new_top<'a>(top: Option<&'a Path>, path: &'a Path, action: Action) -> Option<&'a Path>
    ensures { option_copied result ≡ top_after (option_copied top.entry) path.now action }
{
    if is_of_whole_tree(action) {
        Some(path)
    } else {
        top
    }
}

/// Shows that a map's entries are in the order of their paths.
fn note_order<V>(map: &BTreeMap<Path, V>)
    ensures { IsStrictlySortedBy path_cmp (keys_of map.now.entries) }
{
    let _count = map.len();
}

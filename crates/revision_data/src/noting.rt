//! The steps of a note in the changes by their paths.
ghost use Rattle.std.specs.Prelude.{◌≡◌, not, is_some, IfOk, OnOk, OnErr, None, option_map, if◌then◌else◌};
ghost use Rattle.svnpath.specs.Paths.{is_at_or_under, PathValue, same_path};
ghost use Rattle.repo_api.specs.Changes.{noted, or_modified};
ghost use Rattle.revision_data.specs.Found.{found};

use crate::changes::unflagged;
use crate::path_map::{paths_beneath, put, take_out, take_out_each};
use repo_api::{Action, Change};
use std::alloc::{AllocError, Global};
use std::collections::BTreeMap;
use svnpath::Path;

/// Puts a modification at the path if nothing was changed there, and answers whether nothing was.
pub(crate) fn put_placeholder(
    changes: &mut BTreeMap<Path, Change>,
    path: &Path,
) -> Result<bool, AllocError>
    ensures made { IfOk result (λ made. made ≡ not (is_some (found changes.old.entries path.now))) }
    ensures ok { OnOk result ((q : PathValue) → found changes.new.entries q
        ≡ noted (found changes.old.entries) path.now
        (or_modified (found changes.old.entries path.now)) q) }
    ensures err { OnErr result (changes.new.entries ≡ changes.old.entries) }
{
    if changes.contains_key(path) {
        return Ok(false);
    }
    put(changes, path.clone()?, unflagged(Action::Modify, None))?;
    Ok(true)
}

/// Leaves the change, or none, at the path where there is one. It takes no memory.
pub(crate) fn leave(changes: &mut BTreeMap<Path, Change>, path: &Path, change: Option<Change>)
    ensures { (q : PathValue) → found changes.new.entries q ≡ (if same_path path.now q
        then (if is_some (found changes.old.entries q) then change else None)
        else found changes.old.entries q) }
{
    match change {
        Some(change) => replace(changes, path, change),
        None => take_out(changes, path),
    }
}

/// Puts the change at the path, over the one that stands there, if there is one.
fn replace(changes: &mut BTreeMap<Path, Change>, path: &Path, change: Change)
    ensures { (q : PathValue) → found changes.new.entries q ≡ (if same_path path.now q
        then option_map (λ _. change) (found changes.old.entries q)
        else found changes.old.entries q) }
{
    if let Some(place) = changes.get_mut(path) {
        *place = change;
    }
}

/// Takes out the changes beneath the path. Where memory runs out for a list of them, it goes through all changes.
pub(crate) fn forget_beneath(alloc: Global, changes: &mut BTreeMap<Path, Change>, path: &Path)
    ensures { (q : PathValue) → found changes.new.entries q ≡ (if same_path path.now q
        then found changes.old.entries q
        else (if is_at_or_under q path.now then None else found changes.old.entries q)) }
{
    match paths_beneath(alloc, changes, path) {
        Ok(beneath) => take_out_each(changes, &beneath),
        Err(_) => changes.retain(|key, _| path == key || !key.is_at_or_under(path)),
    }
}

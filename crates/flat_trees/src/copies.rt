//! What a delete takes out of the entries of a tree, and what a copy puts there.
ghost use Rattle.std.specs.{Prelude.{◌≡◌, OnOk, if◌then◌else◌, Some}, Option.option_or};
ghost use Rattle.svnpath.specs.Paths.{PathValue, same_path};
ghost use Rattle.repo_api.specs.Edits.{deleted};
ghost use Rattle.revision_data.specs.Found.{found};
ghost use Rattle.flat_entries.specs.Copies.{copied_entry};
ghost use Rattle.flat_trees.specs.{EntryChanges.landed, Changing.AreOf};

use flat_entries::copied_entry;
use repo_api::{Entry, Mark};
use revision_data::put;
use std::alloc::{AllocError, Global};
use std::collections::BTreeMap;
use svnpath::Path;

/// Takes out what is at or under the path, and opens `last` above it.
pub(crate) fn cut_subtree(entries: &mut BTreeMap<Path, Entry>, path: &Path)
    ensures { AreOf (deleted (found entries.old.entries) path.now) entries.new.entries }
{
    entries.retain(|key, entry| {
        if path.is_at_or_under(key) {
            entry.last = Mark::Open;
        }
        !key.is_at_or_under(path)
    });
}

/// Puts copies of what stands at `from` and under it in the same places at `to` and under it.
pub(crate) fn put_copies(
    alloc: Global,
    entries: &mut BTreeMap<Path, Entry>,
    source: &BTreeMap<Path, Entry>,
    from: &Path,
    to: &Path,
) -> Result<(), AllocError>
    ensures { OnOk result ((q : PathValue)
        → found entries.new.entries q ≡ option_or (landed (found source.now.entries) from.now to.now q) (found entries.old.entries q)) }
{
    for (path, entry) in source {
        if !path.is_at_or_under(from) {
            continue;
        }
        let target = path.rebased(alloc, from, to)?;
        put_copy(entries, target, entry, path == from)?;
    }
    Ok(())
}

/// Puts a copy of the entry at the path.
fn put_copy(
    entries: &mut BTreeMap<Path, Entry>,
    path: Path,
    entry: &Entry,
    is_top: bool,
) -> Result<(), AllocError>
    ensures { OnOk result ((q : PathValue)
        → found entries.new.entries q ≡ (if same_path path q then Some (copied_entry is_top entry.now) else found entries.old.entries q)) }
{
    match copied_entry(entry, is_top) {
        Ok(copy) => put(entries, path, copy),
        Err(error) => Err(error),
    }
}

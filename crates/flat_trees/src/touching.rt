//! The entries at a path and above it, whose `last` a change at the path opens.
ghost use Rattle.repo_api.specs.Edits.{touched_above};
ghost use Rattle.revision_data.specs.Found.{found};
ghost use Rattle.flat_trees.specs.Changing.{AreOf};

use repo_api::{Entry, Mark};
use std::collections::BTreeMap;
use svnpath::Path;

/// Opens `last` at the path and above it. It takes no memory.
pub(crate) fn touch_above(entries: &mut BTreeMap<Path, Entry>, path: &Path)
    ensures { AreOf (touched_above path.now (found entries.old.entries)) entries.new.entries }
{
    entries.retain(|key, entry| {
        if path.is_at_or_under(key) {
            entry.last = Mark::Open;
        }
        true
    });
}

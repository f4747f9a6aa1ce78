//! The entries of a tree: new ones, and changes in their places.
ghost use Rattle.std.specs.Prelude.{◌≡◌, ◌+◌, ◌&&◌, nat_lt, length};
ghost use Rattle.svnpath.specs.Paths.{is_at_or_under, PathValue};
ghost use Rattle.repo_api.specs.{Edits.{new_entry, with_text}, Opening.opening_root};
ghost use Rattle.revision_data.specs.Found.{found};
ghost use Rattle.flat_trees.specs.EntryChanges.{part_at, with_properties};

use repo_api::{Content, Entry, FileText, Mark, Properties};
use std::alloc::Global;
use std::collections::BTreeMap;
use svnpath::Path;

/// Makes the root of revision 0.
pub(crate) fn opening_root(alloc: Global) -> Entry
    ensures { result ≡ opening_root }
{
    Entry {
        content: Content::Directory,
        properties: Properties::new(alloc),
        own: Mark::Made(0, Path::root(alloc)),
        last: Mark::Made(0, Path::root(alloc)),
    }
}

/// Makes an entry that is added, with this content.
pub(crate) fn new_entry(alloc: Global, content: Content) -> Entry
    ensures { result ≡ new_entry content }
{
    Entry {
        content,
        properties: Properties::new(alloc),
        own: Mark::Open,
        last: Mark::Open,
    }
}

/// Gives the entry at the path these properties, and opens its marks.
pub(crate) fn put_properties(
    entries: &mut BTreeMap<Path, Entry>,
    path: &Path,
    properties: Properties,
)
    ensures { (q : PathValue) → found entries.new.entries q
        ≡ part_at path.now (with_properties properties) q (found entries.old.entries q) }
{
    if let Some(entry) = entries.get_mut(path) {
        entry.properties = properties;
        entry.own = Mark::Open;
        entry.last = Mark::Open;
    }
}

/// Gives the entry at the path this text, and opens its marks.
pub(crate) fn put_text(entries: &mut BTreeMap<Path, Entry>, path: &Path, text: FileText)
    ensures { (q : PathValue) → found entries.new.entries q
        ≡ part_at path.now (with_text text) q (found entries.old.entries q) }
{
    if let Some(entry) = entries.get_mut(path) {
        entry.content = Content::File(text);
        entry.own = Mark::Open;
        entry.last = Mark::Open;
    }
}

/// Says whether the key lies more than so many names beneath the path.
pub(crate) fn is_deeper(key: &Path, path: &Path, names: usize) -> bool
    ensures { result ≡ is_at_or_under key.now path.now
        && nat_lt (length path.now + names) (length key.now) }
{
    key.is_at_or_under(path) && key.len() - path.len() > names
}

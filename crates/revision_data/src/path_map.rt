//! Maps from paths.
ghost use Rattle.std.specs.Prelude.{◌≡◌, ◌&&◌, is_some, IfOk, OnOk, OnErr, Some, None, if◌then◌else◌};
ghost use Rattle.svnpath.specs.Paths.{PathValue, same_path};
ghost use Rattle.revision_data.specs.Found.{found, is_beneath, is_listed};

use std::alloc::{AllocError, Global};
use std::collections::BTreeMap;
use std::ops::Bound::{Excluded, Unbounded};
use svnpath::Path;

/// Puts the value at the path, over what stood there.
pub fn put<V: Drop>(entries: &mut BTreeMap<Path, V>, path: Path, value: V) -> Result<(), AllocError>
    ensures ok { OnOk result ((q : PathValue) → found entries.new.entries q
        ≡ (if same_path path q then Some value else found entries.old.entries q)) }
    ensures err { OnErr result (entries.new.entries ≡ entries.old.entries) }
{
    entries.insert(path, value)?;
    Ok(())
}

/// Takes out what stands at the path.
pub fn take_out<V: Drop>(entries: &mut BTreeMap<Path, V>, path: &Path)
    ensures { (q : PathValue) → found entries.new.entries q
        ≡ (if same_path path.now q then None else found entries.old.entries q) }
{
    entries.remove(path);
}

/// Takes out what stands at each of the paths.
pub fn take_out_each<V: Drop>(entries: &mut BTreeMap<Path, V>, paths: &[Path])
    ensures { (q : PathValue) → found entries.new.entries q
        ≡ (if is_listed paths.now q then None else found entries.old.entries q) }
{
    for path in paths {
        take_out(entries, path);
    }
}

/// Lists the paths of the map that lie beneath a path: they stand side by side.
pub fn paths_beneath<V>(
    alloc: Global,
    entries: &BTreeMap<Path, V>,
    path: &Path,
) -> Result<Vec<Path>, AllocError>
    ensures { IfOk result (λ list. (q : PathValue) → is_listed list.items q
        ≡ (is_beneath path.now q && is_some (found entries.now.entries q))) }
{
    let mut list = Vec::new(alloc);
    for (key, _) in entries.range((Excluded(path), Unbounded)) {
        if !key.is_at_or_under(path) {
            break;
        }
        list.push(key.clone()?)?;
    }
    Ok(list)
}

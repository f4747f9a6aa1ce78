//! The names of what stands straight beneath a path.
ghost use Rattle.std.specs.{Prelude.{◌≡◌, IfOk, map, option_copied}, List.Sorted.IsStrictlySortedBy, Map.keys_of, Map.Iter.deref};
ghost use Rattle.svnpath.specs.Paths.{path_cmp};
ghost use Rattle.repo_api.specs.Readings.{name_in, names_among};

use byte_string::ByteString;
use std::alloc::{AllocError, Global};
use std::collections::BTreeMap;
use svnpath::Path;

/// Finds the names of what is straight beneath the path, by their bytes.
pub(crate) fn names_beneath<'a, V>(
    alloc: Global,
    entries: &'a BTreeMap<Path, V>,
    path: &Path,
) -> Result<Vec<&'a ByteString>, AllocError>
    ensures names { IfOk result (λ names. map deref names.items
        ≡ names_among path.now (keys_of entries.now.entries)) }
    ensures ordered { IfOk result (λ names. IsStrictlySortedBy path_cmp
        (keys_of entries.now.entries)) }
{
    let mut names = Vec::new(alloc);
    for (key, _) in entries {
        if let Some(name) = name_in(key, path) {
            names.push(name)?;
        }
    }
    Ok(names)
}

/// Gives the name of the key in the directory at the path, if it is straight beneath it.
fn name_in<'a>(key: &'a Path, path: &Path) -> Option<&'a ByteString>
    ensures { option_copied result ≡ name_in path.now key.now }
{
    if !key.is_at_or_under(path) {
        return None;
    }
    match key.components()[path.len()..].split_first() {
        Some((name, deeper)) if deeper.is_empty() => Some(name),
        _ => None,
    }
}

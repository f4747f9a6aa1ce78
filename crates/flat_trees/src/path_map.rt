//! Maps from paths.
ghost use Rattle.std.specs.{Prelude.{◌≡◌, OnOk, if◌then◌else◌}, Option.option_or};
ghost use Rattle.svnpath.specs.Paths.{PathValue, same_path};
ghost use Rattle.revision_data.specs.Found.{found};

use revision_data::put;
use std::alloc::AllocError;
use std::collections::BTreeMap;
use svnpath::Path;

/// Puts the value, if there is one, at the path, over what stood there.
pub(crate) fn put_optional<V: Drop>(
    entries: &mut BTreeMap<Path, V>,
    path: &Path,
    value: Option<V>,
) -> Result<(), AllocError>
    ensures { OnOk result ((q : PathValue)
        → found entries.new.entries q ≡ (if same_path path.now q
        then option_or value (found entries.old.entries q) else found entries.old.entries q)) }
{
    match value {
        Some(value) => put(entries, path.clone()?, value),
        None => Ok(()),
    }
}

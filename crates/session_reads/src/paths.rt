//! Paths and revisions that are named.
ghost use Rattle.std.specs.{Prelude.{◌≡◌, ◌⊎◌, Ok, Err, MatchResult}, List.list_all};
ghost use Rattle.machine.specs.Histories.{all_joined, is_there, is_to_come};

use byte_string::ByteString;
use repo_api::Repository;
use std::alloc::Global;
use svnpath::{Path, PathFault};

/// Gives the paths as they are seen from the path of the client's URL.
pub(crate) fn all_joined(
    alloc: Global,
    base: &Path,
    paths: &[ByteString],
) -> Result<Vec<Path>, PathFault>
    ensures { MatchResult result
        (λ joined. all_joined base.now paths.now ≡ Ok joined.items)
        (λ fault. (all_joined base.now paths.now ≡ Err fault) ⊎ (fault ≡ PathFault.NoMemory)) }
{
    let mut joined = Vec::new(alloc);
    for path in paths {
        joined.push(base.join(alloc, path.as_slice())?)?;
    }
    Ok(joined)
}

/// Says whether a revision is above the youngest.
pub(crate) fn is_to_come<R: Repository>(view: &R, revision: u64) -> bool
    ensures { result ≡ is_to_come (R.content view.now) revision }
{
    view.youngest() < revision
}

/// Says whether something exists at the path of a revision.
pub(crate) fn is_there<R: Repository>(view: &R, revision: u64, path: &Path) -> bool
    ensures { result ≡ is_there (R.content view.now) revision path.now }
{
    view.kind(revision, path).is_present()
}

/// Says whether something exists at each of the paths of a revision.
pub(crate) fn are_there<R: Repository>(view: &R, revision: u64, paths: &[Path]) -> bool
    ensures { result ≡ list_all (is_there (R.content view.now) revision) paths.now }
{
    paths.iter().all(|path| is_there(view, revision, path))
}

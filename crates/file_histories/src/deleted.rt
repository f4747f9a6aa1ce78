//! The revision in which something was taken away.
ghost use Rattle.std.specs.{Prelude.{◌≡◌, ◌-◌, IfOk}, List.{find, list_any}};
ghost use Rattle.repo_api.specs.Histories.{history_of};
ghost use Rattle.file_histories.specs.Deleted.{deleted_revision, is_taken_away, revisions_after, takes_away};

use history::ask_on;
use repo_api::{Action, Change, Repository};
use std::alloc::{AllocError, Global};
use svnpath::Path;

/// Says whether the change, which is at `at`, deleted or replaced what is at the path, or a directory above it.
fn takes_away(path: &Path, at: &Path, change: &Change) -> bool
    ensures { result ≡ takes_away path.now (at.now, change.now) }
{
    !matches!(change.action, Action::Modify) && path.is_at_or_under(at)
}

/// Says whether any of the changes deleted or replaced what is at the path, or a directory above it.
fn is_any_taking_away(changes: &[(Path, Change)], path: &Path) -> bool
    ensures { result ≡ list_any (takes_away path.now) changes.now }
{
    changes
        .iter()
        .any(|entry| takes_away(path, &entry.0, &entry.1))
}

/// Finds the first revision after `low`, and up to `high`, whose changes deleted or replaced what is at the path, or a
/// directory above it. It ends as a walk does where the repository is given up.
fn first_taking_away<R: Repository>(
    alloc: Global,
    repository: &R,
    path: &Path,
    low: u64,
    high: u64,
) -> Result<Option<u64>, AllocError>
    ensures { let h = history_of (R.content repository.now) in
        IfOk result (λ found. found
        ≡ find (is_taken_away h path.now) (revisions_after low (high - low))) }
{
    let mut revision = low;
    while revision < high {
        ask_on(alloc, repository)?;
        revision += 1;
        if is_any_taking_away(repository.changes(revision), path) {
            return Ok(Some(revision));
        }
    }
    Ok(None)
}

/// Finds the first revision after `low`, and up to `high`, in which what is at the path in `low` was deleted or replaced.
/// `None` where nothing is there, or where it is there still.
pub fn deleted_revision<R: Repository>(
    alloc: Global,
    repository: &R,
    path: &Path,
    low: u64,
    high: u64,
) -> Result<Option<u64>, AllocError>
    ensures { IfOk result (λ found. found
        ≡ deleted_revision (R.content repository.now) path.now low high) }
{
    if repository.kind(low, path).is_present() {
        first_taking_away(alloc, repository, path, low, high)
    } else {
        Ok(None)
    }
}

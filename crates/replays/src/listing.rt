//! What a revision's list has at a path and beneath it.
ghost use Rattle.std.specs.{Prelude.{◌≡◌, ℕ, true, option_copied}, Ordering.is_lt};
ghost use Rattle.svnpath.specs.Paths.{is_at_or_under, path_cmp, PathValue};
ghost use Rattle.repo_api.specs.{Histories.history_of, States.RepoState};
ghost use Rattle.replays.specs.Places.{change_in, has_text, is_new, run_at, source_in};

use repo_api::{Action, Change, Source};
use svnpath::Path;

/// Gives what a list has at a path and beneath it, of what it has at a path above.
pub(crate) fn run_of<'a>(changes: &'a [(Path, Change)], path: &Path) -> &'a [(Path, Change)]
    ensures { (c : RepoState) (n : ℕ) (above : PathValue)
        → changes.now ≡ run_at (history_of c n) above → is_at_or_under path.now above ≡ true
        → result.now ≡ run_at (history_of c n) path.now }
{
    let start = changes.partition_point(
        |entry: &(Path, Change)| -> bool
            ensures { result ≡ is_lt (path_cmp entry.now.0 path.entry.now) }
        { entry.0 < *path },
    );
    let (_, rest) = changes.split_at(start);
    let end = rest.partition_point(
        |entry: &(Path, Change)| -> bool
            ensures { result ≡ is_at_or_under entry.now.0 path.entry.now }
        { entry.0.is_at_or_under(path) },
    );
    let (run, _) = rest.split_at(end);
    run
}

/// Gives the change at a path, of what a list has there and beneath it.
pub(crate) fn change_of<'a>(run: &'a [(Path, Change)], path: &Path) -> Option<&'a Change>
    ensures { (c : RepoState) (n : ℕ) → run.now ≡ run_at (history_of c n) path.now
        → option_copied result ≡ change_in (history_of c n) path.now }
{
    match run.first() {
        None => None,
        Some(entry) => {
            if &entry.0 == path {
                Some(&entry.1)
            } else {
                None
            }
        }
    }
}

/// Says whether what the client had there before the change is not there after it.
pub(crate) fn is_new(change: Option<&Change>) -> bool
    ensures { result ≡ is_new (option_copied change.entry) }
{
    match change {
        None => false,
        Some(change) => !matches!(change.action, Action::Modify),
    }
}

/// Says whether the change is of a text too.
pub(crate) fn has_text(change: Option<&Change>) -> bool
    ensures { result ≡ has_text (option_copied change.entry) }
{
    match change {
        None => false,
        Some(change) => change.text,
    }
}

/// Gives the source of what is added there, if it is a copy.
pub(crate) fn source_in(change: Option<&Change>) -> Option<&Source>
    ensures { option_copied result ≡ source_in (option_copied change.entry) }
{
    let change = change?;
    if matches!(change.action, Action::Modify) {
        return None;
    }
    change.source.as_ref()
}

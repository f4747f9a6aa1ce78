//! A commit, path by path: what conflicts, and the entry that comes out.
ghost use Rattle.std.specs.Prelude.{◌≡◌, IfOk, option_copied};
ghost use Rattle.repo_api.specs.Merge.{changed_beneath, closed, has_open_last, is_changed, is_in_conflict, is_one_directory, is_untouched, merged_entry};
ghost use Rattle.repo_api.specs.Merge.{sealed};

use crate::marks::with_marks;
use repo_api::{Entry, Mark};
use std::alloc::AllocError;
use svnpath::Path;

/// Says whether the presence or the `last` differs.
fn is_changed(base: Option<&Entry>, entry: Option<&Entry>) -> bool
    ensures { result ≡ is_changed (option_copied base.entry) (option_copied entry.entry) }
{
    match (base, entry) {
        (None, None) => false,
        (Some(base), Some(entry)) => !base.last.is_same(&entry.last),
        _ => true,
    }
}

/// Says whether all three are directories, with one `own`.
fn is_one_directory(base: Option<&Entry>, txn: Option<&Entry>, youngest: Option<&Entry>) -> bool
    ensures { result ≡ is_one_directory (option_copied base.entry) (option_copied txn.entry)
        (option_copied youngest.entry) }
{
    match (base, txn, youngest) {
        (Some(base), Some(txn), Some(youngest)) => {
            (base.is_directory() && txn.is_directory() && youngest.is_directory())
                && (base.own.is_same(&txn.own) && base.own.is_same(&youngest.own))
        }
        _ => false,
    }
}

/// Says whether both sides changed it, unless only beneath.
pub fn is_in_conflict(base: Option<&Entry>, txn: Option<&Entry>, youngest: Option<&Entry>) -> bool
    ensures { result ≡ is_in_conflict (option_copied base.entry) (option_copied txn.entry)
        (option_copied youngest.entry) }
{
    (is_changed(base, txn) && is_changed(base, youngest)) && !is_one_directory(base, txn, youngest)
}

/// Says whether the transaction changed nothing of the entry itself, nor took it from elsewhere.
fn is_untouched(base: Option<&Entry>, txn: Option<&Entry>) -> bool
    ensures { result ≡ is_untouched (option_copied base.entry) (option_copied txn.entry) }
{
    match (base, txn) {
        (None, None) => true,
        (Some(base), Some(txn)) => {
            base.own.is_same(&txn.own) && (base.last.is_same(&txn.last) || txn.last.is_open())
        }
        _ => false,
    }
}

/// Says whether the transaction changed it, or something beneath it.
fn has_open_last(txn: Option<&Entry>) -> bool
    ensures { result ≡ has_open_last (option_copied txn.entry) }
{
    match txn {
        None => false,
        Some(txn) => txn.last.is_open(),
    }
}

/// Gives the youngest entry where the transaction left it alone, else the transaction's.
pub fn merged_entry(
    revision: u32,
    path: &Path,
    base: Option<&Entry>,
    txn: Option<&Entry>,
    youngest: Option<&Entry>,
) -> Result<Option<Entry>, AllocError>
    ensures { IfOk result (λ o. o ≡ merged_entry revision path.now (option_copied base.entry)
        (option_copied txn.entry) (option_copied youngest.entry)) }
{
    if is_untouched(base, txn) {
        let Some(youngest) = youngest else {
            return Ok(None);
        };
        Ok(Some(with_joined_last(revision, path, txn, youngest)?))
    } else {
        let Some(txn) = txn else {
            return Ok(None);
        };
        Ok(Some(sealed(revision, path, txn)?))
    }
}

/// Gives the youngest entry, its `last` made by the revision where the transaction changed beneath it.
fn with_joined_last(
    revision: u32,
    path: &Path,
    txn: Option<&Entry>,
    youngest: &Entry,
) -> Result<Entry, AllocError>
    ensures { IfOk result (λ e. e
        ≡ changed_beneath revision path.now (option_copied txn.entry) youngest.now) }
{
    if has_open_last(txn) {
        return with_last(revision, path, youngest);
    }
    youngest.clone()
}

/// Gives the entry with its `last` made by the revision at the path.
fn with_last(revision: u32, path: &Path, entry: &Entry) -> Result<Entry, AllocError>
    ensures { IfOk result (λ e. e ≡ record entry.now { last = Mark.Made revision path.now }) }
{
    let own = entry.own.clone()?;
    with_marks(entry, own, Mark::Made(revision, path.clone()?))
}

/// Gives the entry with its open marks made by the revision at the path.
fn sealed(revision: u32, path: &Path, entry: &Entry) -> Result<Entry, AllocError>
    ensures { IfOk result (λ e. e ≡ sealed revision path.now entry.now) }
{
    let own = closed(revision, path, &entry.own)?;
    with_marks(entry, own, closed(revision, path, &entry.last)?)
}

/// Gives the mark of the revision at the path in an open mark's place.
fn closed(revision: u32, path: &Path, mark: &Mark) -> Result<Mark, AllocError>
    ensures { IfOk result (λ m. m ≡ closed revision path.now mark.now) }
{
    match mark {
        Mark::Open => Ok(Mark::Made(revision, path.clone()?)),
        Mark::Made(revision, path) => Ok(Mark::Made(*revision, path.clone()?)),
    }
}

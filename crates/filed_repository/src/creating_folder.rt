//! A new repository in a folder.
ghost use Rattle.std.specs.Prelude.{◌≡◌, ◌⊎◌, ◌≤◌, ℕ, List, Option, None, Some, IsErr, IsErrOf, OnOk};
ghost use Rattle.dates.specs.declared.TheConstants.{LAST_MOMENT};
ghost use Rattle.store_files.specs.Moments.{HasRisen};
ghost use Rattle.repostore.specs.Saving.{Stands};
ghost use Rattle.repository_creation.specs.Creating.{IsFreeWith};
ghost use Rattle.filed_repository.specs.CreatingFolder.{LeavesNew, MakesNew, format_in, new_format};

use crate::creating::new_filed;
use fsfs_text::{Format, Layout};
use std::alloc::Global;
use store_files::{Store, StoreFault};

/// Gives the format of a new repository. One of format 3 has its files in shards of 1,000 revisions.
pub(crate) fn new_format(format: u32) -> Format
    ensures { result ≡ new_format format }
{
    if format == 2 {
        Format::Two
    } else {
        Format::Three(Layout::Sharded(1000))
    }
}

/// Makes the files of a new repository of the format, whose revision 0 is dated at the moment, a count of microseconds
/// since the beginning of 1970. Where a repository is there, nothing is changed; what a stopped call left
/// is written over.
///
/// # Errors
///
/// `Exists` where a repository is there; as the store's calls; `NoMemory`.
pub fn create<S: Store>(
    alloc: Global,
    store: &mut S,
    uuid: u128,
    moment: u64,
    format: u32,
) -> Result<(), StoreFault>
    requires moment { moment ≤ LAST_MOMENT }
    requires format { (format ≡ 2) ⊎ (format ≡ 3) }
    ensures makes { S.is_honest store.new
        → MakesNew S.Store uuid moment store.old store.new result }
    ensures format { S.is_honest store.new → OnOk result
        (format_in (S.holds store.new) ≡ Some (new_format format)) }
    // A stop at any moment of the call leaves no `format`, so that `create` may be asked again, or
    // the whole new repository.
    ensures leaves { S.is_honest store.new → Stands S.Store store.old (IsFreeWith None)
        → LeavesNew S.Store uuid moment store.old store.new result }
    // A fault leaves no `format`, where it is known which bytes stand.
    ensures again { (locks : Option (List ℕ)) → S.is_honest store.new
        → Stands S.Store store.old (IsFreeWith locks)
        → IsErr result → S.in_doubt store.new ≡ S.in_doubt store.old
        → Stands S.Store store.new (IsFreeWith locks) }
    ensures device { IsErrOf result StoreFault.Device
        → HasRisen (S.failed store.old) (S.failed store.new) }
{
    let (filed, files) = new_filed(alloc, uuid, moment, new_format(format))?;
    std::mem::drop(filed);
    repository_creation::create(alloc, store, files.opening())
}

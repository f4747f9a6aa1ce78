//! The files of a repository that is new.
ghost use Rattle.std.specs.Prelude.{◌≡◌, ◌↔◌, ℕ, List, Option, Some, None, IsSome, OnOk, IsErrOf};
ghost use Rattle.store_files.specs.{Folders.IsSame, Moments.{HasCause, HasRisen}};
ghost use Rattle.repostore.specs.{Current.count_in, Files.HasFiles, Saving.Stands};
ghost use Rattle.repository_creation.specs.Creating.{Creates, opening_files, IsFreeWith};

use fsfs_text::layout_in;
use std::alloc::Global;
use store_files::{FileName, Store, StoreFault};

/// The files of a repository that is new, as bytes.
#[derive(Clone, Copy)]
pub struct Opening<'a> {
    pub format: &'a [u8],
    /// The format of the folder around the files, for other programs.
    pub repository_format: &'a [u8],
    pub kind: &'a [u8],
    pub uuid: &'a [u8],
    pub current: &'a [u8],
    pub revision: &'a [u8],
    pub properties: &'a [u8],
}

/// Writes the files of a new repository, `format` last and at once. Where `format` is there, nothing is
/// changed; where it is not, what a stopped call left is written over.
pub fn create<S: Store>(
    alloc: Global,
    store: &mut S,
    opening: Opening<'_>,
) -> Result<(), StoreFault>
    ensures exists { S.is_honest store.new → IsErrOf result StoreFault.Exists
        → IsSome (S.holds store.old FileName.Format) × IsSame (S.holds store.old) (S.holds store.new) }
    ensures free { S.is_honest store.new → OnOk result (S.holds store.old FileName.Format ≡ None) }
    ensures made { S.is_honest store.new → count_in opening.entry.current.now ≡ Some 1
        → OnOk result (HasFiles (opening_files opening.entry (S.holds store.old FileName.Locks))
        (S.holds store.new)) }
    // A stop at any moment of the call leaves no `format`, so that `create` may be asked again, or
    // the whole new repository. So does a fault, where it is known which bytes stand.
    ensures creates { (locks : Option (List ℕ)) → S.is_honest store.new
        → Stands S.Store store.old (IsFreeWith locks)
        → Creates S.Store opening.entry locks store.old store.new result }
    ensures device { IsErrOf result StoreFault.Device
        → HasRisen (S.failed store.old) (S.failed store.new) }
{
    if store.read(alloc, FileName::Format)?.is_some() {
        return Err(StoreFault::Exists);
    }
    write_opening(store, opening)
}

/// Writes the files, `format` last and at once.
fn write_opening<S: Store>(store: &mut S, opening: Opening<'_>) -> Result<(), StoreFault>
    ensures honest { S.is_honest store.old ↔ S.is_honest store.new }
    ensures made { S.is_honest store.old → count_in opening.entry.current.now ≡ Some 1
        → OnOk result (HasFiles (opening_files opening.entry (S.holds store.old FileName.Locks))
        (S.holds store.new)) }
    ensures creates { (locks : Option (List ℕ))
        → Stands S.Store store.old (IsFreeWith locks)
        → Creates S.Store opening.entry locks store.old store.new result }
    ensures cause { HasCause (S.failed store.old) (S.failed store.new) result }
{
    let shard = layout_in(Some(opening.format)).shard(0);
    store.write_new(FileName::RepositoryFormat, opening.repository_format)?;
    store.write_new(FileName::Kind, opening.kind)?;
    store.write_new(FileName::Uuid, opening.uuid)?;
    store.write_new(FileName::Revision(shard, 0), opening.revision)?;
    store.write_new(FileName::Properties(shard, 0), opening.properties)?;
    store.write_new(FileName::Current, opening.current)?;
    match store.replace(FileName::Format, opening.format) {
        Ok(()) => Ok(()),
        Err(fault) => Err(StoreFault::from(fault)),
    }
}

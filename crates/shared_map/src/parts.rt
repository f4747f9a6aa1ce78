//! Parts of a map: lists of shared entries.
ghost use Rattle.std.specs.{Prelude.{◌≡◌, ◌<◌, ◌≤◌, ◌++◌, ◌∷◌, [], length, IfOk, OnOk, OnErr}, List.remove};
ghost use Rattle.shared_map.specs.Entries.{values};

use byte_string::ByteString;
use std::alloc::{AllocError, Global};
use std::sync::Arc;

/// The most entries of a part.
pub(crate) const PART_LIMIT: usize = 128;

/// The entries that a part may have however few parts there are.
const LEAST_LIMIT: usize = 32;

/// Gives how many entries a part may have among so many parts: a change copies the pointers to the parts and those of one
/// part, and both together are fewest where they are as many.
pub(crate) fn limit_among(parts: usize) -> usize
    ensures least { 32 ≤ result }
    ensures most { result ≤ 128 }
{
    parts.max(LEAST_LIMIT).min(PART_LIMIT)
}

/// A name with its value.
pub(crate) type Entry<V> = (ByteString, V);

/// Entries in the order of their names. The same entry may stand in many parts.
pub(crate) type Part<V> = Vec<Arc<Entry<V>>>;

/// Gives the same pointers, shared.
pub(crate) fn shared<T: Drop>(alloc: Global, parts: &[Arc<T>]) -> Result<Vec<Arc<T>>, AllocError>
    ensures { IfOk result (λ v. values v.items ≡ values parts.now) }
{
    let mut list = Vec::with_capacity(alloc, parts.len())?;
    for part in parts {
        put_shared(&mut list, part)?;
    }
    Ok(list)
}

/// Puts the pointer, shared, at the end of the list.
fn put_shared<T: Drop>(list: &mut Vec<Arc<T>>, more: &Arc<T>) -> Result<(), AllocError>
    ensures { OnOk result (values list.new.items ≡ values list.old.items ++ more.now.value ∷ []) }
{
    list.push(Arc::try_clone(more)?)?;
    Ok(())
}

/// Takes out the one at the place. Others that share the part keep it.
pub(crate) fn remove_at<T: Drop>(
    part: &mut Arc<Vec<Arc<T>>>,
    place: usize,
) -> Result<(), AllocError>
    requires { place < length (values part.old.value.items) }
    ensures ok { OnOk result (values part.new.value.items
        ≡ remove (values part.old.value.items) place) }
    ensures err { OnErr result (values part.new.value.items ≡ values part.old.value.items) }
{
    let list = Arc::make_mut(part)?;
    list.remove(place);
    Ok(())
}

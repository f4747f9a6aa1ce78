//! Locks, as items.
ghost use Rattle.std.specs.{Prelude.{◌≡◌, ◌∷◌, [], IfOk, map}, Map.Iter.deref_pair};
ghost use Rattle.items.specs.{Print.row_printed, Values.list, View.value_of};
ghost use Rattle.wire_replies.specs.{Replies.{lock_tree, lock_trees}, Sinks.{Says, Writes}};

use crate::build::{list_item, optional_string_item, path_item, string_item, with_made};
use crate::reply::Reply;
use crate::saying::say_item;
use crate::sink::ReplySink;
use byte_string::{ByteString, Sequence};
use items::Item;
use repo_api::Lock;
use std::alloc::{AllocError, Global};
use svnpath::Path;

/// Paths, each with the lock that stands there.
pub type LockList = Sequence<(Path, Lock)>;

/// Makes copies of these paths and of the locks that stand there.
pub fn copied_locks(alloc: Global, found: &[(&Path, &Lock)]) -> Result<LockList, AllocError>
    ensures { IfOk result (λ locks. locks ≡ map deref_pair found.now) }
{
    let mut locks = Sequence::new(alloc);
    for &(path, lock) in found {
        locks.push((path.clone()?, lock.clone()?))?;
    }
    Ok(locks)
}

/// Writes the reply that contains these locks, one lock after another.
pub fn say_locks<S: ReplySink>(
    alloc: Global,
    found: &[(&Path, &Lock)],
    out: &mut S,
) -> Result<(), AllocError>
    ensures { Says result (S.writes out.old out.new) (Reply.Locks (map deref_pair found.now) ∷ []) }
{
    out.write_part(b"( success ( ( ")?;
    say_each_lock(alloc, found, out)?;
    out.write_part(b") ) ) ")
}

/// Writes these locks.
fn say_each_lock<S: ReplySink>(
    alloc: Global,
    found: &[(&Path, &Lock)],
    out: &mut S,
) -> Result<(), AllocError>
    ensures { Writes result (S.writes out.old out.new)
        (row_printed (lock_trees (map deref_pair found.now))) }
{
    for &(path, lock) in found {
        say_item(alloc, lock_item(alloc, path, lock), out)?;
    }
    Ok(())
}

/// Makes `( lock ... )`.
pub(crate) fn locks_item(alloc: Global, locks: &LockList) -> Result<Item, AllocError>
    ensures { IfOk result (λ item. value_of item ≡ list (lock_trees locks.now)) }
{
    let mut items = Vec::new(alloc);
    for (path, lock) in locks.as_slice() {
        items = with_made(items, lock_item(alloc, path, lock))?;
    }
    Ok(Item::List(items))
}

/// Makes `( path token owner [ comment ] created ( ) )`.
pub(crate) fn lock_item(alloc: Global, path: &Path, lock: &Lock) -> Result<Item, AllocError>
    ensures { IfOk result (λ item. value_of item ≡ lock_tree path.now lock.now) }
{
    let items = with_made(Vec::new(alloc), path_item(alloc, path))?;
    let items = with_made(items, string_item(alloc, lock.token.as_slice()))?;
    let items = with_made(items, string_item(alloc, lock.owner.as_slice()))?;
    let items = with_made(items, optional_string_item(alloc, &lock.comment))?;
    let items = with_made(items, string_item(alloc, lock.created.as_slice()))?;
    let items = with_made(items, list_item(alloc, []))?;
    Ok(Item::List(items))
}

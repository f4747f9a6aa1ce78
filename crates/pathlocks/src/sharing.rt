//! Changes of locks that views may share. Where a view does, the locks are copied before the first change,
//! and the view keeps what it has seen; else they are changed in place, whatever other locks stand.
ghost use Rattle.std.specs.{Prelude.{◌≡◌, OnOk, OnErr, option_copied}, FinMap.{get, insert, remove}};
ghost use Rattle.repo_api.specs.{Accepted.Becomes, Locking.{after_release, lock_of, lock_refusal_at, taking_refusal}};

use crate::locks::Locks;
use byte_string::ByteString;
use repo_api::{ChangeFault, Lock, LockAsk, LockTokens, NodeKind, UnlockAsk};
use std::alloc::{AllocError, Global};
use std::sync::Arc;
use svnpath::Path;

/// Locks the path that is asked for, at which this stands.
pub fn lock_shared(
    alloc: Global,
    locks: &mut Arc<Locks>,
    kind: NodeKind,
    created: Option<u64>,
    ask: LockAsk,
) -> Result<(), ChangeFault>
    ensures { Becomes result (lock_refusal_at kind created locks.old.value ask) locks.old.value
        (insert locks.old.value ask.path (lock_of ask)) locks.new.value }
{
    match Arc::make_mut(locks) {
        Ok(own) => own.lock(alloc, kind, created, ask),
        Err(error) => {
            std::mem::drop(ask);
            Err(ChangeFault::from(error))
        }
    }
}

/// Takes the lock at the path that is asked for away.
pub fn unlock_shared(locks: &mut Arc<Locks>, ask: &UnlockAsk) -> Result<(), ChangeFault>
    ensures { Becomes result (taking_refusal ask.now (get locks.old.value ask.now.path))
        locks.old.value (remove locks.old.value ask.now.path) locks.new.value }
{
    match Arc::make_mut(locks)?.unlock(ask) {
        Ok(()) => Ok(()),
        Err(refusal) => Err(ChangeFault::Refused(refusal)),
    }
}

/// Releases the locks that are the user's and were handed in.
pub fn release_shared(
    alloc: Global,
    locks: &mut Arc<Locks>,
    user: Option<&ByteString>,
    tokens: &LockTokens,
) -> Result<(), AllocError>
    ensures ok { OnOk result (locks.new.value
        ≡ after_release (option_copied user.entry) tokens.now locks.old.value) }
    ensures err { OnErr result (locks.new.value ≡ locks.old.value) }
{
    let released = Arc::make_mut(locks)?.release(alloc, user, tokens.as_slice())?;
    std::mem::drop(released);
    Ok(())
}

/// Puts the lock at the path, over what stood there.
pub fn put_shared(locks: &mut Arc<Locks>, path: Path, lock: Lock) -> Result<(), AllocError>
    ensures ok { OnOk result (locks.new.value ≡ insert locks.old.value path lock) }
    ensures err { OnErr result (locks.new.value ≡ locks.old.value) }
{
    match Arc::make_mut(locks) {
        Ok(own) => own.put(path, lock),
        Err(error) => {
            std::mem::drop((path, lock));
            Err(error)
        }
    }
}

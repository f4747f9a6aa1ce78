//! A change that is being saved.
ghost use Rattle.std.specs.Prelude.{◌≡◌, IfOk};

use access::Handed;
use repo_api::{CommitAsk, LockAsk, PropertyAsk, UnlockAsk};
use std::alloc::AllocError;

/// A change that is being saved, with what was asked. Where changes come to a halt, it is the one of which nobody
/// knows whether the files have it.
#[derive(Drop)]
pub enum SavedChange<T: Drop> {
    Commit(CommitAsk, T),
    Lock(LockAsk),
    Unlock(UnlockAsk),
    Release(Handed),
    Property(PropertyAsk),
}

/// Lets go of a change that needs no more to be known.
pub(crate) fn forget<T: Drop>(_change: SavedChange<T>) {}

/// Makes a copy of what is asked of an unlock.
pub(crate) fn copied(ask: &UnlockAsk) -> Result<UnlockAsk, AllocError>
    ensures { IfOk result (λ copy. copy ≡ ask.now) }
{
    Ok(UnlockAsk {
        path: ask.path.clone()?,
        user: ask.user.clone()?,
        token: ask.token.clone()?,
        breaks: ask.breaks,
        tells_dead_tokens: ask.tells_dead_tokens,
    })
}

//! The repository behind a change, as another value: what it was stays.
ghost use Rattle.std.specs.Prelude.{◌≡◌, IfOk, option_copied};
ghost use Rattle.repo_api.specs.{Accepted.Accepted, States.IsBeginning};
ghost use Rattle.world.specs.{Changing.{ChangesTo, HasLocks, IsAfter}, Whole.{txn_state_of, world_content}};

use crate::committing::with_commit;
use crate::repository::{kind_and_created, refusal_of, with_property};
use crate::world::World;
use crate::world_txn::WorldTxn;
use byte_string::ByteString;
use pathlocks::{Locks, lock_shared, release_shared, unlock_shared};
use repo_api::{ChangeFault, CommitAsk, LockAsk, LockTokens, PropertyAsk, UnlockAsk};
use revision_data::current_refusal;
use std::alloc::AllocError;
use std::sync::Arc;

impl World {
    /// Makes the repository with the next revision, if the commit is accepted.
    pub fn committed(&self, ask: &CommitAsk, txn: &WorldTxn) -> Result<World, ChangeFault>
        requires { IsBeginning (txn_state_of txn.now).shown (world_content self.now).revisions }
        ensures { ChangesTo result self.now (Accepted.Commits ask.now (txn_state_of txn.now)) }
    {
        let held = with_commit(self.alloc, &self.held, &self.locks, ask, txn)?;
        let locks = Arc::try_clone(&self.locks)?;
        Ok(World {
            alloc: self.alloc,
            held,
            locks,
        })
    }

    /// Makes the repository with the lock, if it is accepted.
    pub fn with_lock(&self, ask: &LockAsk) -> Result<World, ChangeFault>
        ensures { ChangesTo result self.now (Accepted.Locks ask.now) }
    {
        if let Some(refusal) = current_refusal(self.held.youngest(), ask.current) {
            return Err(ChangeFault::Refused(refusal));
        }
        let (kind, created) = kind_and_created(&self.held, &ask.path);
        let mut locks = Arc::try_clone(&self.locks)?;
        lock_shared(self.alloc, &mut locks, kind, created, copied(ask)?)?;
        Ok(self.with_locks(locks)?)
    }

    /// Makes the repository without the lock, if that is accepted.
    pub fn without_lock(&self, ask: &UnlockAsk) -> Result<World, ChangeFault>
        ensures { ChangesTo result self.now (Accepted.Unlocks ask.now) }
    {
        let mut locks = Arc::try_clone(&self.locks)?;
        unlock_shared(&mut locks, ask)?;
        Ok(self.with_locks(locks)?)
    }

    /// Makes the repository without the locks that are the user's and were handed in.
    pub fn released(
        &self,
        user: Option<&ByteString>,
        tokens: &LockTokens,
    ) -> Result<World, AllocError>
        ensures { IfOk result (IsAfter self.now
            (Accepted.Releases (option_copied user.entry) tokens.now)) }
    {
        let mut locks = Arc::try_clone(&self.locks)?;
        release_shared(self.alloc, &mut locks, user, tokens)?;
        self.with_locks(locks)
    }

    /// Makes the repository with a property of a revision changed, if that is accepted.
    pub fn with_rev_prop(&self, ask: &PropertyAsk) -> Result<World, ChangeFault>
        ensures { ChangesTo result self.now (Accepted.ChangesProperty ask.now) }
    {
        if let Some(refusal) = refusal_of(&self.held, ask) {
            return Err(ChangeFault::Refused(refusal));
        }
        let held = with_property(self.alloc, &self.held, ask.clone()?)?;
        let locks = Arc::try_clone(&self.locks)?;
        Ok(World {
            alloc: self.alloc,
            held,
            locks,
        })
    }

    /// Makes the repository with these locks.
    pub(crate) fn with_locks(&self, locks: Arc<Locks>) -> Result<World, AllocError>
        ensures { IfOk result (HasLocks self.now locks.value) }
    {
        Ok(World {
            alloc: self.alloc,
            held: Arc::try_clone(&self.held)?,
            locks,
        })
    }
}

/// Copies what is asked of a lock.
fn copied(ask: &LockAsk) -> Result<LockAsk, AllocError>
    ensures { IfOk result (λ copy. copy ≡ ask.now) }
{
    Ok(LockAsk {
        path: ask.path.clone()?,
        user: ask.user.clone()?,
        token: ask.token.clone()?,
        comment: ask.comment.clone()?,
        date: ask.date.clone()?,
        steals: ask.steals,
        current: ask.current,
    })
}

//! The repository as one that can be written to files.

use crate::filed_world::FiledWorld;
use byte_string::ByteString;
use repo_api::{ChangeFault, CommitAsk, LockAsk, LockTokens, PropertyAsk, UnlockAsk};
use stored_repository::{Filed, NewProperties, NewRevision};
use world::WorldTxn;

impl Filed for FiledWorld {
    ghost use Rattle.filed_trees.specs.StandsFor.{StandsFor};
    ghost use Rattle.filed_trees.proofs.States.{one_state};
    ghost use Rattle.filed_repository.specs.{Files.IsOf, Standing.stand_for};

    ghost stands_for = { StandsFor };

    ghost is_of = { IsOf };

    fn committed(
        &self,
        ask: &CommitAsk,
        txn: &WorldTxn,
    ) -> Result<(Self, NewRevision), ChangeFault> {
        let world = self.world.committed(ask, txn)?;
        let made = self.with_revision(world)?;
        Ok(made)
    }

    fn locked(&self, ask: &LockAsk) -> Result<(Self, Vec<u8>), ChangeFault> {
        let world = self.world.with_lock(ask)?;
        let made = self.with_locks(world)?;
        Ok(made)
    }

    fn unlocked(&self, ask: &UnlockAsk) -> Result<(Self, Vec<u8>), ChangeFault> {
        let world = self.world.without_lock(ask)?;
        let made = self.with_locks(world)?;
        Ok(made)
    }

    fn released(
        &self,
        user: Option<&ByteString>,
        tokens: &LockTokens,
    ) -> Result<(Self, Vec<u8>), ChangeFault> {
        let world = self.world.released(user, tokens)?;
        let made = self.with_locks(world)?;
        Ok(made)
    }

    fn property_changed(&self, ask: &PropertyAsk) -> Result<(Self, NewProperties), ChangeFault> {
        let world = self.world.with_rev_prop(ask)?;
        let made = self.with_properties(world, ask.revision)?;
        Ok(made)
    }

    ghost one_state = { one_state };

    ghost is_state = { λ r files are. stand_for r.world.held.value r.world.locks.value r.tables
        r.current files are };
}

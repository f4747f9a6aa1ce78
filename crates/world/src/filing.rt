//! What files are written from, and what is made of what was read from them.
ghost use Rattle.std.specs.{Prelude.{◌≡◌, IfOk}, FinMap.from_entries};
ghost use Rattle.world.specs.Changing.{HasLocks};

use crate::world::World;
use noderevs::Nodes;
use pathlocks::Locks;
use repo_api::Lock;
use std::alloc::{AllocError, Global};
use std::sync::Arc;
use svnpath::Path;

/// Makes the locks of a list; of two at one path the first counts.
fn listed(alloc: Global, locks: &[(Path, Lock)]) -> Result<Locks, AllocError>
    ensures { IfOk result (λ made. made ≡ from_entries locks.now) }
{
    let mut made = Locks::new(alloc);
    for k in 0..locks.len() {
        let entry = &locks[locks.len() - 1 - k];
        made.put(entry.0.clone()?, entry.1.clone()?)?;
    }
    Ok(made)
}

impl World {
    /// Shows the nodes of all revisions.
    pub fn nodes(&self) -> &Nodes
        ensures { result.now ≡ self.now.held.value.nodes }
    {
        self.held.nodes()
    }

    /// Makes the repository with the locks of a list and no others, whatever refuses a lock; of two at
    /// one path the first counts.
    pub fn with_listed_locks(&self, locks: &[(Path, Lock)]) -> Result<World, AllocError>
        ensures { IfOk result (HasLocks self.now (from_entries locks.now)) }
    {
        let made = listed(self.alloc, locks)?;
        self.with_locks(Arc::new(self.alloc, made)?)
    }
}

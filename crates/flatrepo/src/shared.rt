//! The repository over shared node revisions as a repository in memory.

use crate::in_memory::InMemory;
use repo_api::Lock;
use std::alloc::{AllocError, Global};
use svnpath::Path;
use world::World;

impl InMemory for World {
    fn empty(alloc: Global, uuid: u128, moment: u64) -> Result<Self, AllocError> {
        World::new(alloc, uuid, moment)
    }

    fn plant_lock(&mut self, path: Path, lock: Lock) -> Result<(), AllocError> {
        self.put_lock(path, lock)
    }
}

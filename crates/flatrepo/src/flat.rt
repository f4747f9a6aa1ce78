//! The plain program of the definitions as a repository in memory.

use crate::flat_repo::FlatRepo;
use crate::in_memory::InMemory;
use repo_api::Lock;
use std::alloc::{AllocError, Global};
use svnpath::Path;

impl InMemory for FlatRepo {
    fn empty(alloc: Global, uuid: u128, moment: u64) -> Result<Self, AllocError> {
        FlatRepo::new(alloc, uuid, moment)
    }

    fn plant_lock(&mut self, path: Path, lock: Lock) -> Result<(), AllocError> {
        self.put_lock(path, lock)
    }
}

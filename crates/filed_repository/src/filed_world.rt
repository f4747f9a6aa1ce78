//! A repository, and where its node revisions stand in its files.

use filed_trees::Table;
use fsfs_nodes::Current;
use pvec::PVec;
use std::alloc::Global;
use world::World;

/// A repository whose revisions share what did not change, where its node revisions stand in its
/// files, and which ids come next there.
pub struct FiledWorld {
    pub(crate) alloc: Global,
    pub(crate) world: World,
    pub(crate) tables: PVec<Table>,
    pub(crate) current: Current,
}

impl Drop for FiledWorld {
    fn drop(self) {
        let FiledWorld {
            alloc: _,
            world: _,
            tables: _,
            current: _,
        } = self;
    }
}

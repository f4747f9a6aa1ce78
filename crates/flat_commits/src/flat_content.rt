//! What a repository holds.
ghost use Rattle.std.specs.{Prelude.◌≡◌, FinMap.empty};

use flat_trees::FlatTree;
use repo_api::Properties;
use revision_data::ChangeList;
use std::sync::Arc;

/// What never changes of a revision.
#[derive(Drop)]
pub struct FlatRevision {
    pub tree: FlatTree,
    pub changes: ChangeList,
}

/// The repository's name, its revisions from 0 on, and the properties of each.
pub struct FlatContent {
    pub uuid: u128,
    pub revisions: Vec<Arc<FlatRevision>>,
    pub properties: Vec<Arc<Properties>>,
    /// What a number that is no revision has.
    pub nothing: FlatTree,
    ghost is_nothing: { nothing ≡ empty },
}

impl Drop for FlatContent {
    fn drop(self) {
        let FlatContent {
            uuid: _,
            revisions: _,
            properties: _,
            nothing: _,
        } = self;
    }
}

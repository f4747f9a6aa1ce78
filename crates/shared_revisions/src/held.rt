//! What a repository holds.
ghost use Rattle.std.specs.Prelude.{◌≡◌, ◌<◌, length};
ghost use Rattle.noderevs.specs.Held.{count, node_at, root_at, trees_of};
ghost use Rattle.shared_revisions.specs.{Placed.ArePlaced, Rising.RisesFrom, Shown.Shown};

use noderevs::Nodes;
use pvec::PVec;
use repo_api::Properties;
use revision_data::ChangeList;

/// The repository's name, the nodes of its revisions, the changes and the properties of each from
/// revision 0 on, and from where on no date is after that of the next revision. With a further revision it is another value, which shares all of it.
pub struct Held {
    pub(crate) uuid: u128,
    pub(crate) nodes: Nodes,
    pub(crate) changes: PVec<ChangeList>,
    pub(crate) properties: PVec<Properties>,
    pub(crate) rising_from: u64,
    ghost even: { count nodes ≡ length changes },
    ghost all: { length properties ≡ length changes },
    ghost begun: { 0 < length changes },
    ghost placed: { ArePlaced (node_at nodes) (root_at nodes) },
    ghost shown: { ∥ Shown (trees_of nodes) changes ∥₁ },
    ghost rising: { RisesFrom properties rising_from },
}

impl Drop for Held {
    fn drop(self) {
        let Held {
            uuid: _,
            nodes: _,
            changes: _,
            properties: _,
            rising_from: _,
        } = self;
    }
}

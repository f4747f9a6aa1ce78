//! What an open transaction has.
ghost use Rattle.std.specs.{Prelude.{◌<◌, length}, Coded.{codes, Coded-set}, FinMap.code as map_code};
ghost use Rattle.noderevs.specs.Held.{node_at, root_at};
ghost use Rattle.txntree.specs.Whole.{IsSound};
ghost use Rattle.shared_revisions.specs.Contents.{revisions_of};
ghost use Rattle.world.specs.Open.{Begins, IsOpen};

use revision_data::TxnChanges;
use shared_revisions::Held;
use std::sync::Arc;
use txntree::TxnTree;

/// An open transaction, which is sound. Its tree stands over the nodes of what it was shown once, and what it was last shown goes
/// on from that.
pub struct WorldTxn {
    pub(crate) shown: Arc<Held>,
    pub(crate) over: Arc<Held>,
    pub(crate) base: u64,
    pub(crate) tree: TxnTree,
    pub(crate) changes: TxnChanges,
    ghost begins: { Begins over.value shown.value } by { Coded-set (Prim.hlevel (map_code, codes)) _ _ },
    ghost within: { base < length (revisions_of over.value) },
    ghost standing: { IsSound (node_at over.value.nodes) (root_at over.value.nodes base) tree },
    ghost sound: { ∥ IsOpen over.value shown.value base tree changes ∥₁ },
}

impl Drop for WorldTxn {
    fn drop(self) {
        let WorldTxn {
            shown: _,
            over: _,
            base: _,
            tree: _,
            changes: _,
        } = self;
    }
}

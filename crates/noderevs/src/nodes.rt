//! The nodes of all revisions.
ghost use Rattle.noderevs.specs.{Heights.AreHigh, Nodes.{node_in, root_in}, Soundness.{AreKidsThere, AreRootsThere, AreApart, AreKidsEarlier}};

use crate::node_rev::Block;
use pvec::PVec;

/// The nodes of all revisions, revision by revision. They are never changed: with a further revision
/// they are another value, which shares them.
pub struct Nodes {
    pub(crate) blocks: PVec<Block>,
    ghost kids: { AreKidsThere (node_in blocks) },
    ghost roots: { AreRootsThere (node_in blocks) (root_in blocks) },
    ghost high: { AreHigh (node_in blocks) },
    ghost apart: { AreApart (node_in blocks) },
    ghost earlier: { AreKidsEarlier (node_in blocks) },
}

impl Drop for Nodes {
    fn drop(self) {
        let Nodes { blocks: _ } = self;
    }
}

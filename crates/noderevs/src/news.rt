//! The entries that a directory has and another node has not.
ghost use Rattle.std.specs.{Prelude.{map, IfOk}, Map.Iter.deref};
ghost use Rattle.noderevs.specs.{Heights.AreNews, Held.node_at, Nodes.kid_at};

use crate::node_rev::NodeId;
use crate::nodes::Nodes;
use byte_string::ByteString;
use shared_map::SharedMap;
use std::alloc::{AllocError, Global};

impl Nodes {
    /// Lists the entries that a node has not: all where there is no such node.
    pub fn news<'a>(
        &self,
        alloc: Global,
        before: Option<NodeId>,
        kids: &'a SharedMap<NodeId>,
    ) -> Result<Vec<&'a (ByteString, NodeId)>, AllocError>
        ensures { IfOk result (λ new. AreNews kids.now (kid_at (node_at self.now) before)
            (map deref new.items)) }
    {
        match self.held(before) {
            Some(node) => kids.unlike(alloc, &node.kids),
            None => {
                let none = SharedMap::new(alloc);
                kids.unlike(alloc, &none)
            }
        }
    }
}

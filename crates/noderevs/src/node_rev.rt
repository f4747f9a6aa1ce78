//! Node revisions and their ids.
ghost use Rattle.std.specs.Prelude.{◌≡◌};

use repo_api::{Content, Properties};
use shared_map::{Same, SharedMap};
use std::alloc::AllocError;
use std::sync::Arc;
use svnpath::Path;

/// The revision that made a node, and how many nodes of that revision stand before it.
#[derive(Copy, Debug, PartialEq, Eq)]
pub struct NodeId {
    pub rev: u32,
    pub place: u64,
}

impl Same for NodeId {
    fn is_same(&self, other: &Self) -> bool {
        self == other
    }
}

/// The revision and the path at which a change was made.
pub struct Made {
    pub rev: u32,
    pub path: Path,
}

impl Drop for Made {
    fn drop(self) {
        let Made { rev: _, path: _ } = self;
    }
}

/// What stands at a path from a revision on: the path, the mark of its own last change, its text or that
/// it is a directory, its properties, the nodes of its entries, and how many names lie beneath it at most.
pub struct NodeRev {
    pub path: Path,
    pub own: Made,
    pub content: Arc<Content>,
    pub properties: Arc<Properties>,
    pub kids: SharedMap<NodeId>,
    pub height: u32,
}

impl Drop for NodeRev {
    fn drop(self) {
        let NodeRev {
            path: _,
            own: _,
            content: _,
            properties: _,
            kids: _,
            height: _,
        } = self;
    }
}

/// What a revision adds: its nodes, each behind those of its entries, and which node is its root.
pub struct Block {
    pub nodes: Vec<NodeRev>,
    pub root: NodeId,
}

impl Drop for Block {
    fn drop(self) {
        let Block { nodes: _, root: _ } = self;
    }
}

impl Clone for NodeId {
    ghost is_clone = { λ id copy. copy ≡ id };

    fn clone(&self) -> Result<Self, AllocError> {
        Ok(*self)
    }
}

//! The way to a path of the revision, from the root down.
ghost use Rattle.std.specs.Prelude.{◌≡◌, ◌<◌, ◌≤◌, ◌+◌, [], get_or, length, take, IfOk, Option, None};
ghost use Rattle.svnpath.specs.Paths.{PathValue};
ghost use Rattle.noderevs.specs.{Held.node_at, Nodes.kid_at, declared.node_rev.NodeId.NodeId};
ghost use Rattle.filed_writing.specs.{Trails.{IsWay, Keeps, here_at}, declared.revision.Revision.Revision};

use crate::revision::Revision;
use block_rules::shared_length;
use byte_string::ByteString;
use noderevs::{NodeId, Nodes};
use std::alloc::{AllocError, Global};

/// Remembers an id for the last path, and for each above it, so that the next path is followed from where it leaves the
/// last one.
pub struct Way<'a> {
    pub path: &'a [ByteString],
    pub ids: Vec<Option<NodeId>>,
}

impl Drop for Way<'_> {
    fn drop(self) {
        let Way { path: _, ids } = self;
        std::mem::drop(ids);
    }
}

impl<'a> Way<'a> {
    /// Begins before any path.
    pub fn new(alloc: Global) -> Self
        ensures { (at : PathValue → Option NodeId) → Keeps at result }
    {
        let path: &'a [ByteString] = &[];
        Way {
            path,
            ids: Vec::new(alloc),
        }
    }

    /// Turns to another path, and keeps what is known of the names with which both begin.
    pub fn turn_to(&mut self, path: &'a [ByteString])
        ensures path { self.new.path ≡ path.entry }
        ensures known { (at : PathValue → Option NodeId) → Keeps at self.old → Keeps at self.new }
        ensures bound { length self.new.ids.items ≤ length path.now + 1 }
    {
        let shared = shared_length(self.path, path);
        self.ids.truncate(shared + 1);
        self.path = path;
    }

    /// Finds the entry of the path's name at a depth, in the node whose id is known there.
    pub fn entry(&self, nodes: &Nodes, depth: usize) -> Option<NodeId>
        requires known { depth < length self.now.ids.items }
        requires named { depth < length self.now.path.now }
        ensures { result ≡ kid_at (node_at nodes.now) (get_or self.now.ids.items depth None)
            (get_or self.now.path.now depth []) }
    {
        nodes.kid(self.ids[depth], &self.path[depth])
    }

    /// Finds the first node of the path that is not known yet.
    fn next(&self, revision: Revision<'_>) -> Option<NodeId>
        requires way { IsWay revision self.now }
        requires more { length self.now.ids.items ≤ length self.now.path.now }
        ensures { result ≡ here_at revision.entry (take (length self.now.ids.items) self.now.path.now) }
    {
        match self.ids.len().checked_sub(1) {
            Some(above) => self.entry(revision.nodes, above),
            None => revision.nodes.root(revision.number as u64),
        }
    }

    /// Finds the node at a path of the revision.
    pub fn find(
        &mut self,
        revision: Revision<'_>,
        path: &'a [ByteString],
    ) -> Result<Option<NodeId>, AllocError>
        requires way { IsWay revision self.now }
        ensures way { IsWay revision.entry self.new }
        ensures found { IfOk result (λ id. id ≡ here_at revision.entry path.now) }
    {
        self.turn_to(path);
        while self.ids.len() <= path.len() {
            let next = self.next(revision);
            self.ids.push(next)?;
        }
        Ok(self.ids[path.len()])
    }
}

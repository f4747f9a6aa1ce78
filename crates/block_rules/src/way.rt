//! The way to a node of the tree of a block.
ghost use Rattle.std.specs.{Prelude.{◌≡◌, ◌≤◌, ◌+◌, length, take, IfOk, Decides}, List.list_all};
ghost use Rattle.block_rules.specs.{Rules.{is_new, past_of}, Ways.{IsWay, id_at}, declared.next_block.NextBlock.NextBlock};

use crate::next_block::NextBlock;
use byte_string::ByteString;
use noderevs::NodeId;
use std::alloc::{AllocError, Global};

/// Remembers what the last path, and each above it, leads to, so that the next path is followed from where it leaves the
/// last one.
pub struct Way<'a> {
    path: &'a [ByteString],
    ids: Vec<Option<NodeId>>,
}

impl Drop for Way<'_> {
    fn drop(self) {
        let Way { path: _, ids } = self;
        std::mem::drop(ids);
    }
}

/// Says whether two names are the same.
#[tactic(auto, using(svnpath::specs::PathLaws::same_component_is))]
pub(crate) fn is_same_name(name: &ByteString, other: &ByteString) -> bool
    ensures { Decides result (name.now ≡ other.now) }
{
    name == other
}

/// Counts the names with which two paths begin alike.
pub fn shared_length(path: &[ByteString], other: &[ByteString]) -> usize
    ensures alike { take result path.now ≡ take result other.now }
    ensures bound { result ≤ length other.now }
{
    let mut count = 0;
    while count < path.len() && count < other.len() && is_same_name(&path[count], &other[count]) {
        count += 1;
    }
    count
}

impl<'a> Way<'a> {
    /// Begins before any path.
    pub(crate) fn new(alloc: Global) -> Self
        ensures { (tree : NextBlock) → IsWay tree result }
    {
        let path: &'a [ByteString] = &[];
        Way {
            path,
            ids: Vec::new(alloc),
        }
    }

    /// Turns to another path, and keeps what is known of the names with which both begin.
    fn turn_to(&mut self, path: &'a [ByteString])
        ensures path { self.new.path ≡ path.entry }
        ensures known { (tree : NextBlock) → IsWay tree self.old → IsWay tree self.new }
        ensures bound { length self.new.ids.items ≤ length path.now + 1 }
    {
        let shared = shared_length(self.path, path);
        self.ids.truncate(shared + 1);
        self.path = path;
    }

    /// Finds what the first part of the path that is not known yet leads to.
    fn next(&self, tree: NextBlock<'_>) -> Option<NodeId>
        requires way { IsWay tree self.now }
        requires more { length self.now.ids.items ≤ length self.now.path.now }
        ensures { result ≡ id_at tree.entry (take (length self.now.ids.items) self.now.path.now) }
    {
        match self.ids.len().checked_sub(1) {
            Some(above) => tree.kid(self.ids[above], &self.path[above]),
            None => Some(tree.block.root),
        }
    }

    /// Finds the id that a path of the block's tree leads to.
    pub(crate) fn find(
        &mut self,
        tree: NextBlock<'_>,
        path: &'a [ByteString],
    ) -> Result<Option<NodeId>, AllocError>
        requires way { IsWay tree self.now }
        ensures way { IsWay tree.entry self.new }
        ensures path { IfOk result (λ id. self.new.path.now ≡ path.now) }
        ensures whole { IfOk result (λ id. length self.new.ids.items ≡ length path.now + 1) }
        ensures found { IfOk result (λ id. id ≡ id_at tree.entry path.now) }
    {
        self.turn_to(path);
        while self.ids.len() <= path.len() {
            let next = self.next(tree);
            self.ids.push(next)?;
        }
        Ok(self.ids[path.len()])
    }

    /// Says whether each node on the way is one of the block.
    pub(crate) fn is_new(&self, tree: NextBlock<'_>) -> bool
        ensures { result ≡ list_all (is_new (past_of tree.entry.nodes.now)) self.now.ids.items }
    {
        self.ids.iter().all(|id| tree.is_new_at(*id))
    }
}

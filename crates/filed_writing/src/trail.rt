//! The way to a node, and what each node on it is made from.
ghost use Rattle.std.specs.{Prelude.{◌≡◌, ◌≤◌, length, option_copied, take, IfOk}, List.Sorted.IsStrictlySortedBy, Map.keys_of};
ghost use Rattle.svnpath.specs.Paths.{path_cmp};
ghost use Rattle.revision_data.specs.Found.{found};
ghost use Rattle.filed_writing.specs.{Origins.deleted_at, Trails.{IsTrail, made_at}, declared.revision.Revision.Revision};

use crate::finding::change_near;
use crate::origin::{put_by, root_before};
use crate::revision::Revision;
use crate::way::Way;
use byte_string::ByteString;
use noderevs::NodeId;
use repo_api::Change;
use std::alloc::{AllocError, Global};

/// Remembers what the node at the last path, and each above it, is made from; and at which place among the changes that
/// of the next path is likely.
pub struct Trail<'a> {
    way: Way<'a>,
    likely: usize,
}

impl Drop for Trail<'_> {
    fn drop(self) {
        let Trail { way, likely: _ } = self;
        std::mem::drop(way);
    }
}

impl<'a> Trail<'a> {
    /// Begins before any path.
    pub fn new(alloc: Global) -> Self
        ensures { (r : Revision) → IsTrail r result }
    {
        let way = Way::new(alloc);
        Trail { way, likely: 0 }
    }

    /// Finds what the first node of the path that is not known yet is made from.
    fn next(&self, revision: Revision<'_>) -> Option<NodeId>
        requires sorted { IsStrictlySortedBy path_cmp (keys_of revision.changes.now) }
        requires trail { IsTrail revision self.now }
        requires more { length self.now.way.ids.items ≤ length self.now.way.path.now }
        ensures { result ≡ made_at revision.entry
            (take (length self.now.way.ids.items) self.now.way.path.now) }
    {
        let way = &self.way;
        let depth = way.ids.len();
        let kept = match depth.checked_sub(1) {
            Some(above) => way.entry(revision.nodes, above),
            None => root_before(revision.nodes, revision.number as u64),
        };
        let (change, _) = change_near(revision.changes, self.likely, &way.path[..depth]);
        put_by(revision.nodes, change, kept)
    }

    /// Finds the node that the one at a path of a revision is made from, by the changes of the revision in the order of
    /// their paths.
    pub fn follow(
        &mut self,
        revision: Revision<'_>,
        path: &'a [ByteString],
    ) -> Result<Option<NodeId>, AllocError>
        requires sorted { IsStrictlySortedBy path_cmp (keys_of revision.changes.now) }
        requires trail { IsTrail revision self.now }
        ensures trail { IsTrail revision.entry self.new }
        ensures found { IfOk result (λ id. id ≡ made_at revision.entry path.now) }
    {
        self.way.turn_to(path);
        while self.way.ids.len() <= path.len() {
            let next = self.next(revision);
            self.way.ids.push(next)?;
        }
        Ok(self.way.ids[path.len()])
    }

    /// Finds the change of a path, and remembers the place behind it.
    pub fn change_at(&mut self, revision: Revision<'a>, path: &[ByteString]) -> Option<&'a Change>
        requires sorted { IsStrictlySortedBy path_cmp (keys_of revision.changes.now) }
        ensures trail { (r : Revision) → IsTrail r self.old → IsTrail r self.new }
        ensures found { option_copied result ≡ found revision.entry.changes.now path.now }
    {
        let (change, likely) = change_near(revision.changes, self.likely, path);
        self.likely = likely;
        change
    }

    /// Finds the node that a deletion at a path took away.
    pub fn deleted_at(
        &mut self,
        revision: Revision<'_>,
        path: &'a [ByteString],
    ) -> Result<Option<NodeId>, AllocError>
        requires sorted { IsStrictlySortedBy path_cmp (keys_of revision.changes.now) }
        requires trail { IsTrail revision self.now }
        ensures trail { IsTrail revision.entry self.new }
        ensures found { IfOk result (λ id. id ≡ deleted_at revision.entry.nodes.now
            revision.entry.changes.now revision.entry.number path.now) }
    {
        let Some((name, above)) = path.split_last() else {
            return Ok(None);
        };
        let directory = self.follow(revision, above)?;
        Ok(revision.nodes.kid(directory, name))
    }
}

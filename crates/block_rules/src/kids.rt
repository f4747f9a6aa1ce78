//! The entries of the directories of a block.
ghost use Rattle.std.specs.{Prelude.{◌≡◌, ◌++◌, ◌∷◌, [], map, true, IfOk, Some, None, Decides}, FinMap.entries, List.Sorted.IsStrictlySortedBy, Map.keys_of};
ghost use Rattle.std.specs.Map.Iter.{deref};
ghost use Rattle.svnpath.specs.{Components.IsComponent, Paths.{Component, path_cmp}};
ghost use Rattle.noderevs.specs.{Heights.AreNews, Held.node_at, Nodes.{kid_at, kid_of}, declared.node_rev.NodeId.NodeId};
ghost use Rattle.block_rules.specs.Rules.{IsNewKid, IsOldKid, IsRightKid, id_before, past_of};

use crate::changes::is_made;
use crate::next_block::NextBlock;
use crate::way::is_same_name;
use byte_string::ByteString;
use noderevs::{NodeId, NodeRev};
use std::alloc::{AllocError, Global};
use svnpath::{Path, is_component};

/// Says whether two paths are the same.
pub(crate) fn is_same_path(path: &Path, other: &Path) -> bool
    ensures { Decides result (path.now ≡ other.now) }
{
    path == other
}

/// Says whether two lists of names are the same.
fn are_same_names(names: &[ByteString], others: &[ByteString]) -> bool
    ensures { Decides result (names.now ≡ others.now) }
{
    names == others
}

/// Says whether a path is that of an entry of a directory.
fn is_child(path: &Path, directory: &Path, name: &ByteString) -> bool
    ensures { Decides result (path.now ≡ directory.now ++ name.now ∷ []) }
{
    match path.components().split_last() {
        Some((last, above)) => is_same_name(last, name)
            && are_same_names(above, directory.components()),
        None => false,
    }
}

/// Says whether an id is this one.
pub(crate) fn is_id(found: Option<NodeId>, id: NodeId) -> bool
    ensures { Decides result (found ≡ Some id) }
{
    found == Some(id)
}

/// Says whether a name is a component.
fn is_right_name(name: &ByteString) -> bool
    ensures { Decides result (IsComponent name.now) }
{
    is_component(name.as_slice())
}

/// Says whether the names of a node's entries are components.
fn are_components(alloc: Global, node: &NodeRev) -> Result<bool, AllocError>
    ensures { IfOk result (λ answer. Decides answer ((name : Component) (kid : NodeId)
        → kid_of name node.now ≡ Some kid → IsComponent name)) }
{
    let entries = node.kids.entries(alloc)?;
    for entry in &entries {
        if !is_right_name(&entry.0) {
            return Ok(false);
        }
    }
    Ok(true)
}

impl NextBlock<'_> {
    /// Says whether an entry of a directory is a node of the block in front of a place, which was made there.
    fn is_new_kid(self, place: usize, directory: &Path, name: &ByteString, kid: NodeId) -> bool
        ensures { Decides result (IsNewKid (past_of self.entry.nodes.now) self.entry.block.now
            place (directory.now ++ name.now ∷ []) kid) }
    {
        let at = kid.place as usize;
        match self.block.nodes.get(at) {
            Some(node) => {
                self.is_new(kid) && at < place && is_child(&node.path, directory, name)
            }
            None => false,
        }
    }

    /// Says whether an entry at a path is a node of an earlier revision, which was there before if
    /// nothing was made there.
    fn is_old_kid(self, path: &Path, kid: NodeId) -> bool
        requires { IsStrictlySortedBy path_cmp (keys_of self.changes.now) }
        ensures { Decides result (IsOldKid (past_of self.entry.nodes.now) self.entry.changes.now
            path.now kid) }
    {
        self.nodes.node(kid).is_some()
            && (is_made(self.changes, path.components())
                || is_id(self.find_before(path.components()), kid))
    }

    /// Says whether an entry of a directory, which is at a place of the block, is one that it may have.
    fn is_right_kid(
        self,
        alloc: Global,
        place: usize,
        directory: &Path,
        name: &ByteString,
        kid: NodeId,
    ) -> Result<bool, AllocError>
        requires { IsStrictlySortedBy path_cmp (keys_of self.changes.now) }
        ensures { IfOk result (λ answer. Decides answer (IsRightKid
            (past_of self.entry.nodes.now) self.entry.block.now self.entry.changes.now place
            directory.now name.now kid)) }
    {
        if self.is_new_kid(place, directory, name, kid) {
            return Ok(is_right_name(name));
        }
        let path = directory.child(alloc, name.clone()?)?;
        Ok(self.is_old_kid(&path, kid) && is_right_name(name))
    }

    /// Says whether the entries of a node, at its place of the block, are those that it may have. Those that were there
    /// before are: so it looks at those that are new, and at the names of all.
    pub(crate) fn are_right_kids(
        self,
        alloc: Global,
        place: usize,
        new: &[&(ByteString, NodeId)],
        node: &NodeRev,
    ) -> Result<bool, AllocError>
        requires sorted { IsStrictlySortedBy path_cmp (keys_of self.changes.now) }
        requires new { AreNews node.now.kids (kid_at (node_at self.nodes.now)
            (id_before (past_of self.nodes.now) node.now.path)) (map deref new.now) }
        ensures { IfOk result (λ answer. Decides answer ((name : Component) (kid : NodeId)
            → kid_of name node.now ≡ Some kid → IsRightKid (past_of self.entry.nodes.now)
            self.entry.block.now self.entry.changes.now place node.now.path name kid)) }
    {
        for entry in new {
            if !self.is_right_kid(alloc, place, &node.path, &entry.0, entry.1)? {
                return Ok(false);
            }
        }
        are_components(alloc, node)
    }
}

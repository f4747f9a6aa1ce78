//! What is found in what is held. It takes no memory but for a list of names.
ghost use Rattle.std.specs.{Prelude.{◌≡◌, ◌<◌, true, length, map, IfOk, IfSome, option_copied, slice_get}, Map.Iter.deref};
ghost use Rattle.repo_api.specs.{Histories.changes_in, Kinds.{created_of, has_deeper_at, kind_of, node_properties}};
ghost use Rattle.repo_api.specs.{Readings.{DifferAtMostBy, IsSameAt, names_in}, States.{tree_in, youngest}, Trees.text_of};
ghost use Rattle.history_marks.specs.Sound.{IsSoundRepo};
ghost use Rattle.noderevs.specs.{Held.{node_at, root_at}, Views.find_id};
ghost use Rattle.shared_revisions.specs.Contents.{revisions_of, held_state, tree_held};

use crate::held::Held;
use byte_string::ByteString;
use noderevs::NodeId;
use repo_api::{Change, FileText, NodeKind, Properties};
use std::alloc::{AllocError, Global};
use svnpath::{DEPTH_LIMIT, Path};

impl Held {
    /// Gives the repository's name among all repositories, as a number of 128 bits.
    pub fn uuid(&self) -> u128
        ensures { result ≡ (held_state self.now).uuid }
    {
        self.uuid
    }

    /// Says how many revisions there are.
    pub fn count(&self) -> u64
        ensures { result ≡ length (revisions_of self.now) }
    {
        self.changes.len() as u64
    }

    /// Gives the number of the youngest revision.
    pub fn youngest(&self) -> u64
        ensures is { result ≡ youngest (held_state self.now) }
        ensures within { result < length (revisions_of self.now) }
    {
        self.count().saturating_sub(1)
    }

    /// Says what is at a path of a revision.
    pub fn kind(&self, revision: u64, path: &Path) -> NodeKind
        ensures { result ≡ kind_of (tree_held self.now revision path.now) }
    {
        self.nodes.kind(self.nodes.root(revision), path)
    }

    /// Says whether something exists more than so many names beneath a path of a revision. No path is deeper than the
    /// limit.
    pub fn has_deeper(&self, revision: u64, path: &Path, names: usize) -> bool
        requires { ∥ IsSoundRepo (held_state self.now) ∥₁ }
        ensures { result ≡ has_deeper_at (held_state self.now) revision path.now names }
    {
        if names >= DEPTH_LIMIT {
            return false;
        }
        self.nodes
            .has_deeper(self.nodes.root(revision), path, names)
    }

    /// Gives the revision that last changed what is at a path of a revision, at or under it.
    pub fn created(&self, revision: u64, path: &Path) -> Option<u64>
        ensures { result ≡ created_of (tree_held self.now revision path.now) }
    {
        self.nodes.created(self.nodes.root(revision), path)
    }

    /// Gives the properties of what is at a path of a revision.
    pub fn node_properties(&self, revision: u64, path: &Path) -> Option<&Properties>
        ensures { option_copied result ≡ node_properties (tree_held self.now revision path.now) }
    {
        self.nodes.properties(self.nodes.root(revision), path)
    }

    /// Gives the text of the file at a path of a revision.
    pub fn text(&self, revision: u64, path: &Path) -> Option<&FileText>
        ensures { option_copied result ≡ text_of (tree_held self.now revision path.now) }
    {
        self.nodes.text(self.nodes.root(revision), path)
    }

    /// Finds the id that a path of a revision leads to.
    pub(crate) fn find(&self, revision: u64, path: &Path) -> Option<NodeId>
        ensures { result ≡ find_id (node_at self.now.nodes) path.now
            (root_at self.now.nodes revision) }
    {
        self.nodes
            .find_in(self.nodes.root(revision), path.components())
    }

    /// Says whether two places have one node: then all beneath them is the same.
    pub fn is_same(&self, revision: u64, path: &Path, other: u64, other_path: &Path) -> bool
        ensures { result ≡ true
            → IsSameAt (held_state self.now) revision path.now other other_path.now }
    {
        is_one(self.find(revision, path), self.find(other, other_path))
    }

    /// Gives names among which are all by which a directory of a revision and another of another revision differ, `None`
    /// where nothing exists at one of the paths.
    pub fn differing_names(
        &self,
        alloc: Global,
        revision: u64,
        path: &Path,
        other: u64,
        other_path: &Path,
    ) -> Result<Option<Vec<&ByteString>>, AllocError>
        ensures { IfOk result (λ found. IfSome found (λ names. DifferAtMostBy (held_state self.now)
            revision path.now other other_path.now (map deref names.items))) }
    {
        let one = self.find(revision, path);
        let beside = self.find(other, other_path);
        self.nodes.differing_names(alloc, one, beside)
    }

    /// Gives the names of what is straight beneath a path of a revision, by their bytes.
    pub fn names(
        &self,
        alloc: Global,
        revision: u64,
        path: &Path,
    ) -> Result<Vec<&ByteString>, AllocError>
        ensures { IfOk result (λ names. map deref names.items
            ≡ names_in (tree_in (slice_get (revisions_of self.now) revision)) path.now) }
    {
        match self.nodes.held(self.find(revision, path)) {
            Some(node) => node.kids.names(alloc),
            None => Ok(Vec::new(alloc)),
        }
    }

    /// Gives the changes of the revision in the order of their paths, none for a number that no revision has.
    pub fn changes(&self, revision: u64) -> &[(Path, Change)]
        ensures { result.now ≡ changes_in (slice_get (revisions_of self.now) revision) }
    {
        match self.changes.get(revision as usize) {
            Some(changes) => changes.as_slice(),
            None => &[],
        }
    }

    /// Gives the properties of the revision, none for a number that no revision has.
    pub fn properties(&self, revision: u64) -> Option<&Properties>
        ensures { option_copied result ≡ slice_get self.now.properties revision }
    {
        self.properties.get(revision as usize)
    }
}

/// Says whether two ids are one.
fn is_one(id: Option<NodeId>, other: Option<NodeId>) -> bool
    ensures { result ≡ true → id ≡ other }
{
    id == other
}

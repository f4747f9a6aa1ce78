//! What ids and paths lead to. No look-up takes memory but those that answer lists.
ghost use Rattle.std.specs.Prelude.{◌≡◌, ◌++◌, true, option_copied, option_and_then, option_map, slice_get, None, Some, IfOk};
ghost use Rattle.svnpath.specs.Paths.{Component, PathValue};
ghost use Rattle.repo_api.specs.{Kinds.{content_kind, created_of, kind_of, node_properties}, Trees.{content_text, text_of}, declared.entry.Entry.Entry};
ghost use Rattle.noderevs.specs.{Held.{blocks_of, node_at, root_at, count}, Nodes.{kid_at, kid_named}, Views.{find_id, shared_tree}};

use crate::node_rev::{Block, NodeId, NodeRev};
use crate::nodes::Nodes;
use byte_string::ByteString;
use repo_api::{Content, FileText, NodeKind, Properties};
use shared_map::SharedMap;
use std::alloc::{AllocError, Global};
use svnpath::Path;

impl Nodes {
    /// Says how many revisions there are.
    pub fn count(&self) -> usize
        ensures { result ≡ count self.now }
    {
        self.blocks.len()
    }

    /// Finds the block of a revision.
    pub fn block(&self, revision: u64) -> Option<&Block>
        ensures { option_copied result ≡ slice_get (blocks_of self.now) revision }
    {
        self.blocks.get(revision as usize)
    }

    /// Finds the root of a revision, `None` for a number that no revision has.
    pub fn root(&self, revision: u64) -> Option<NodeId>
        ensures { result ≡ root_at self.now revision }
    {
        Some(self.block(revision)?.root)
    }

    /// Finds the node of an id.
    pub fn node(&self, id: NodeId) -> Option<&NodeRev>
        ensures { option_copied result ≡ node_at self.now id }
    {
        self.block(id.rev as u64)?.nodes.get(id.place as usize)
    }

    /// Finds the node of an id, if there is one.
    pub fn held(&self, id: Option<NodeId>) -> Option<&NodeRev>
        ensures { option_copied result ≡ option_and_then (node_at self.now) id }
    {
        self.node(id?)
    }

    /// Makes a copy of the entries of a directory, which shares what does not change.
    pub fn kids(
        &self,
        alloc: Global,
        directory: Option<NodeId>,
    ) -> Result<SharedMap<NodeId>, AllocError>
        ensures { IfOk result (λ kids. (name : Component) → kid_named kids name
            ≡ kid_at (node_at self.now) directory name) }
    {
        let Some(id) = directory else {
            return Ok(SharedMap::new(alloc));
        };
        match self.node(id) {
            Some(node) => node.kids.share(alloc),
            None => Ok(SharedMap::new(alloc)),
        }
    }

    /// Finds the id of an entry of a directory.
    pub fn kid(&self, directory: Option<NodeId>, name: &ByteString) -> Option<NodeId>
        ensures { result ≡ kid_at (node_at self.now) directory name.now }
    {
        match self.node(directory?)?.kids.get(name) {
            Some(id) => Some(*id),
            None => None,
        }
    }

    /// Finds the id that a path leads to.
    pub fn find(&self, root: NodeId, path: &[ByteString]) -> Option<NodeId>
        ensures { result ≡ find_id (node_at self.now) path.now (Some root) }
    {
        let mut at = root;
        for name in path {
            at = self.kid(Some(at), name)?;
        }
        Some(at)
    }

    /// Finds the id that a path leads to from a root, of which there may be none.
    pub fn find_in(&self, root: Option<NodeId>, path: &[ByteString]) -> Option<NodeId>
        ensures { result ≡ find_id (node_at self.now) path.now root }
    {
        match root {
            Some(root) => self.find(root, path),
            None => None,
        }
    }

    /// Finds what exists at a path of a root's tree: that it is a directory, or a file's text.
    pub fn content(&self, root: Option<NodeId>, path: &[ByteString]) -> Option<&Content>
        ensures { option_copied result ≡ option_map (λ e. e.content)
            (shared_tree (node_at self.now) root path.now) }
    {
        match self.held(self.find_in(root, path)) {
            Some(node) => Some(&node.content),
            None => None,
        }
    }

    /// Finds the revision that last changed what exists at a path of a root's tree, at or under it.
    pub fn made(&self, root: Option<NodeId>, path: &[ByteString]) -> Option<u64>
        ensures { result ≡ created_of (shared_tree (node_at self.now) root path.now) }
    {
        let id = self.find_in(root, path)?;
        match self.node(id) {
            Some(_) => Some(id.rev as u64),
            None => None,
        }
    }

    /// Says what exists at a path of a root's tree.
    pub fn kind(&self, root: Option<NodeId>, path: &Path) -> NodeKind
        ensures { result ≡ kind_of (shared_tree (node_at self.now) root path.now) }
    {
        match self.content(root, path.components()) {
            Some(content) => content_kind(content),
            None => NodeKind::Absent,
        }
    }

    /// Finds the revision that last changed what exists at a path of a root's tree, at or under it.
    pub fn created(&self, root: Option<NodeId>, path: &Path) -> Option<u64>
        ensures { result ≡ created_of (shared_tree (node_at self.now) root path.now) }
    {
        self.made(root, path.components())
    }

    /// Finds the properties of what exists at a path of a root's tree.
    pub fn properties(&self, root: Option<NodeId>, path: &Path) -> Option<&Properties>
        ensures { option_copied result
            ≡ node_properties (shared_tree (node_at self.now) root path.now) }
    {
        match self.held(self.find_in(root, path.components())) {
            Some(node) => Some(&node.properties),
            None => None,
        }
    }

    /// Finds the text of the file at a path of a root's tree.
    pub fn text(&self, root: Option<NodeId>, path: &Path) -> Option<&FileText>
        ensures { option_copied result ≡ text_of (shared_tree (node_at self.now) root path.now) }
    {
        match self.content(root, path.components()) {
            Some(content) => content_text(content),
            None => None,
        }
    }

    /// Says whether two paths of roots' trees lead to one node: then all beneath them is the same. Two
    /// nodes have unequal last changes.
    pub fn is_same(
        &self,
        root: Option<NodeId>,
        path: &Path,
        other: Option<NodeId>,
        other_path: &Path,
    ) -> bool
        ensures same { result ≡ true → (rest : PathValue)
            → shared_tree (node_at self.now) root (path.now ++ rest) ≡ shared_tree (node_at self.now) other (other_path.now ++ rest) }
        ensures apart { (x y : Entry) → shared_tree (node_at self.now) root path.now ≡ Some x
            → shared_tree (node_at self.now) other other_path.now ≡ Some y → x.last ≡ y.last
            → result ≡ true }
    {
        match (
            self.find_in(root, path.components()),
            self.find_in(other, other_path.components()),
        ) {
            (Some(id), Some(other)) => id == other,
            _ => false,
        }
    }
}

/// Says what a node is, seen from outside.
pub fn content_kind(content: &Content) -> NodeKind
    ensures { result ≡ content_kind content.now }
{
    match content {
        Content::Directory => NodeKind::Directory,
        Content::File(_) => NodeKind::File,
    }
}

/// Gives the text of a file.
pub fn content_text(content: &Content) -> Option<&FileText>
    ensures { option_copied result ≡ content_text content.now }
{
    match content {
        Content::Directory => None,
        Content::File(text) => Some(text),
    }
}

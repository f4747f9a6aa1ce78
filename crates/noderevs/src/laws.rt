//! What holds of all nodes. The functions do nothing: their contracts are the laws.
ghost use Rattle.std.specs.Prelude.{◌≡◌, ◌∷◌, Some};
ghost use Rattle.svnpath.specs.Paths.{Component, PathValue};
ghost use Rattle.noderevs.specs.{Held.node_at, Soundness.{AreKidsEarlier, AreLastChangesApart}, Views.find_id, declared.node_rev.NodeId.NodeId};

use crate::nodes::Nodes;

/// Shows that a last change, a revision and a path, is of one node: unequal ids have unequal last changes.
pub fn last_changes_are_apart(_nodes: &Nodes)
    ensures { AreLastChangesApart (node_at _nodes.now) }
{}

/// Shows that the id of an entry is earlier than that of its directory, so no node is beneath itself.
pub fn entries_come_first(_nodes: &Nodes)
    ensures earlier { AreKidsEarlier (node_at _nodes.now) }
    ensures apart { (id : NodeId) (name : Component) (path : PathValue)
        → find_id (node_at _nodes.now) (name ∷ path) (Some id) ≡ Some id → ⊥ }
{}

//! What holds of what is held. The functions do nothing: their contracts are the laws.
ghost use Rattle.std.specs.{Prelude.{◌≡◌, IsSome}, FinMap.get};
ghost use Rattle.svnpath.specs.Paths.{PathValue};
ghost use Rattle.repo_api.specs.{States.{IsBeginning, TxnState}, Trees.Tree};
ghost use Rattle.history_marks.specs.Sound.{IsSoundRepo, IsSoundTxn};
ghost use Rattle.treemerge.specs.Merges.{IsTold};
ghost use Rattle.noderevs.specs.{Held.{node_at, trees_of}, declared.node_rev.NodeId.NodeId};
ghost use Rattle.shared_revisions.specs.{Contents.{held_state, revisions_of}, declared.held.Held.Held};

/// Shows that where the revisions of one begin those of another, the other shows the tree of each node's revision too,
/// whatever ids it has.
pub fn beginnings_show_the_same()
    ensures { (a b : Held) → IsBeginning (revisions_of a) (revisions_of b) → (id : NodeId)
        → IsSome (node_at a.nodes id) → (q : PathValue)
        → trees_of b.nodes id.rev q ≡ trees_of a.nodes id.rev q }
{}

/// Shows that where a sound transaction left an entry, over sound revisions that go on from those last shown, it is
/// that of its base but for `last`: what a merge by ids rests on.
pub fn transactions_are_told()
    ensures { (h : Held) (t : TxnState) (s : Tree) → IsSoundRepo (held_state h)
        → IsBeginning t.shown (revisions_of h) → IsSoundTxn t
        → ((q : PathValue) → get t.tree q ≡ s q) → IsTold (trees_of h.nodes t.base) s }
{}

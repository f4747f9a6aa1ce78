//! What holds of the entries beneath a path. The function does nothing: its contract is the law.
ghost use Rattle.svnpath.specs.Paths.{PathValue};
ghost use Rattle.repo_api.specs.{States.{tree_of, TreeMap}, Trees.IsTree};
ghost use Rattle.merge_queries.specs.Beneath.{AreAllBeneath};

/// Shows that in a tree the descendants of a path are all that is beneath it and has the property.
#[tactic(auto, using(crate::proofs::Whole::all_beneath))]
pub fn all_beneath_are_descendants()
    ensures { (m : TreeMap) (p : PathValue) → IsTree (tree_of m) → AreAllBeneath m p }
{}

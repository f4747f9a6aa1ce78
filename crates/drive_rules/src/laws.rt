//! What holds of the trees of drives. The functions do nothing: their contracts are the laws.
ghost use Rattle.std.specs.Prelude.{[], Bool};
ghost use Rattle.svnpath.specs.Paths.{PathValue};
ghost use Rattle.repo_api.specs.Trees.{IsTree, Tree};
ghost use Rattle.drive_rules.specs.{declared.depth.Depth.Depth, Scopes.{HoldsTogether, DepthLimit, scope_of, within}};

/// Shows that what exists in a tree exists in a directory of it.
pub fn trees_hold_together()
    ensures { (t : Tree) → IsTree t → HoldsTogether [] t }
{}

/// Shows that what is in scope of a tree exists in a directory that is in scope of it, from the drive's top on, if the
/// tree holds together so.
pub fn scopes_hold_together()
    ensures { (hides : PathValue → Bool) (inherited : Depth → Depth) (limit : DepthLimit)
        (old new t : Tree) (top : PathValue) → HoldsTogether top t
        → HoldsTogether top (within (scope_of hides inherited limit old new top) t) }
{}

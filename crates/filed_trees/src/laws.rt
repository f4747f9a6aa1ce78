//! What holds of files. The functions do nothing: their contracts are the laws.
ghost use Rattle.std.specs.{Prelude.{◌≡◌, ℕ, List, [], Some, slice_get}, FinMap.get};
ghost use Rattle.svnpath.specs.Paths.{PathValue};
ghost use Rattle.repo_api.specs.{Histories.Changed, States.{ChangeMap, RepoState, Revision}};
ghost use Rattle.noderevs.specs.{Heights.AreHigh, Held.{count, node_at}, Nodes.{node_in, root_in, with_block}, Views.shared_tree};
ghost use Rattle.noderevs.specs.{declared.node_rev.Block.Block, declared.nodes.Nodes.Nodes};
ghost use Rattle.block_rules.specs.Rules.{IsNextRevision, past_of};
ghost use Rattle.repostore.specs.Files.{Files};
ghost use Rattle.filed_trees.specs.{Pieces.RevisionBytes, Trees.tree_in, Tables.AreTabled, StandsFor.{StandsFor, IsRevision}};
ghost use Rattle.filed_trees.specs.{Values.{AreSameNext, AreSameRevisions}, declared.table.Table.Table};

/// Shows that where tables say which node revision of the files each node is, the trees of the files
/// are those of the nodes.
pub fn tabled_trees_are_those_of_the_files()
    ensures { (files : RevisionBytes) (blocks : List Block) (tables : List Table)
        (changes : List ChangeMap) → AreTabled files blocks tables changes
        → (n : ℕ) (path : PathValue)
        → tree_in files n path ≡ shared_tree (node_in blocks) (root_in blocks n) path }
{}

/// Shows that files stand for one state at most.
pub fn files_stand_for_one_state()
    ensures { (files : Files) (a b : RepoState) → StandsFor files a → StandsFor files b → a ≡ b }
{}

/// Shows that no nodes stand in no files.
pub fn nothing_is_tabled()
    ensures { AreTabled [] [] [] [] }
{}

/// Shows that where nodes are tabled, the files say each revision that has the tree of its nodes and
/// its changes.
pub fn tabled_revisions_are_those_of_the_files()
    ensures { (files : RevisionBytes) (blocks : List Block) (tables : List Table)
        (changes : List ChangeMap) → AreTabled files blocks tables changes
        → (n : ℕ) (revision : Revision)
        → ((path : PathValue) → get revision.tree path
        ≡ shared_tree (node_in blocks) (root_in blocks n) path)
        → slice_get changes n ≡ Some revision.changes → IsRevision files n revision }
{}

/// Shows that what may come next depends on what nodes have: where other nodes and another block have
/// the same at the same places, and each of them its height, the same changes may come next.
pub fn what_comes_next_depends_on_what_nodes_have()
    ensures { (past other : Nodes) (b c : Block) (changes : List Changed)
        → AreSameNext past other b c
        → AreHigh (with_block (node_at other) (count other) c.nodes.items)
        → IsNextRevision (past_of past) b changes → IsNextRevision (past_of other) c changes }
{}

/// Shows that files say one repository at most: nodes that are tabled in the same files have the same,
/// at the same places.
pub fn files_say_one_repository()
    ensures { (files : RevisionBytes) (blocks others : List Block) (tables more : List Table)
        (lists all : List ChangeMap) → AreTabled files blocks tables lists
        → AreTabled files others more all → AreSameRevisions blocks others lists all }
{}

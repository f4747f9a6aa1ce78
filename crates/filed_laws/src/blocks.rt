//! Laws of the files that the writer lays out: what is read of each is the block of nodes that was
//! laid out. The functions do nothing: their contracts are the laws.
ghost use Rattle.std.specs.{Prelude.{◌≡◌, ◌<◌, ◌^◌, ◌∷◌, ◌++◌, [], List, Ok, Option, Some, ℕ, length, map, reverse, slice_get}, FinMap.entries};
ghost use Rattle.svnpath.specs.Components.{IsRightPath};
ghost use Rattle.repo_api.specs.{Histories.Changed, Properties.PropertyList, States.ChangeMap};
ghost use Rattle.noderevs.specs.{Held.blocks_of, OpeningBlocks.AreOpening, declared.node_rev.Block.Block, declared.node_rev.NodeRev.NodeRev};
ghost use Rattle.noderevs.specs.declared.nodes.Nodes.{Nodes};
ghost use Rattle.block_rules.specs.Rules.{IsNextRevision, past_of};
ghost use Rattle.fsfs_text.specs.{Dumps.dump, declared.pair.DumpPair.DumpPair, declared.id.FileId.FileId};
ghost use Rattle.fsfs_nodes.specs.{Properties.{properties_bytes, properties_of}, declared.current.NextIds.NextIds, declared.change.FileChange.FileChange};
ghost use Rattle.fsfs.specs.Whole.{file_piece};
ghost use Rattle.filed_trees.specs.{Changes.changes_by, Pieces.RevisionBytes, Readable.IsReadableFile, Tables.{AreTabled, HasRows}, declared.table.Table.Table};
ghost use Rattle.filed_writing.specs.{Layout.{IsLaidOut, ListsChanges}, declared.revision.Revision.Revision};
ghost use Rattle.filed_writing.specs.Blocks.{AreRightChanges, IsRightBlock, PropertiesFit};
ghost use Rattle.filed_laws.specs.{Earlier.AreEarlierLines, Fitting.RevisionFits, Right.IsRightRevision};

/// Shows that the changes that the lines of a file say are those of the revision.
pub fn changes_are_read()
    ensures { (r : Revision) (written : List FileId) (changes : List FileChange) (list : ChangeMap)
        → AreRightChanges r.changes.now → ListsChanges r written changes
        → entries list ≡ r.changes.now → changes_by changes ≡ Some (entries list) }
{}

/// Shows that properties that fit are read again.
pub fn properties_are_read()
    ensures { (list : PropertyList) → PropertiesFit list
        → length (properties_bytes list) < 2 ^ 64
        → properties_of (properties_bytes list) ≡ Ok list }
{}

/// Shows that a dump is that of no other pairs.
pub fn dumps_say_what_they_are_of()
    ensures { (pairs others : List DumpPair) → dump pairs ≡ dump others → pairs ≡ others }
{}

/// Shows that by the rules of next blocks the path of each node is right, and no deeper than it
/// may be.
pub fn paths_of_blocks_are_right()
    ensures { (past : Nodes) (block : Block) (changes : List Changed)
        → IsNextRevision (past_of past) block changes → (k : ℕ) (node : NodeRev)
        → slice_get block.nodes.items k ≡ Some node → IsRightPath node.path }
{}

/// Shows that what is read of a file that was laid out is the block of nodes: behind files that say
/// the revisions before, as their tables place them, it says the next one, as its own table places it.
pub fn what_is_laid_out_is_tabled()
    ensures { (r : Revision) (ids : Option NextIds) (file : List ℕ) (after : Option NextIds)
        (table : Table) (files : RevisionBytes) (blocks : List Block) (block : Block)
        (lists : List ChangeMap) (list : ChangeMap) → IsRightRevision r
        → AreEarlierLines r.tables.now → RevisionFits r ids → IsRightBlock r
        → (laid : IsLaidOut r ids file after) → length file < 2 ^ 64
        → HasRows (map file_piece (reverse laid.pieces)) table
        → AreTabled files blocks r.tables.now lists
        → blocks_of r.nodes.now ≡ blocks ++ block ∷ [] → entries list ≡ r.changes.now
        → AreTabled (files ++ file ∷ []) (blocks ++ block ∷ []) (r.tables.now ++ table ∷ [])
        (lists ++ list ∷ []) }
{}

/// Shows that a file that was laid out can be read behind those of the revisions before: what its
/// node revisions name is there, and came with them or is kept from the node revisions before.
pub fn what_is_laid_out_can_be_read()
    ensures { (r : Revision) (ids : Option NextIds) (file : List ℕ) (after : Option NextIds)
        (files : RevisionBytes) (blocks : List Block) (block : Block) (lists : List ChangeMap)
        (list : ChangeMap) (table : Table) → IsRightRevision r → AreEarlierLines r.tables.now
        → RevisionFits r ids → IsRightBlock r → (laid : IsLaidOut r ids file after)
        → length file < 2 ^ 64 → HasRows (map file_piece (reverse laid.pieces)) table
        → AreTabled files blocks r.tables.now lists
        → blocks_of r.nodes.now ≡ blocks ++ block ∷ [] → entries list ≡ r.changes.now
        → IsReadableFile (files ++ file ∷ []) r.tables.now
        (map file_piece (reverse laid.pieces)) laid.changes }
{}

/// Shows that the block of revision 0 of a new repository is right.
pub fn the_block_of_revision_0_is_right()
    ensures { (r : Revision) → AreOpening (blocks_of r.nodes.now) → r.number ≡ 0
        → r.changes.now ≡ [] → IsRightBlock r }
{}

//! Laws of the files that the writer lays out: each is read again as what was laid out. The functions do nothing: their
//! contracts are the laws.
ghost use Rattle.std.specs.Prelude.{◌≡◌, ◌<◌, ◌^◌, ◌-◌, ◌∷◌, ◌++◌, [], IfSome, List, Ok, Option, Some, ℕ, length, map, reverse, slice_get};
ghost use Rattle.fsfs_nodes.specs.{declared.current.NextIds.NextIds, declared.change.FileChange.FileChange};
ghost use Rattle.fsfs_text.specs.declared.id.FileId.{FileId};
ghost use Rattle.fsfs.specs.{Files.{ArePlaced, ChangesFit, Piece, PiecesFit, pieces_bytes}, Pieces.revision_of, declared.piece.FilePiece.FilePiece};
ghost use Rattle.fsfs.specs.{Whole.file_piece, Reached.{AreReached, KeepOthers}};
ghost use Rattle.noderevs.specs.{Held.blocks_of, OpeningBlocks.AreOpening, declared.node_rev.Block.Block};
ghost use Rattle.repo_api.specs.States.{ChangeMap};
ghost use Rattle.filed_trees.specs.{Pieces.RevisionBytes, Readable.IsReadableFile, Tables.{AreTabled, HasRows}, declared.table.Table.Table};
ghost use Rattle.filed_writing.specs.{Layout.{IsLaidOut, ListsChanges, pieces_here}, Pieces.ids_of, declared.revision.Revision.Revision};
ghost use Rattle.filed_laws.specs.{Earlier.AreEarlierLines, Fitting.{AreNamedChanges, NextFit, RevisionFits, TablesFit}, Right.IsRightRevision};

/// Shows that each node revision that is laid out is where its id and its lines say.
pub fn node_revisions_are_where_they_say()
    ensures { (r : Revision) (ids : Option NextIds) (pieces : List Piece)
        → pieces_here r ids ≡ Some pieces → ArePlaced r.number 0 pieces }
{}

/// Shows that where nothing new comes with a node revision, its lines name earlier revisions.
pub fn kept_lines_name_earlier_revisions()
    ensures { (r : Revision) (ids : Option NextIds) (pieces : List Piece)
        → r.number ≡ length r.tables.now → AreEarlierLines r.tables.now
        → pieces_here r ids ≡ Some pieces → KeepOthers r.number pieces }
{}

/// Shows that what the lines of node revisions say can be written, and read again.
pub fn node_revisions_can_be_written()
    ensures { (r : Revision) (ids : Option NextIds) (pieces : List Piece)
        → IsRightRevision r → RevisionFits r ids → pieces_here r ids ≡ Some pieces
        → length (pieces_bytes pieces) < 2 ^ 64 → PiecesFit pieces }
{}

/// Shows that what the lines of changes say can be written, and read again.
pub fn changes_can_be_written()
    ensures { (r : Revision) (written : List FileId) (changes : List FileChange)
        → AreNamedChanges r.changes.now → ListsChanges r written changes → ChangesFit changes }
{}

/// Shows that the root, the last node revision, leads to each of the others and nowhere else.
pub fn the_root_leads_to_each()
    ensures { (r : Revision) (ids : Option NextIds) (pieces : List Piece) (root : FileId)
        → IsRightRevision r → AreEarlierLines r.tables.now → RevisionFits r ids
        → pieces_here r ids ≡ Some pieces → length (pieces_bytes pieces) < 2 ^ 64
        → slice_get (ids_of pieces) (length pieces - 1) ≡ Some root
        → AreReached r.number (λ offset. offset ≡ root.offset) (reverse pieces) }
{}

/// Shows that a file that is laid out is read again: its node revisions, by falling offsets, and its
/// changes.
pub fn what_is_laid_out_is_read_again()
    ensures { (r : Revision) (ids : Option NextIds) (file : List ℕ) (after : Option NextIds)
        → IsRightRevision r → AreEarlierLines r.tables.now → RevisionFits r ids
        → (laid : IsLaidOut r ids file after) → length file < 2 ^ 64
        → revision_of r.number file
        ≡ Ok (map file_piece (reverse laid.pieces), laid.changes) }
{}

/// Shows that the premises on tables and on the ids that come next hold of the next revision too, where
/// the next table has the rows of what is read.
pub fn what_is_laid_out_leaves_right_tables()
    ensures { (r : Revision) (ids : Option NextIds) (file : List ℕ) (after : Option NextIds)
        (table : Table) → IsRightRevision r → AreEarlierLines r.tables.now → RevisionFits r ids
        → (laid : IsLaidOut r ids file after) → length file < 2 ^ 64
        → HasRows (map file_piece (reverse laid.pieces)) table
        → AreEarlierLines (r.tables.now ++ table ∷ []) × TablesFit (r.tables.now ++ table ∷ [])
        × IfSome after NextFit }
{}

/// Shows that what tables keep of files can be written, since it was read.
pub fn what_is_tabled_can_be_written()
    ensures { (files : RevisionBytes) (blocks : List Block) (tables : List Table)
        (changes : List ChangeMap) → AreTabled files blocks tables changes → TablesFit tables }
{}

/// Shows that what is read of a further revision names revisions up to it, where what the tables of those
/// before keep does so.
pub fn what_is_read_leaves_earlier_lines()
    ensures { (files : RevisionBytes) (blocks : List Block) (tables : List Table)
        (changes : List ChangeMap) (file : List ℕ) (pieces : List FilePiece)
        (said : List FileChange) (table : Table)
        → AreTabled files blocks tables changes → AreEarlierLines tables
        → revision_of (length files) file ≡ Ok (pieces, said)
        → IsReadableFile (files ++ file ∷ []) tables pieces said → HasRows pieces table
        → AreEarlierLines (tables ++ table ∷ []) }
{}

/// Shows that revision 0 of a new repository is right: nothing is before it, and its block keeps the rules.
pub fn revision_0_is_right()
    ensures { (r : Revision) → AreOpening (blocks_of r.nodes.now) → r.number ≡ 0
        → r.tables.now ≡ [] → r.changes.now ≡ [] → IsRightRevision r }
{}

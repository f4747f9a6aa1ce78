//! Laws of the files that the writer lays out: what is read of each is judged to be right. The functions do
//! nothing: their contracts are the laws.
ghost use Rattle.std.specs.Prelude.{◌≡◌, ◌<◌, ◌^◌, [], List, Ok, Option, ℕ, length, map, reverse};
ghost use Rattle.fsfs_nodes.specs.declared.current.NextIds.{NextIds};
ghost use Rattle.fsfs.specs.{Judging.judged_revision, Whole.file_piece};
ghost use Rattle.filed_writing.specs.{Layout.IsLaidOut, declared.revision.Revision.Revision, Blocks.SourcesAreEarlier};
ghost use Rattle.filed_laws.specs.{Earlier.AreEarlierLines, Fitting.RevisionFits, Right.IsRightRevision};

/// Shows that what is read of a file that was laid out is judged to be right: it names no revision that is
/// not earlier as that of a predecessor or of a copy, and its new entries say of what kind they are.
pub fn what_is_laid_out_is_judged_right()
    ensures { (r : Revision) (ids : Option NextIds) (file : List ℕ) (after : Option NextIds)
        → IsRightRevision r → AreEarlierLines r.tables.now → RevisionFits r ids
        → SourcesAreEarlier r → (laid : IsLaidOut r ids file after) → length file < 2 ^ 64
        → judged_revision r.number (map file_piece (reverse laid.pieces)) laid.changes ≡ Ok tt }
{}

/// Shows that the sources of copies are earlier where there are no changes, as in revision 0.
pub fn a_revision_without_changes_copies_nothing()
    ensures { (r : Revision) → r.changes.now ≡ [] → SourcesAreEarlier r }
{}

//! Laws of revision files: what was written is read again.
ghost use Rattle.std.specs.Prelude.{◌≡◌, ◌<◌, ◌^◌, ℕ, List, Ok, length, map, reverse};
ghost use Rattle.fsfs_text.specs.Dumps.{dump};
ghost use Rattle.fsfs_nodes.specs.{declared.entries.DirectoryEntry.DirectoryEntry, Entries.{entry_pairs, entries_of}, declared.change.FileChange.FileChange};
ghost use Rattle.fsfs.specs.{Files.{Piece, file_bytes, ArePlaced, PiecesFit, ChangesFit}, Pieces.revision_of, Whole.{file_piece, EntriesFit}};
ghost use Rattle.fsfs.specs.Reached.{AreReached, KeepOthers};

/// Shows that a file that was written is read again: its node revisions, each where its id and its
/// lines say, by falling offsets, and its changes. The root leads to each of them and nowhere else.
pub fn a_file_is_read_again()
    ensures { (revision root : ℕ) (pieces : List Piece) (changes : List FileChange)
        → ArePlaced revision 0 pieces → PiecesFit pieces → KeepOthers revision pieces
        → AreReached revision (λ offset. offset ≡ root) (reverse pieces) → ChangesFit changes
        → length (file_bytes pieces changes root) < 2 ^ 64
        → revision_of revision (file_bytes pieces changes root)
        ≡ Ok (map file_piece (reverse pieces), changes) }
{}

/// Shows that the entries of a directory that were written are read again.
pub fn a_directory_is_read_again()
    ensures { (entries : List DirectoryEntry) → EntriesFit entries
        → length (dump (entry_pairs entries)) < 2 ^ 64
        → entries_of (dump (entry_pairs entries)) ≡ Ok entries }
{}

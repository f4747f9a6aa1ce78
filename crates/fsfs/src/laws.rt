//! What was written is found again.
ghost use Rattle.std.specs.Prelude.{◌≡◌, ◌<◌, ◌^◌, ◌++◌, ℕ, List, Ok};
ghost use Rattle.fsfs_nodes.specs.{Changes.{changes_bytes, changes_of}, Trailers.{trailer_bytes, trailer_of}, declared.change.FileChange.FileChange};
ghost use Rattle.fsfs_nodes.specs.declared.trailer.Trailer.{Trailer};
ghost use Rattle.fsfs.specs.Files.{Piece, pieces_bytes, ArePlaced, AreFound, PiecesFit, ChangesFit};

/// Shows that in a file that begins with node revisions, each where its id and its lines say, each
/// is read at its id's offset, and so is each representation that it brings, whatever stands behind.
pub fn node_revisions_are_found()
    ensures { (revision : ℕ) (pieces : List Piece) (rest : List ℕ) → ArePlaced revision 0 pieces
        → PiecesFit pieces → AreFound revision (pieces_bytes pieces ++ rest) pieces }
{}

/// Shows that changes that were written are read again.
pub fn a_change_is_read_again()
    ensures { (changes : List FileChange) → ChangesFit changes
        → changes_of (changes_bytes changes) ≡ Ok changes }
{}

/// Shows that a last line that was written is read again, and what stands before it.
pub fn a_last_line_is_read_again()
    ensures { (front : List ℕ) (trailer : Trailer) → trailer.root < 2 ^ 64
        → trailer.changes < 2 ^ 64 → trailer_of (front ++ trailer_bytes trailer) ≡ Ok (front, trailer) }
{}

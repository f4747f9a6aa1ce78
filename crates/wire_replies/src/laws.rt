//! What holds of replies. The functions do nothing: their contracts are the laws.
ghost use Rattle.std.specs.{Prelude.{◌≡◌, ◌<◌, ◌≤◌, ℕ, List, length}, List.{All, concat}};
ghost use Rattle.wire_replies.specs.{Pieces.pieces, declared.contents.TheConstants.PIECE};

/// Shows that the pieces of a text, one after another, are the text. None is empty, so that the empty string after them
/// is the only one.
pub fn pieces_make_the_text()
    ensures whole { (text : List ℕ) → concat (pieces text) ≡ text }
    ensures sizes { (text : List ℕ) → All (λ piece. (0 < length piece) × (length piece ≤ PIECE))
        (pieces text) }
{}

//! The text of a file, in pieces.
ghost use Rattle.std.specs.Prelude.{◌≡◌, ◌∷◌, [], IfOk, drop, take};
ghost use Rattle.wire_replies.specs.{Pieces.piece_from, Replies.contents, Sinks.Says};

use crate::reply::Reply;
use crate::sink::ReplySink;
use repo_api::FileText;
use std::alloc::{AllocError, Global};
use std::marker::Model;
use std::mem::drop;

/// How many bytes of a text are sent in one string, if as many are left.
pub const PIECE: usize = 65_536;

/// A piece of a text, whose bytes are shared with it.
#[derive(Drop)]
pub struct TextPiece {
    text: FileText,
    start: usize,
}

impl Model for TextPiece {
    ghost use Rattle.std.specs.Prelude.{ℕ, List};
    ghost use Rattle.wire_replies.specs.Pieces.{piece_from};

    ghost Value = { List ℕ };

    ghost view = { λ p. piece_from p.text p.start };
}

impl TextPiece {
    /// Makes the piece that begins at this place of the text.
    pub fn from_text(text: &FileText, start: usize) -> Result<TextPiece, AllocError>
        ensures { IfOk result (λ piece. piece ≡ piece_from text.now start) }
    {
        let text = text.clone()?;
        Ok(TextPiece { text, start })
    }

    /// Makes a piece without bytes, which ends a text.
    pub fn last() -> TextPiece
        ensures { result ≡ [] }
    {
        TextPiece {
            text: FileText::empty(),
            start: 0,
        }
    }

    /// Gives the bytes of the piece.
    pub fn as_slice(&self) -> &[u8]
        ensures { result.now ≡ self.now }
    {
        at_most(PIECE, from_place(self.text.as_slice(), self.start))
    }
}

/// Gives the bytes from a place on.
fn from_place(bytes: &[u8], start: usize) -> &[u8]
    ensures { result.now ≡ drop start bytes.now }
{
    if start < bytes.len() {
        &bytes[start..]
    } else {
        &[]
    }
}

/// Gives so many bytes from the front, or all where there are fewer.
fn at_most(count: usize, bytes: &[u8]) -> &[u8]
    ensures { result.now ≡ take count bytes.now }
{
    if count < bytes.len() {
        &bytes[..count]
    } else {
        bytes
    }
}

/// Writes a text whose bytes are in memory: its pieces, and an empty string after them.
pub fn say_held<S: ReplySink>(text: &FileText, out: &mut S) -> Result<(), AllocError>
    ensures { Says result (S.writes out.old out.new) (contents text.now) }
{
    let count = text.as_slice().len().div_ceil(PIECE);
    for n in 0..count {
        say_piece(text, n * PIECE, out)?;
    }
    say_last(out)
}

/// Writes the piece that begins at this place of the text.
fn say_piece<S: ReplySink>(text: &FileText, start: usize, out: &mut S) -> Result<(), AllocError>
    ensures { Says result (S.writes out.old out.new)
        (Reply.Piece (piece_from text.now start) ∷ []) }
{
    let reply = Reply::Piece(TextPiece::from_text(text, start)?);
    let said = out.say(&reply);
    drop(reply);
    said
}

/// Writes the piece that ends a text.
fn say_last<S: ReplySink>(out: &mut S) -> Result<(), AllocError>
    ensures { Says result (S.writes out.old out.new) (Reply.Piece [] ∷ []) }
{
    let reply = Reply::Piece(TextPiece::last());
    let said = out.say(&reply);
    drop(reply);
    said
}

/// Writes a text, which is read whole before: its pieces, and an empty string after them.
pub fn say_contents<S: ReplySink>(
    alloc: Global,
    text: &FileText,
    out: &mut S,
) -> Result<(), AllocError>
    ensures { Says result (S.writes out.old out.new) (contents text.now) }
{
    let loaded = out.load(alloc, text)?;
    let said = say_held(&loaded, out);
    drop(loaded);
    said
}

//! A whole revision, judged.
ghost use Rattle.std.specs.Prelude.{◌≡◌};
ghost use Rattle.fsfs_text.specs.Reading.{Answers, Gives};
ghost use Rattle.fsfs.specs.Pieces.{entries_in};
ghost use Rattle.fsfs.specs.Judging.{is_earlier_id, is_earlier_place, judged_node, judged_piece, judged_pieces, judged_read, judged_changes, judged_revision};

use crate::dumps::KnownDumps;
use crate::judged_entries::{judge_entries, kinds_of};
use crate::piece::{FilePiece, entries_in};
use crate::revision::RevisionFile;
use fsfs_nodes::{EntryKind, FileChange, FileNode};
use fsfs_text::{FileFault, FileId, Place};
use std::collections::BTreeMap;

/// Says whether an id is of an earlier revision, if there is one.
fn is_earlier_id(revision: u32, id: Option<FileId>) -> bool
    ensures { result ≡ is_earlier_id revision id }
{
    match id {
        None => true,
        Some(id) => id.revision < revision,
    }
}

/// Says whether a place is in an earlier revision, if there is one.
fn is_earlier_place(revision: u32, place: &Option<Place>) -> bool
    ensures { result ≡ is_earlier_place revision place.now }
{
    match place {
        None => true,
        Some(place) => place.revision < revision,
    }
}

/// Judges the predecessor and the copy source that a node revision names.
fn judge_node(revision: u32, node: &FileNode) -> Result<(), FileFault>
    ensures { Gives (λ judged. judged) result (judged_node revision node.now) }
{
    if !is_earlier_id(revision, node.predecessor) {
        return Err(FileFault::Dangling);
    }
    if !is_earlier_place(revision, &node.copyfrom) {
        return Err(FileFault::BadLine);
    }
    Ok(())
}

/// Judges the new entries that come with a node revision.
fn judge_new_entries(
    known: &KnownDumps,
    revision: u32,
    kinds: &BTreeMap<u64, EntryKind>,
    piece: &FilePiece,
) -> Result<(), FileFault>
    ensures { Answers (λ judged. judged) result
        (judged_read revision kinds.now.entries (entries_in piece.now)) }
{
    if let Some(entries) = known.entries_in(piece) {
        return judge_entries(revision, kinds, entries);
    }
    let entries = entries_in(known.alloc(), piece)?;
    judge_entries(revision, kinds, entries.as_slice())
}

/// Judges a node revision and the new entries that come with it.
#[tactic(auto, unfolding(crate::specs::Judging::judged_piece))]
fn judge_piece(
    known: &KnownDumps,
    revision: u32,
    kinds: &BTreeMap<u64, EntryKind>,
    piece: &FilePiece,
) -> Result<(), FileFault>
    ensures { Answers (λ judged. judged) result
        (judged_piece revision kinds.now.entries piece.now) }
{
    judge_node(revision, &piece.node)?;
    judge_new_entries(known, revision, kinds, piece)
}

/// Judges node revisions, in their order.
fn judge_pieces(
    known: &KnownDumps,
    revision: u32,
    kinds: &BTreeMap<u64, EntryKind>,
    pieces: &[FilePiece],
) -> Result<(), FileFault>
    ensures { Answers (λ judged. judged) result
        (judged_pieces revision kinds.now.entries pieces.now) }
{
    for piece in pieces {
        judge_piece(known, revision, kinds, piece)?;
    }
    Ok(())
}

/// Judges the copy sources of changes.
fn judge_changes(revision: u32, changes: &[FileChange]) -> Result<(), FileFault>
    ensures { Gives (λ judged. judged) result (judged_changes revision changes.now) }
{
    for change in changes {
        if !is_earlier_place(revision, &change.source) {
            return Err(FileFault::BadLine);
        }
    }
    Ok(())
}

/// Judges what the file of a revision says of other revisions, and of what kinds its entries are, by what is known of
/// directories.
///
/// # Errors
///
/// `Dangling` where a predecessor is not of an earlier revision; `BadLine` where a copy source is not,
/// or where an entry says another kind than the node revision of this file that it names; `NoMemory`.
#[tactic(auto, unfolding(crate::specs::Judging::judged_revision))]
pub fn judge_revision(
    known: &KnownDumps,
    revision: u32,
    file: &RevisionFile,
) -> Result<(), FileFault>
    ensures { Answers (λ judged. judged) result
        (judged_revision revision file.now.pieces.items file.now.changes.items) }
{
    let kinds = kinds_of(known.alloc(), file.pieces.as_slice())?;
    judge_pieces(known, revision, &kinds, file.pieces.as_slice())?;
    judge_changes(revision, file.changes.as_slice())
}

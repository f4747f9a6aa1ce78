//! The kinds that entries say, judged by the node revisions of the same file.
ghost use Rattle.std.specs.Prelude.{◌≡◌, IfOk, option_copied};
ghost use Rattle.fsfs_text.specs.Reading.{Gives};
ghost use Rattle.fsfs.specs.Judging.{kinds_of, is_kind, is_right, judged_entries};

use crate::piece::FilePiece;
use fsfs_nodes::{DirectoryEntry, EntryKind};
use fsfs_text::FileFault;
use std::alloc::{AllocError, Global};
use std::collections::BTreeMap;

/// Gives the kinds of node revisions by their offsets.
pub(crate) fn kinds_of(
    alloc: Global,
    pieces: &[FilePiece],
) -> Result<BTreeMap<u64, EntryKind>, AllocError>
    ensures { IfOk result (λ kinds. kinds.entries ≡ kinds_of pieces.now) }
{
    let mut kinds = BTreeMap::new(alloc);
    for piece in pieces {
        kinds.insert(piece.node.id.offset, piece.node.kind)?;
    }
    Ok(kinds)
}

/// Says whether a node revision that was found is of a kind.
fn is_kind(kind: EntryKind, found: Option<&EntryKind>) -> bool
    ensures { result ≡ is_kind kind (option_copied found.entry) }
{
    match (kind, found) {
        (EntryKind::File, Some(EntryKind::File)) => true,
        (EntryKind::Directory, Some(EntryKind::Directory)) => true,
        _ => false,
    }
}

/// Says whether an entry is of the kind that it says, where it names a node revision of this file.
fn is_right(revision: u32, kinds: &BTreeMap<u64, EntryKind>, entry: &DirectoryEntry) -> bool
    ensures { result ≡ is_right revision kinds.now.entries entry.now }
{
    if entry.id.revision != revision {
        return true;
    }
    is_kind(entry.kind, kinds.get(&entry.id.offset))
}

/// Judges the entries of a directory.
pub(crate) fn judge_entries(
    revision: u32,
    kinds: &BTreeMap<u64, EntryKind>,
    entries: &[DirectoryEntry],
) -> Result<(), FileFault>
    ensures { Gives (λ judged. judged) result
        (judged_entries revision kinds.now.entries entries.now) }
{
    for entry in entries {
        if !is_right(revision, kinds, entry) {
            return Err(FileFault::BadLine);
        }
    }
    Ok(())
}

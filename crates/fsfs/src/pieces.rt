//! The node revisions that a root leads to.
ghost use Rattle.std.specs.Prelude.{◌≡◌, ◌≤◌, MatchResult, Ok, Err, length};
ghost use Rattle.fsfs_text.specs.Reading.{Answers};
ghost use Rattle.fsfs.specs.Pieces.{entries_in, is_before, marked, marked_by, step_of, pieces_below, pieces_of};

use crate::dumps::KnownDumps;
use crate::piece::{FilePiece, entries_in, read_piece};
use fsfs_nodes::DirectoryEntry;
use fsfs_text::{FileFault, FileId};

/// Says whether an id lies before an offset of a revision's file.
fn is_before(revision: u32, offset: u64, id: FileId) -> bool
    ensures { result ≡ is_before revision offset id }
{
    id.revision < revision || id.revision == revision && id.offset < offset
}

/// Marks the node revisions of this revision that entries name. Each entry has to lie before the
/// directory, which stands at this offset.
fn mark(
    revision: u32,
    offset: u64,
    entries: &[DirectoryEntry],
    wanted: &mut [bool],
) -> Result<(), FileFault>
    requires { offset ≤ length wanted.old }
    ensures { MatchResult result
        (λ _. marked revision offset entries.now wanted.old ≡ Ok wanted.new)
        (λ fault. marked revision offset entries.now wanted.old ≡ Err fault) }
{
    for entry in entries {
        let id = entry.id;
        if !is_before(revision, offset, id) {
            return Err(FileFault::Dangling);
        }
        if id.revision == revision {
            wanted[id.offset as usize] = true;
        }
    }
    Ok(())
}

/// Marks the node revisions of this revision that the new entries of a directory name.
fn mark_entries(
    known: &KnownDumps,
    revision: u32,
    offset: u64,
    piece: &FilePiece,
    wanted: &mut [bool],
) -> Result<(), FileFault>
    requires { offset ≤ length wanted.old }
    ensures { Answers (λ _. wanted.new) result
        (marked_by revision offset wanted.old (entries_in piece.now)) }
{
    if let Some(entries) = known.entries_in(piece) {
        return mark(revision, offset, entries, wanted);
    }
    let entries = entries_in(known.alloc(), piece)?;
    mark(revision, offset, entries.as_slice(), wanted)
}

/// Reads the node revision at an offset, and marks what its entries name. The entries of a directory are known from then on.
#[tactic(auto, unfolding(crate::specs::Pieces::step_of))]
fn take_piece(
    known: &mut KnownDumps,
    revision: u32,
    bytes: &[u8],
    offset: u64,
    wanted: &mut [bool],
) -> Result<FilePiece, FileFault>
    requires { offset ≤ length wanted.old }
    ensures { Answers (λ piece. (piece, wanted.new)) result
        (step_of revision bytes.now offset wanted.old) }
{
    let piece = read_piece(known.alloc(), revision, bytes, offset)?;
    known.note(&piece)?;
    mark_entries(known, revision, offset, &piece, wanted)?;
    Ok(piece)
}

/// Reads the wanted node revisions, by falling offsets.
fn read_wanted(
    known: &mut KnownDumps,
    revision: u32,
    bytes: &[u8],
    wanted: &mut [bool],
) -> Result<Vec<FilePiece>, FileFault>
    ensures { Answers (λ v. v.items) result
        (pieces_below revision bytes.now (length wanted.old) wanted.old) }
{
    let mut pieces = Vec::new(known.alloc());
    let mut end = wanted.len();
    while end > 0 {
        end -= 1;
        if wanted[end] {
            let piece = take_piece(known, revision, bytes, end as u64, wanted)?;
            pieces.push(piece)?;
        }
    }
    Ok(pieces)
}

/// Reads the node revisions of a revision that the one at the offset `root` leads to, the root
/// first and then by falling offsets.
///
/// # Errors
///
/// `Dangling` where an id names nothing, or what doesn't lie before its directory; else as
/// `read_piece`.
#[tactic(auto, unfolding(crate::specs::Pieces::pieces_of))]
pub fn read_pieces(
    known: &mut KnownDumps,
    revision: u32,
    bytes: &[u8],
    root: u64,
) -> Result<Vec<FilePiece>, FileFault>
    ensures { Answers (λ v. v.items) result (pieces_of revision bytes.now root) }
{
    let root = root as usize;
    if root >= bytes.len() {
        return Err(FileFault::Dangling);
    }
    let mut table = vec![in known.alloc(); false; root + 1]?;
    table[root] = true;
    read_wanted(known, revision, bytes, table.as_mut_slice())
}

//! A whole revision.
ghost use Rattle.std.specs.Prelude.{◌≡◌};
ghost use Rattle.fsfs_text.specs.Reading.{Answers, Gives};
ghost use Rattle.fsfs.specs.Pieces.{part_behind, revision_of};

use crate::dumps::KnownDumps;
use crate::piece::FilePiece;
use crate::pieces::read_pieces;
use fsfs_nodes::{FileChange, read_changes, read_trailer};
use fsfs_text::FileFault;
use std::alloc::Global;

/// Holds what a revision file says: the node revisions that its root leads to, the root first and
/// then by falling offsets, and the changed paths.
#[derive(Drop)]
pub struct RevisionFile {
    pub pieces: Vec<FilePiece>,
    pub changes: Vec<FileChange>,
}

/// Gives the bytes from an offset on.
fn part_behind(bytes: &[u8], offset: u64) -> Result<&[u8], FileFault>
    ensures { Gives (λ part. part.now) result (part_behind offset bytes.now) }
{
    let offset = offset as usize;
    if bytes.len() < offset {
        return Err(FileFault::BadLine);
    }
    Ok(&bytes[offset..])
}

/// Reads the revision that the bytes of a revision file stand for, by what is known of directories.
///
/// # Errors
///
/// As `read_revision`.
#[tactic(auto, unfolding(crate::specs::Pieces::revision_of))]
pub fn read_known_revision(
    known: &mut KnownDumps,
    revision: u32,
    bytes: &[u8],
) -> Result<RevisionFile, FileFault>
    ensures { Answers (λ file. (file.pieces.items, file.changes.items)) result
        (revision_of revision bytes.now) }
{
    let (body, trailer) = read_trailer(bytes)?;
    let pieces = read_pieces(known, revision, bytes, trailer.root)?;
    let changes = read_changes(known.alloc(), part_behind(body, trailer.changes)?)?;
    Ok(RevisionFile { pieces, changes })
}

/// Reads the revision that the bytes of a revision file stand for.
///
/// # Errors
///
/// The first fault: that of the last line, then of the node revisions from the root down by falling
/// offsets, then of the changes; or `NoMemory`.
pub fn read_revision(alloc: Global, revision: u32, bytes: &[u8]) -> Result<RevisionFile, FileFault>
    ensures { Answers (λ file. (file.pieces.items, file.changes.items)) result
        (revision_of revision bytes.now) }
{
    let mut known = KnownDumps::new(alloc);
    read_known_revision(&mut known, revision, bytes)
}

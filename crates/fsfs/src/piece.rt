//! A node revision, with what comes with it.
ghost use Rattle.std.specs.Prelude.{◌≡◌};
ghost use Rattle.fsfs_text.specs.Reading.{Answers};
ghost use Rattle.fsfs.specs.Pieces.{new_body, piece_at, entries_in};

use fsfs_nodes::{DirectoryEntry, EntryKind, FileNode, read_body, read_entries, read_node};
use fsfs_text::{FileFault, Representation};
use repo_api::FileText;
use std::alloc::Global;

/// Holds a node revision, and the new text (or entries) and the new properties that come with it.
#[derive(Debug, Drop)]
pub struct FilePiece {
    pub text: Option<FileText>,
    pub properties: Option<FileText>,
    pub node: FileNode,
}

/// Reads the representation that a line names, where it is in the file of this revision.
fn read_new(
    alloc: Global,
    revision: u32,
    bytes: &[u8],
    line: Option<Representation>,
) -> Result<Option<FileText>, FileFault>
    ensures { Answers (λ body. body) result (new_body revision bytes.now line) }
{
    let Some(representation) = line else {
        return Ok(None);
    };
    if representation.revision != revision {
        return Ok(None);
    }
    Ok(Some(read_body(alloc, bytes, &representation)?))
}

/// Reads the node revision at an offset of a revision's file, and what comes with it.
///
/// # Errors
///
/// As `read_node` and `read_body`.
#[tactic(auto, unfolding(crate::specs::Pieces::piece_at))]
pub fn read_piece(
    alloc: Global,
    revision: u32,
    bytes: &[u8],
    offset: u64,
) -> Result<FilePiece, FileFault>
    ensures { Answers (λ piece. piece) result (piece_at revision bytes.now offset) }
{
    let node = read_node(alloc, revision, bytes, offset)?;
    let text = read_new(alloc, revision, bytes, node.text)?;
    let properties = read_new(alloc, revision, bytes, node.properties)?;
    Ok(FilePiece {
        text,
        properties,
        node,
    })
}

/// Reads the new entries that come with a directory: none with a file or where they are kept.
pub fn entries_in(alloc: Global, piece: &FilePiece) -> Result<Vec<DirectoryEntry>, FileFault>
    ensures { Answers (λ v. v.items) result (entries_in piece.now) }
{
    match piece.node.kind {
        EntryKind::File => Ok(Vec::new(alloc)),
        EntryKind::Directory => match &piece.text {
            None => Ok(Vec::new(alloc)),
            Some(body) => read_entries(alloc, body.as_slice()),
        },
    }
}

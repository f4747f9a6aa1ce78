//! Writing a revision file.
ghost use Rattle.std.specs.Prelude.{◌≡◌, ◌++◌, length, IfOk, option_copied};
ghost use Rattle.fsfs_nodes.specs.{Changes.changes_bytes, Trailers.trailer_bytes};
ghost use Rattle.fsfs.specs.Files.{brought, named_line, placed_node, piece_bytes};

use fsfs_nodes::{
    FileChange, FileNode, Trailer, append_body, append_changes, append_node, append_trailer,
};
use fsfs_text::Representation;
use repo_api::FileText;
use std::alloc::AllocError;

/// Appends a new representation, if there is one, and gives the line: its own, or the one that is
/// kept.
fn write_body(
    out: &mut Vec<u8>,
    revision: u32,
    body: Option<&FileText>,
    kept: Option<Representation>,
) -> Result<Option<Representation>, AllocError>
    ensures { IfOk result (λ line.
        (line ≡ named_line revision (length out.old.items) (option_copied body.entry) kept)
        × (out.new.items ≡ out.old.items ++ brought (option_copied body.entry))) }
{
    match body {
        None => Ok(kept),
        Some(body) => Ok(Some(append_body(out, revision, body)?)),
    }
}

/// Appends the new text (or entries) and the new properties of a node revision, if it has such, and
/// then its lines, and gives it with its place in the file. The draft says all but these places:
/// its lines for the text and the properties are those that are kept where nothing new comes.
pub fn write_node(
    out: &mut Vec<u8>,
    text: Option<&FileText>,
    properties: Option<&FileText>,
    draft: FileNode,
) -> Result<FileNode, AllocError>
    ensures { IfOk result (λ node.
        (node ≡ placed_node (length out.old.items) (option_copied text.entry)
        (option_copied properties.entry) draft)
        × (out.new.items ≡ out.old.items ++ piece_bytes (record {
          text = option_copied text.entry;
          properties = option_copied properties.entry;
          node = node;
        }))) }
{
    let mut node = draft;
    node.text = write_body(out, node.id.revision, text, node.text)?;
    node.properties = write_body(out, node.id.revision, properties, node.properties)?;
    node.id.offset = out.len() as u64;
    append_node(out, &node)?;
    Ok(node)
}

/// Appends the changes and the last line, which ends the file.
pub fn finish_file(out: &mut Vec<u8>, root: u64, changes: &[FileChange]) -> Result<(), AllocError>
    ensures { IfOk result (λ _. out.new.items ≡ out.old.items ++ changes_bytes changes.now
        ++ trailer_bytes (record { root = root; changes = length out.old.items })) }
{
    let place = out.len() as u64;
    append_changes(out, changes)?;
    append_trailer(
        out,
        Trailer {
            root,
            changes: place,
        },
    )
}

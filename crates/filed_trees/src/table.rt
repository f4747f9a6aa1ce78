//! Where node revisions stand in files.
ghost use Rattle.std.specs.{Prelude.{◌≡◌, Decides, IfOk, map}, Arc.arc_value};
ghost use Rattle.filed_trees.specs.Tables.{placed_of};

use crate::placed::Placed;
use byte_string::ByteString;
use fsfs::FilePiece;
use fsfs_nodes::FileNode;
use fsfs_text::{FileId, Place};
use pvec::PVec;
use std::alloc::{AllocError, Global};
use std::sync::Arc;

/// Says where the node revisions of a revision stand, by their places in its block.
pub struct Table {
    pub placed: Vec<Placed>,
}

impl Drop for Table {
    fn drop(self) {
        let Table { placed: _ } = self;
    }
}

/// Says whether a place is in this revision, at this path.
fn is_place(place: &Place, revision: u32, path: &ByteString) -> bool
    ensures { Decides result (place.now ≡ record { revision = revision; path = path.now }) }
{
    place.revision == revision && place.path == *path
}

/// Gives the root of the copy that a node revision is of. It is shared with another node revision that has the same.
fn copyroot_of(
    alloc: Global,
    node: &FileNode,
    other: Option<&Placed>,
) -> Result<Arc<Place>, AllocError>
    ensures { IfOk result (λ root. arc_value root ≡ (placed_of node.now).copyroot) }
{
    let (revision, path) = match &node.copyroot {
        Some(place) => (place.revision, &place.path),
        None => (node.id.revision, &node.path),
    };
    match other {
        Some(other) if is_place(other.copyroot(), revision, path) => {
            Arc::try_clone(other.copyroot())
        }
        _ => {
            let path = path.clone()?;
            Ok(Arc::new(alloc, Place { revision, path })?)
        }
    }
}

/// Gives what a table keeps of a node revision. The root of its copy is shared with another node revision's, if that is
/// the same.
pub fn place(alloc: Global, node: &FileNode, other: Option<&Placed>) -> Result<Placed, AllocError>
    ensures { IfOk result (λ placed. placed ≡ placed_of node.now) }
{
    let copyroot = copyroot_of(alloc, node, other)?;
    Placed::new(
        alloc,
        node.id,
        node.count,
        node.text,
        node.properties,
        copyroot,
    )
}

/// Gives the table of node revisions. The tables are those of the revisions before.
pub(crate) fn table_of(
    alloc: Global,
    tables: &PVec<Table>,
    pieces: &[&FilePiece],
) -> Result<Table, AllocError>
    ensures { IfOk result (λ table. table.placed.items
        ≡ map (λ p. placed_of p.now.node) pieces.now) }
{
    let mut placed = Vec::with_capacity(alloc, pieces.len())?;
    for piece in pieces {
        let made = {
            let before: &Vec<Placed> = &placed;
            let other = match before.last() {
                Some(last) => Some(last),
                None => placed_before(tables, piece.node.predecessor),
            };
            place(alloc, &piece.node, other)?
        };
        placed.push(made)?;
    }
    Ok(Table { placed })
}

/// Finds what is kept of the last node revision of the revision of a predecessor. Nothing that a clause says depends on it.
fn placed_before(tables: &PVec<Table>, predecessor: Option<FileId>) -> Option<&Placed> {
    tables.get(predecessor?.revision as usize)?.placed.last()
}

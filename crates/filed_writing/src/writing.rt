//! Writing the file of a revision.
ghost use Rattle.std.specs.{Prelude.{◌≡◌, IfOk, length, map, reverse}, List.Sorted.IsStrictlySortedBy, Map.keys_of};
ghost use Rattle.filed_writing.specs.{Drafts.{comes_of, copy_from}, Layout.AreWritten, Writing.IsWritten};
ghost use Rattle.filed_trees.specs.Tables.{placed_of};
ghost use Rattle.svnpath.specs.Paths.{path_cmp};

use crate::copies::{CopyRoot, Origin, Predecessor};
use crate::counter::Counter;
use crate::node::Draft;
use crate::revision::Revision;
use filed_trees::{Placed, Table, place};
use fsfs::finish_file;
use fsfs_nodes::{FileNode, NextIds};
use fsfs_text::FileId;
use noderevs::Nodes;
use pvec::PVec;
use repo_api::Change;
use std::alloc::{AllocError, Global};
use svnpath::Path;

/// Holds a revision's file, its table, and the ids that come next after it, where these are counted over all revisions.
#[derive(Drop)]
pub struct Written {
    pub file: Vec<u8>,
    pub table: Table,
    pub ids: Option<NextIds>,
}

/// Finds a node revision whose copy may have the same root: the last one of this revision, or what comes before.
/// Nothing that a clause says depends on it.
fn other<'a>(placed: &'a [Placed], predecessor: Option<Predecessor<'a>>) -> Option<&'a Placed> {
    match placed.last() {
        Some(last) => Some(last),
        None => Some(predecessor?.placed),
    }
}

/// Keeps of a node revision what a table does.
fn kept(alloc: Global, node: FileNode, other: Option<&Placed>) -> Result<Placed, AllocError>
    ensures { IfOk result (λ placed. placed ≡ placed_of node) }
{
    place(alloc, &node, other)
}

impl Revision<'_> {
    /// Writes the node revisions of this revision in their order, each with its origin and its copy, of
    /// which the last is that of the first node, and gives their ids and what a table keeps of them beside the bytes.
    fn write_nodes(
        self,
        alloc: Global,
        origins: &[Origin<'_>],
        roots: Vec<CopyRoot>,
    ) -> Result<(Vec<u8>, Vec<FileId>, Vec<Placed>), AllocError>
        ensures { IfOk result (λ made. AreWritten self.entry (map comes_of origins.now)
            (reverse (map copy_from roots.items)) made.0.items made.1.items made.2.items) }
    {
        let mut roots = roots;
        let mut placed = Vec::with_capacity(alloc, origins.len())?;
        let mut out = Vec::new(alloc);
        let mut written = Vec::with_capacity(alloc, origins.len())?;
        for (place, origin) in origins.iter().enumerate() {
            let (Some(node), Some(root)) = (self.node_here(place as u64), roots.pop()) else {
                return Err(AllocError);
            };
            let draft = Draft {
                node,
                origin: *origin,
                root,
            };
            let node = self.write(alloc, &mut out, written.as_slice(), draft)?;
            let id = node.id;
            let made = kept(alloc, node, other(placed.as_slice(), origin.predecessor))?;
            placed.push(made)?;
            written.push(id)?;
        }
        Ok((out, written, placed))
    }

    /// Writes the whole file, and takes the ids that it needs from those that come next.
    fn write_file(self, alloc: Global, ids: Option<NextIds>) -> Result<Written, AllocError>
        requires { IsStrictlySortedBy path_cmp (keys_of self.changes.now) }
        ensures { IfOk result (IsWritten self.entry ids) }
    {
        if !self.has_right_changes() {
            return Err(AllocError);
        }
        let mut next = Counter::new(ids, self.number);
        let origins = self.origins(alloc, &mut next)?;
        let roots = self.copy_roots(alloc, origins.as_slice())?;
        let (mut file, written, placed) = self.write_nodes(alloc, origins.as_slice(), roots)?;
        let Some(root) = written.last() else {
            return Err(AllocError);
        };
        let changes = self.file_changes(alloc, written.as_slice())?;
        finish_file(&mut file, root.offset, changes.as_slice())?;
        Ok(Written {
            file,
            table: Table { placed },
            ids: next.ids_after(ids),
        })
    }
}

/// Writes the file of the youngest revision. The tables are those of the revisions before it, and the ids are those that
/// come next before it, where they are counted over all revisions.
///
/// # Errors
///
/// `AllocError` where memory is refused, and where the nodes or the changes do not keep the rules by which what is
/// written is read again, which those of a commit do.
pub fn write_revision(
    alloc: Global,
    nodes: &Nodes,
    tables: &PVec<Table>,
    changes: &[(Path, Change)],
    ids: Option<NextIds>,
) -> Result<Written, AllocError>
    requires { IsStrictlySortedBy path_cmp (keys_of changes.now) }
    ensures { IfOk result (IsWritten (record {
      number = length tables.now;
      nodes = nodes.entry;
      tables = tables.entry;
      changes = changes.entry;
    }) ids) }
{
    let revision = Revision {
        number: tables.len() as u32,
        nodes,
        tables,
        changes,
    };
    revision.write_file(alloc, ids)
}

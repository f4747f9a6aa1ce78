//! The nodes of a revision, read from its file.
ghost use Rattle.std.specs.Prelude.{◌≡◌, ◌++◌, ◌∷◌, [], ℕ, List, Option, Some, None, Ok, All, length, map, reverse, is_some, if◌then◌else◌, IfOk};
ghost use Rattle.std.specs.{Arc.arc_value, List.Sorted.IsStrictlySortedBy, Map.keys_of};
ghost use Rattle.svnpath.specs.Paths.{path_cmp};
ghost use Rattle.repo_api.specs.States.{ChangeMap};
ghost use Rattle.repo_api.specs.declared.entry.Mark.TheVariants as marks;
ghost use Rattle.noderevs.specs.{Heights.{AreHigh, IsHeight}, Held.{blocks_of, node_at}, Nodes.{mark_of, with_block}};
ghost use Rattle.revision_data.specs.Found.{found};
ghost use Rattle.fsfs_text.specs.declared.id.FileId.{FileId};
ghost use Rattle.fsfs.specs.Pieces.{revision_of};
ghost use Rattle.filed_trees.specs.{Pieces.{RevisionBytes, properties_in}, Tables.{AreTabled, HasRows}, Trees.own_from, declared.places.Places.Places};
ghost use Rattle.filed_trees.specs.Comparing.{AreForAll, AreNew, AreOfLast, AreReadFrom, ForFiles, HasContent, HasEntries, HasText, HaveHeights, IfCame};
ghost use Rattle.filed_trees.specs.Comparing.{IfLineGives, IsEarlier, IsHere, IsOfLast, IsReadFrom, IsRoot, WasFiled, earlier_own, earlier_text, revision_in};
ghost use Rattle.filed_trees.specs.{Comparing.tables_of, Readable.{AreReadable, AreRightKids, AreRightProperties, HasRoot, IsOfKind, IsReadableFile}};
ghost use Rattle.filed_trees.specs.{Readable.{IsReadableSoFar, IsRightContent, IsRightText, IsTabled, Judges, ReadsWhere}, Values.BehindFiles};

use crate::body::{Body, body_of};
use crate::changes::{change_at, changes_by_path, read_path};
use crate::entries::{is_directory, read_kids, same_kids};
use crate::places::{
    Earlier, Places, earlier_id, earlier_properties, earlier_text, find_earlier, node_of,
};
use crate::table::{Table, table_of};
use fsfs::{FilePiece, KnownDumps, RevisionFile};
use fsfs_nodes::{EntryKind, read_properties};
use fsfs_text::FileFault;
use noderevs::{Block, Made, NodeId, NodeRev, Nodes};
use pvec::PVec;
use repo_api::{Change, Content, FileText, Properties};
use revision_data::ChangeList;
use shared_map::SharedMap;
use std::alloc::{AllocError, Global};
use std::sync::Arc;
use svnpath::Path;

/// Holds what is known where a node is read: what stands in the files of the revisions and in that of
/// this one, the changes of this one, and what is known of directories.
#[derive(Clone, Copy)]
struct Reading<'a> {
    alloc: Global,
    known: &'a KnownDumps,
    places: Places<'a>,
    changes: &'a [(Path, Change)],
    none: &'a Arc<Properties>,
}

/// Makes the content of a file with this text, which is shared.
fn file_of(alloc: Global, text: &FileText) -> Result<Arc<Content>, AllocError>
    ensures { IfOk result (λ content. arc_value content ≡ Content.File text.now) }
{
    Ok(Arc::new(alloc, Content::File(text.clone()?))?)
}

/// Shares the text of the predecessor.
///
/// # Errors
///
/// `Dangling` where it is no file.
fn text_before(earlier: Option<Earlier<'_>>) -> Result<Arc<Content>, FileFault>
    ensures { ReadsWhere result (IsOfKind EntryKind.File earlier.entry) (λ content.
        (files : RevisionBytes) (places : Places) → WasFiled files places earlier.entry
        → HasText files (earlier_text earlier.entry) (arc_value content)) }
{
    match earlier {
        Some(earlier) if !is_directory(earlier.node) => {
            Ok(Arc::try_clone(&earlier.node.content)?)
        }
        _ => Err(FileFault::Dangling),
    }
}

/// Shares the content of the predecessor, if it is a directory, or makes that of one.
fn directory_like(alloc: Global, earlier: Option<Earlier<'_>>) -> Result<Arc<Content>, AllocError>
    ensures { IfOk result (λ content. arc_value content ≡ Content.Directory) }
{
    match earlier {
        Some(earlier) if is_directory(earlier.node) => Ok(Arc::try_clone(&earlier.node.content)?),
        _ => Ok(Arc::new(alloc, Content::Directory)?),
    }
}

/// Shares the properties of the predecessor, if it has none, or else these, which are none.
fn none_like(
    none: &Arc<Properties>,
    earlier: Option<Earlier<'_>>,
) -> Result<Arc<Properties>, AllocError>
    requires { arc_value none.now ≡ [] }
    ensures { IfOk result (λ properties. arc_value properties ≡ []) }
{
    match earlier {
        Some(earlier) if earlier.node.properties.is_empty() => {
            Ok(Arc::try_clone(&earlier.node.properties)?)
        }
        _ => Ok(Arc::try_clone(none)?),
    }
}

/// Gives a path, and shares that of the predecessor if it is the same.
fn path_like(path: Path, earlier: Option<Earlier<'_>>) -> Result<Path, AllocError>
    ensures { IfOk result (λ shared. shared ≡ path) }
{
    match earlier {
        Some(earlier) => path.like(&earlier.node.path),
        None => Ok(path),
    }
}

impl Reading<'_> {
    /// Says which revision is read.
    fn revision(self) -> u32
        ensures { result ≡ revision_in self.entry.places }
    {
        self.places.tables.len() as u32
    }

    /// Reads the text of a file. It shares what the predecessor has.
    fn text(self, body: Body<'_>, earlier: Option<Earlier<'_>>) -> Result<Arc<Content>, FileFault>
        ensures { ReadsWhere result (IsRightText earlier.entry body.entry) (λ content.
            IfLineGives self.entry.places earlier.entry body.entry
            (λ files line. HasText files line (arc_value content))) }
    {
        match body {
            Body::Empty => Ok(Arc::new(self.alloc, Content::File(FileText::empty()))?),
            Body::New(text) => Ok(file_of(self.alloc, text)?),
            Body::Kept => text_before(earlier),
        }
    }

    /// Reads the entries of a directory. They share what the predecessor has.
    fn kids(
        self,
        body: Body<'_>,
        earlier: Option<Earlier<'_>>,
    ) -> Result<SharedMap<NodeId>, FileFault>
        ensures { ReadsWhere result
            (AreRightKids (IsTabled (tables_of self.entry.places)) earlier.entry body.entry)
            (λ kids. IfLineGives self.entry.places earlier.entry body.entry
            (λ files line. HasEntries files (tables_of self.entry.places) line kids)) }
    {
        match body {
            Body::Empty => Ok(SharedMap::new(self.alloc)),
            Body::New(dump) => read_kids(self.known, self.places, dump, earlier),
            Body::Kept => same_kids(self.alloc, earlier),
        }
    }

    /// Reads what a node contains: a text, or entries.
    fn content(
        self,
        piece: &FilePiece,
        earlier: Option<Earlier<'_>>,
    ) -> Result<(Arc<Content>, SharedMap<NodeId>), FileFault>
        ensures content { IfOk result (λ read. IfCame self.entry.places earlier.entry
            piece.now.node.text piece.now.text (λ files. HasContent files
            (tables_of self.entry.places) piece.now.node (arc_value read.0) read.1)) }
        ensures judges { IsHere (revision_in self.entry.places) piece.now.node.text piece.now.text
            → Judges result (IsRightContent (IsTabled (tables_of self.entry.places)) earlier.entry
            piece.now) }
    {
        let kept = earlier_text(earlier);
        let body = body_of(self.revision(), piece.node.text, &piece.text, kept)?;
        match piece.node.kind {
            EntryKind::File => Ok((self.text(body, earlier)?, SharedMap::new(self.alloc))),
            EntryKind::Directory => {
                let content = directory_like(self.alloc, earlier)?;
                Ok((content, self.kids(body, earlier)?))
            }
        }
    }

    /// Reads properties. They share what the predecessor has.
    fn properties(
        self,
        piece: &FilePiece,
        earlier: Option<Earlier<'_>>,
    ) -> Result<Arc<Properties>, FileFault>
        requires { arc_value self.none.now ≡ [] }
        ensures properties { IfOk result (λ properties. IfCame self.entry.places earlier.entry
            piece.now.node.properties piece.now.properties (λ files.
            properties_in files piece.now.node.properties ≡ Some (arc_value properties))) }
        ensures judges { IsHere (revision_in self.entry.places) piece.now.node.properties
            piece.now.properties → Judges result (AreRightProperties earlier.entry piece.now) }
    {
        let line = piece.node.properties;
        let kept = earlier_properties(earlier);
        match body_of(self.revision(), line, &piece.properties, kept)? {
            Body::Empty => Ok(none_like(self.none, earlier)?),
            Body::New(dump) => Ok(Arc::new(
                self.alloc,
                read_properties(self.alloc, dump.as_slice())?,
            )?),
            Body::Kept => match earlier {
                Some(earlier) => Ok(Arc::try_clone(&earlier.node.properties)?),
                None => Err(FileFault::Dangling),
            },
        }
    }

    /// Says where a node itself was last changed: here, where its path is listed as changed or there is
    /// no predecessor, else where the predecessor was.
    fn own(
        self,
        path: &Path,
        is_changed: bool,
        earlier: Option<Earlier<'_>>,
    ) -> Result<Made, AllocError>
        requires { is_changed ≡ is_some (found self.changes.now path.now) }
        ensures { IfOk result (λ own. (predecessor : Option FileId)
            → IsEarlier self.entry.places predecessor earlier.entry
            → own_from (λ _. earlier_own earlier.entry)
            (marks.Made (revision_in self.entry.places) path.now)
            (if is_some (found self.entry.changes.now path.now) then None else predecessor)
            ≡ Some (mark_of own)) }
    {
        match earlier {
            Some(earlier) if !is_changed => Ok(Made {
                rev: earlier.node.own.rev,
                path: earlier.node.own.path.clone()?,
            }),
            _ => Ok(Made {
                rev: self.revision(),
                path: path.clone()?,
            }),
        }
    }

    /// Shares the path of the change at a path, if there is one, and says whether there is. Else that of the predecessor
    /// is shared, if it is the same.
    fn shared_path(
        self,
        path: Path,
        earlier: Option<Earlier<'_>>,
    ) -> Result<(Path, bool), AllocError>
        requires { IsStrictlySortedBy path_cmp (keys_of self.changes.now) }
        ensures path { IfOk result (λ shared. shared.0 ≡ path) }
        ensures changed { IfOk result (λ shared. shared.1
            ≡ is_some (found self.entry.changes.now shared.0)) }
    {
        match change_at(self.changes, &path) {
            Some(change) => Ok((change.0.clone()?, true)),
            None => Ok((path_like(path, earlier)?, false)),
        }
    }

    /// Reads a node, whose entries are nodes of earlier revisions or of this one.
    fn node(self, piece: &FilePiece, block: &[NodeRev]) -> Result<NodeRev, FileFault>
        requires none { arc_value self.none.now ≡ [] }
        requires sorted { IsStrictlySortedBy path_cmp (keys_of self.changes.now) }
        ensures read { ForFiles self.entry (λ files.
            IsOfLast files (revision_in self.entry.places) piece.now
            → ReadsWhere result (IsReadableSoFar files self.entry.places piece.now)
            (IsReadFrom files self.entry.places piece.now)) }
        ensures height { IfOk result (λ node. IsHeight (with_block
            (node_at self.entry.places.nodes.now) (revision_in self.entry.places) block.now)
            node.kids node.height) }
    {
        let read = read_path(self.alloc, &piece.node.path)?;
        let earlier = find_earlier(self.places, piece.node.predecessor)?;
        let (path, is_changed) = self.shared_path(read, earlier)?;
        let own = self.own(&path, is_changed, earlier)?;
        let properties = self.properties(piece, earlier)?;
        let (content, kids) = self.content(piece, earlier)?;
        let nodes = self.places.nodes;
        let before = earlier_id(earlier);
        let height = nodes.height_after(self.alloc, self.revision(), block, before, &kids)?;
        Ok(NodeRev {
            path,
            own,
            content,
            properties,
            kids,
            height,
        })
    }

    /// Finds the root, which is the first node revision.
    fn root(self, first: Option<&FilePiece>) -> Result<NodeId, FileFault>
        ensures { ReadsWhere result (HasRoot self.entry.places first.entry)
            (IsRoot self.entry.places first.entry) }
    {
        let Some(first) = first else {
            return Err(FileFault::BadLine);
        };
        node_of(self.places, first.node.id).ok_or(FileFault::Dangling)
    }

    /// Reads all nodes, in the order of their offsets.
    fn nodes(self, rows: &[&FilePiece]) -> Result<Vec<NodeRev>, FileFault>
        requires none { arc_value self.none.now ≡ [] }
        requires sorted { IsStrictlySortedBy path_cmp (keys_of self.changes.now) }
        ensures long { IfOk result (λ nodes. length nodes.items ≡ length rows.now) }
        ensures heights { IfOk result (λ nodes. HaveHeights (node_at self.entry.places.nodes.now)
            (revision_in self.entry.places) nodes.items) }
        ensures read { ForFiles self.entry (λ files. AreOfLast files self.entry.places rows.now
            → ReadsWhere result
            (All (λ row. IsReadableSoFar files self.entry.places row.now) rows.now)
            (λ nodes. AreReadFrom files self.entry.places rows.now nodes.items)) }
    {
        let mut nodes = Vec::with_capacity(self.alloc, rows.len())?;
        for row in rows {
            let node = self.node(row, nodes.as_slice())?;
            nodes.push(node)?;
        }
        Ok(nodes)
    }

    /// Reads the block of all nodes.
    fn block(self, rows: &[&FilePiece], first: Option<&FilePiece>) -> Result<Block, FileFault>
        requires none { arc_value self.none.now ≡ [] }
        requires sorted { IsStrictlySortedBy path_cmp (keys_of self.changes.now) }
        ensures root { IfOk result (λ block. IsRoot self.entry.places first.entry block.root) }
        ensures heights { IfOk result (λ block. HaveHeights (node_at self.entry.places.nodes.now)
            (revision_in self.entry.places) block.nodes.items) }
        ensures read { ForFiles self.entry (λ files. AreOfLast files self.entry.places rows.now
            → ReadsWhere result (HasRoot self.entry.places first.entry
            × All (λ row. IsReadableSoFar files self.entry.places row.now) rows.now)
            (λ block. AreReadFrom files self.entry.places rows.now block.nodes.items)) }
    {
        let root = self.root(first)?;
        let nodes = self.nodes(rows)?;
        Ok(Block { nodes, root })
    }
}

/// Lists node revisions by rising offsets, the last first.
fn by_offset(alloc: Global, pieces: &[FilePiece]) -> Result<Vec<&FilePiece>, AllocError>
    ensures { IfOk result (λ rows. map (λ row. row.now) rows.items ≡ reverse pieces.now) }
{
    let mut rows = Vec::with_capacity(alloc, pieces.len())?;
    for k in 0..pieces.len() {
        rows.push(&pieces[pieces.len() - 1 - k])?;
    }
    Ok(rows)
}

/// Reads the nodes of the next revision, and says where they stand in its file.
fn read_block<'a>(
    known: &'a KnownDumps,
    nodes: &'a Nodes,
    tables: &'a PVec<Table>,
    changes: &'a [(Path, Change)],
    pieces: &'a [FilePiece],
) -> Result<(Block, Table), FileFault>
    requires { IsStrictlySortedBy path_cmp (keys_of changes.now) }
    ensures read { (files : RevisionBytes)
        → AreForAll files nodes.now tables.now changes.now pieces.now
        → ReadsWhere result (AreReadable files tables.now pieces.now)
        (λ read. AreNew files tables.now read.0 read.1 pieces.now) }
    ensures rows { IfOk result (λ read. HasRows pieces.now read.1) }
    ensures heights { IfOk result (λ read. HaveHeights (node_at nodes.now) (length tables.now)
        read.0.nodes.items) }
{
    let alloc = known.alloc();
    let none = Arc::new(alloc, Properties::new(alloc))?;
    let rows = by_offset(alloc, pieces)?;
    let table = table_of(alloc, tables, rows.as_slice())?;
    let places = Places {
        nodes,
        tables,
        so_far: &table,
    };
    let reading = Reading {
        alloc,
        known,
        places,
        changes,
        none: &none,
    };
    match reading.block(rows.as_slice(), pieces.first()) {
        Ok(block) => Ok((block, table)),
        Err(fault) => {
            std::mem::drop(table);
            Err(fault)
        }
    }
}

/// Holds what the file of a revision says: its nodes, where they stand in the file, and its changes.
#[derive(Drop)]
pub struct ReadRevision {
    pub block: Block,
    pub table: Table,
    pub changes: ChangeList,
}

/// Reads the next revision from its file, whose node revisions are the root first and then by falling
/// offsets, by what is known of directories. The tables are those of the revisions before. Nodes share
/// what their predecessors have. That the revision may come next is not judged.
///
/// # Errors
///
/// `Dangling` where an id or a line names what it may not, `BadLine` where a line is invalid; `NoMemory`.
pub fn read_next<'a>(
    known: &'a KnownDumps,
    nodes: &'a Nodes,
    tables: &'a PVec<Table>,
    file: &'a RevisionFile,
) -> Result<ReadRevision, FileFault>
    ensures tabled { IfOk result (λ read. BehindFiles nodes.now tables.now file.now
        (λ files bytes blocks lists. AreTabled (files ++ bytes ∷ []) (blocks ++ read.block ∷ [])
        (tables.now ++ read.table ∷ []) (lists ++ read.changes ∷ []))) }
    ensures high { (files : RevisionBytes) (bytes : List ℕ) (lists : List ChangeMap)
        → AreTabled files (blocks_of nodes.now) tables.now lists
        → revision_of (length tables.now) bytes
        ≡ Ok (file.now.pieces.items, file.now.changes.items)
        → IfOk result (λ read. AreHigh (with_block (node_at nodes.now) (length tables.now)
        read.block.nodes.items)) }
    ensures judges { BehindFiles nodes.now tables.now file.now (λ files bytes blocks lists.
        Judges result (IsReadableFile (files ++ bytes ∷ []) tables.now file.now.pieces.items
        file.now.changes.items)) }
{
    let changes = changes_by_path(known.alloc(), file.changes.as_slice())?;
    match read_block(
        known,
        nodes,
        tables,
        changes.as_slice(),
        file.pieces.as_slice(),
    ) {
        Ok((block, table)) => Ok(ReadRevision {
            block,
            table,
            changes: ChangeList::from_sorted(changes),
        }),
        Err(fault) => {
            std::mem::drop(changes);
            Err(fault)
        }
    }
}

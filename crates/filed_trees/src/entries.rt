//! The entries of a directory, read from a file.
ghost use Rattle.std.specs.{List.Sorted.IsStrictlySortedBy, Ordering.is_lt};
ghost use Rattle.std.specs.{Prelude.{◌≡◌, ◌⊎◌, map, Decides, Option, Some, All, Contains, IsSome, IsSomeAnd, IfOk, IfSome, if◌then◌else◌}, Arc.arc_value};
ghost use Rattle.std.specs.Result.{result_ok};
ghost use Rattle.shared_map.specs.{Entries.by_bytes, Rows.row_entries};
ghost use Rattle.svnpath.specs.Paths.{Component, same_component};
ghost use Rattle.repo_api.specs.Trees.{is_directory_content};
ghost use Rattle.noderevs.specs.{Nodes.kid_named, declared.node_rev.NodeId.NodeId};
ghost use Rattle.fsfs_text.specs.declared.representation.Representation.{Representation};
ghost use Rattle.filed_trees.specs.{Pieces.{RevisionBytes, body_at_line}, Tables.IsAt};
ghost use Rattle.filed_trees.specs.Comparing.{AreAt, AreNamed, AreNodesOf, HasEntries, WasFiled, earlier_text, id_at, tables_of};
ghost use Rattle.filed_trees.specs.{declared.places.Places.Places, Readable.{AreEntries, IsOfKind, IsTabled, Judges, ReadsWhere}};
ghost use Rattle.fsfs_nodes.specs.{Entries.entries_of, declared.entries.EntryKind.TheVariants.Directory};

use crate::kids::ids_by_name;
use crate::places::{Earlier, Places, is_placed, node_of};
use byte_string::ByteString;
use fsfs::KnownDumps;
use fsfs_nodes::{DirectoryEntry, read_entries};
use fsfs_text::{FileFault, FileId};
use noderevs::{NodeId, NodeRev};
use repo_api::{Content, FileText};
use shared_map::SharedMap;
use std::alloc::{AllocError, Global};
use std::collections::BTreeMap;

/// Says whether a node is a directory.
pub(crate) fn is_directory(node: &NodeRev) -> bool
    ensures { result ≡ is_directory_content (arc_value node.now.content) }
{
    matches!(&*node.content, Content::Directory)
}

/// Finds the node of an entry's name.
///
/// # Errors
///
/// `Dangling` where the files have no such node revision, `BadLine` where there is no such name.
fn node_named(
    places: Places<'_>,
    ids: &BTreeMap<ByteString, FileId>,
    name: &ByteString,
) -> Result<NodeId, FileFault>
    ensures { ReadsWhere result (IsSomeAnd (id_at ids.now.entries name.now)
        (IsTabled (tables_of places.entry)))
        (λ node. IsAt (tables_of places.entry) (Some node) (id_at ids.now.entries name.now)) }
{
    let Some(id) = ids.get(name) else {
        return Err(FileFault::BadLine);
    };
    match node_of(places, *id) {
        Some(node) => Ok(node),
        None => Err(FileFault::Dangling),
    }
}

/// Puts an id at a name, unless it is there.
fn put_kid(
    alloc: Global,
    kids: &mut SharedMap<NodeId>,
    name: &ByteString,
    id: NodeId,
) -> Result<(), AllocError>
    ensures { IfOk result (λ _. (n : Component) → kid_named kids.new n
        ≡ (if same_component n name.now then Some id else kid_named kids.old n)) }
{
    if kids.get(name) == Some(&id) {
        return Ok(());
    }
    kids.put(alloc, name.clone()?, id)
}

/// Puts the nodes of entries at their names.
///
/// # Errors
///
/// As `node_named`; `NoMemory`.
fn put_kids(
    alloc: Global,
    places: Places<'_>,
    kids: &mut SharedMap<NodeId>,
    ids: &BTreeMap<ByteString, FileId>,
    entries: &[DirectoryEntry],
) -> Result<(), FileFault>
    ensures placed { IfOk result (λ _. All (λ e. IsSomeAnd (kid_named kids.new e.name)
        (λ id. IsAt (tables_of places.entry) (Some id) (id_at ids.now.entries e.name))) entries.now) }
    ensures named { IfOk result (λ _. AreNamed (id_at ids.now.entries) kids.old
        → AreNamed (id_at ids.now.entries) kids.new) }
    ensures judges { Judges result (All (λ e. IsSomeAnd (id_at ids.now.entries e.name)
        (IsTabled (tables_of places.entry))) entries.now) }
{
    for entry in entries {
        let id = node_named(places, ids, &entry.name)?;
        put_kid(alloc, kids, &entry.name, id)?;
    }
    Ok(())
}

/// Lists the names of entries that the ids have not.
fn other_names(
    alloc: Global,
    kids: &SharedMap<NodeId>,
    ids: &BTreeMap<ByteString, FileId>,
) -> Result<Vec<ByteString>, AllocError>
    ensures { IfOk result (λ others. (name : Component) (id : NodeId)
        → kid_named kids.now name ≡ Some id
        → IsSome (id_at ids.now.entries name) ⊎ Contains others.items name) }
{
    let mut others = Vec::new(alloc);
    let entries = kids.entries(alloc)?;
    for entry in &entries {
        if ids.get(&entry.0).is_none() {
            others.push(entry.0.clone()?)?;
        }
    }
    Ok(others)
}

/// Removes names.
fn remove_kids(kids: &mut SharedMap<NodeId>, names: &[ByteString]) -> Result<(), AllocError>
    ensures { IfOk result (λ _. (name : Component) (id : NodeId)
        → kid_named kids.new name ≡ Some id
        → (kid_named kids.old name ≡ Some id) × (Contains names.now name → ⊥)) }
{
    for name in names {
        kids.remove(name)?;
    }
    Ok(())
}

/// Makes the entries of a directory those of a list.
///
/// # Errors
///
/// `BadLine` where a name comes twice, `Dangling` where the files have no node revision of an id;
/// `NoMemory`.
fn set_kids(
    alloc: Global,
    places: Places<'_>,
    kids: &mut SharedMap<NodeId>,
    entries: &[DirectoryEntry],
) -> Result<(), FileFault>
    ensures { ReadsWhere result (AreEntries (IsTabled (tables_of places.entry)) entries.now)
        (λ _. AreAt (tables_of places.entry) kids.new entries.now) }
{
    let ids = ids_by_name(alloc, entries)?;
    let others = other_names(alloc, kids, &ids)?;
    remove_kids(kids, others.as_slice())?;
    put_kids(alloc, places, kids, &ids, entries)
}

/// Shares the entries of the predecessor, none where there is no predecessor.
fn shared_kids(
    alloc: Global,
    earlier: Option<Earlier<'_>>,
) -> Result<SharedMap<NodeId>, AllocError> {
    match earlier {
        Some(earlier) => earlier.node.kids.share(alloc),
        None => Ok(SharedMap::new(alloc)),
    }
}

/// Finds the first place, from this one on, that has the name or a later one.
fn place_from(entries: &[&(ByteString, NodeId)], from: usize, name: &ByteString) -> usize {
    let mut at = from;
    while at < entries.len() && entries[at].0 < *name {
        at += 1;
    }
    at
}

/// Gives the node of the entry at a place, if it is the node revision of an id.
fn placed_among(
    places: Places<'_>,
    entries: &[&(ByteString, NodeId)],
    place: usize,
    id: FileId,
) -> Option<NodeId>
    ensures { IfSome result (λ node. IsTabled (tables_of places.entry) id
        × IsAt (tables_of places.entry) (Some node) (Some id)) }
{
    let node = entries.get(place)?.1;
    if is_placed(places, node, id) {
        Some(node)
    } else {
        None
    }
}

/// Finds the node of an entry. That is quick where it is that of the entry at a place of a directory, or of one behind it:
/// the place is moved behind that one.
///
/// # Errors
///
/// `Dangling` where the files have no such node revision.
fn node_near(
    places: Places<'_>,
    entries: &[&(ByteString, NodeId)],
    at: &mut usize,
    entry: &DirectoryEntry,
) -> Result<NodeId, FileFault>
    ensures { ReadsWhere result (IsTabled (tables_of places.entry) entry.now.id)
        (λ node. IsAt (tables_of places.entry) (Some node) (Some entry.now.id)) }
{
    if let Some(node) = placed_among(places, entries, *at, entry.id) {
        *at = at.saturating_add(1);
        return Ok(node);
    }
    *at = place_from(entries, *at, &entry.name);
    if let Some(node) = placed_among(places, entries, *at, entry.id) {
        *at = at.saturating_add(1);
        return Ok(node);
    }
    node_of(places, entry.id).ok_or(FileFault::Dangling)
}

/// Lists the names of entries with their nodes. That is quick where the names rise, and the nodes are
/// mostly those of a directory.
///
/// # Errors
///
/// `Dangling` where the files have no node revision of an id; `NoMemory`.
fn rows_of<'a>(
    alloc: Global,
    places: Places<'_>,
    kids: &SharedMap<NodeId>,
    entries: &'a [DirectoryEntry],
) -> Result<Vec<(&'a ByteString, NodeId)>, FileFault>
    ensures rows { IfOk result (λ rows. AreNodesOf (tables_of places.entry)
        (row_entries rows.items) entries.now) }
    ensures judges { Judges result (All (λ e. IsTabled (tables_of places.entry) e.id) entries.now) }
{
    let before = kids.entries(alloc)?;
    let before = before.as_slice();
    let mut rows = Vec::with_capacity(alloc, entries.len())?;
    let mut at = 0;
    for entry in entries {
        let node = node_near(places, before, &mut at, entry)?;
        rows.push((&entry.name, node))?;
    }
    Ok(rows)
}

/// Makes the entries of a directory those of a list whose names rise, and shares what a directory has
/// of them.
///
/// # Errors
///
/// As `rows_of`.
fn rising_kids(
    alloc: Global,
    places: Places<'_>,
    kids: &SharedMap<NodeId>,
    entries: &[DirectoryEntry],
) -> Result<SharedMap<NodeId>, FileFault>
    requires { IsStrictlySortedBy by_bytes (map (λ e. e.name) entries.now) }
    ensures { ReadsWhere result (AreEntries (IsTabled (tables_of places.entry)) entries.now)
        (λ made. AreAt (tables_of places.entry) made entries.now) }
{
    let rows = rows_of(alloc, places, kids, entries)?;
    Ok(kids.remade(alloc, rows.as_slice())?)
}

/// Says whether each name comes after the one before.
fn are_rising(entries: &[DirectoryEntry]) -> bool
    ensures { Decides result (IsStrictlySortedBy by_bytes (map (λ e. e.name) entries.now)) }
{
    let is_before = |entry: &DirectoryEntry, next: &DirectoryEntry| -> bool
        ensures { result ≡ is_lt (by_bytes entry.now.name next.now.name) }
    { entry.name < next.name };
    entries.is_sorted_by(is_before)
}

/// Makes the entries of a directory those of a list. They share what the predecessor has.
///
/// # Errors
///
/// As `set_kids`.
fn kids_of(
    alloc: Global,
    places: Places<'_>,
    entries: &[DirectoryEntry],
    earlier: Option<Earlier<'_>>,
) -> Result<SharedMap<NodeId>, FileFault>
    ensures { ReadsWhere result (AreEntries (IsTabled (tables_of places.entry)) entries.now)
        (λ made. AreAt (tables_of places.entry) made entries.now) }
{
    let mut kids = shared_kids(alloc, earlier)?;
    if are_rising(entries) {
        return rising_kids(alloc, places, &kids, entries);
    }
    match set_kids(alloc, places, &mut kids, entries) {
        Ok(()) => Ok(kids),
        Err(fault) => {
            std::mem::drop(kids);
            Err(fault)
        }
    }
}

/// Reads the entries that bytes say, by what is known of directories. They share what the predecessor has.
///
/// # Errors
///
/// As `read_entries` and `set_kids`.
pub(crate) fn read_kids(
    known: &KnownDumps,
    places: Places<'_>,
    bytes: &FileText,
    earlier: Option<Earlier<'_>>,
) -> Result<SharedMap<NodeId>, FileFault>
    ensures { ReadsWhere result (IsSomeAnd (result_ok (entries_of bytes.now))
        (AreEntries (IsTabled (tables_of places.entry))))
        (λ kids. (files : RevisionBytes) (line : Option Representation)
        → IsSomeAnd line (λ l. body_at_line files l ≡ Some bytes.now)
        → HasEntries files (tables_of places.entry) line kids) }
{
    if let Some(entries) = known.entries_of(bytes) {
        return kids_of(known.alloc(), places, entries, earlier);
    }
    let entries = read_entries(known.alloc(), bytes.as_slice())?;
    kids_of(known.alloc(), places, entries.as_slice(), earlier)
}

/// Shares the entries of the predecessor.
///
/// # Errors
///
/// `Dangling` where it is no directory.
pub(crate) fn same_kids(
    alloc: Global,
    earlier: Option<Earlier<'_>>,
) -> Result<SharedMap<NodeId>, FileFault>
    ensures { ReadsWhere result (IsOfKind Directory earlier.entry) (λ kids.
        (files : RevisionBytes) (places : Places) → WasFiled files places earlier.entry
        → HasEntries files (tables_of places) (earlier_text earlier.entry) kids) }
{
    match earlier {
        Some(earlier) if is_directory(earlier.node) => Ok(earlier.node.kids.share(alloc)?),
        _ => Err(FileFault::Dangling),
    }
}

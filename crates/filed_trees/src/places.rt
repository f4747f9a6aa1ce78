//! Where nodes stand in the files, as far as that is known.
ghost use Rattle.std.specs.Prelude.{◌≡◌, ◌≤◌, IfOk, IfSome, IsSomeAnd, length, option_copied, slice_get, Some, Decides};
ghost use Rattle.filed_trees.specs.{Comparing.{IsEarlier, earlier_text, earlier_properties, tables_of, AreFor}, Tables.{IsAt, placed_in}};
ghost use Rattle.filed_trees.specs.{Readable.{Finds, FindsOne, IsTabled, Judges}, Pieces.RevisionBytes, Changes.ChangeRows};

use crate::placed::Placed;
use crate::table::Table;
use fsfs_text::{FileFault, FileId, Representation};
use noderevs::{NodeId, NodeRev, Nodes};
use pvec::PVec;

/// Holds the nodes, the tables of the revisions before the last one, and that of the last as far as it
/// has come.
#[derive(Clone, Copy)]
pub(crate) struct Places<'a> {
    pub nodes: &'a Nodes,
    pub tables: &'a PVec<Table>,
    pub so_far: &'a Table,
}

/// Holds a node of an earlier revision, and where it stands in the files.
#[derive(Clone, Copy)]
pub(crate) struct Earlier<'a> {
    pub id: NodeId,
    pub node: &'a NodeRev,
    pub placed: &'a Placed,
}

/// Says whether two ids are the same.
pub(crate) fn is_same_id(id: FileId, other: FileId) -> bool
    ensures { Decides result (id ≡ other) }
{
    id == other
}

/// Finds the first place from which on no offset is less, where offsets rise.
fn first_from(placed: &[Placed], offset: u64) -> usize
    ensures { result ≤ length placed.now }
{
    let mut low = 0;
    let mut high = placed.len();
    while low < high {
        let middle = low + (high - low) / 2;
        if placed[middle].offset() < offset {
            low = middle + 1;
        } else {
            high = middle;
        }
    }
    high
}

/// Finds the place of an id by going over all.
fn scanned(placed: &[Placed], id: FileId) -> Option<usize>
    ensures { FindsOne result (λ k. IsSomeAnd (slice_get placed.now k) (λ p. p.id ≡ id)) }
{
    for k in 0..placed.len() {
        if is_same_id(placed[k].id(), id) {
            return Some(k);
        }
    }
    None
}

/// Finds the place of an id. That is quick where offsets rise with the places.
fn place_of(placed: &[Placed], id: FileId) -> Option<usize>
    ensures { FindsOne result (λ k. IsSomeAnd (slice_get placed.now k) (λ p. p.id ≡ id)) }
{
    let place = first_from(placed, id.offset);
    if place < placed.len() && is_same_id(placed[place].id(), id) {
        return Some(place);
    }
    scanned(placed, id)
}

/// Gives the table of a revision.
fn table_at(places: Places<'_>, revision: u32) -> Option<&Table>
    ensures { option_copied result ≡ slice_get (tables_of places.entry) revision }
{
    if revision as usize == places.tables.len() {
        return Some(places.so_far);
    }
    places.tables.get(revision as usize)
}

/// Finds the node that is the node revision of an id.
pub(crate) fn node_of(places: Places<'_>, id: FileId) -> Option<NodeId>
    ensures at { IfSome result (λ node. IsAt (tables_of places.entry) (Some node) (Some id)) }
    ensures finds { Finds result (IsTabled (tables_of places.entry) id) }
{
    let table = table_at(places, id.revision)?;
    let place = place_of(table.placed.as_slice(), id)?;
    Some(NodeId {
        rev: id.revision,
        place: place as u64,
    })
}

/// Finds where a node stands in the files.
fn placed_at(places: Places<'_>, node: NodeId) -> Option<&Placed>
    ensures { option_copied result ≡ placed_in (tables_of places.entry) node }
{
    match table_at(places, node.rev) {
        Some(table) => table.placed.get(node.place as usize),
        None => None,
    }
}

/// Says whether a node, of the revision of an id, is the node revision of this id.
pub(crate) fn is_placed(places: Places<'_>, node: NodeId, id: FileId) -> bool
    ensures { Decides result ((node.rev ≡ id.revision)
        × IsAt (tables_of places.entry) (Some node) (Some id)) }
{
    match placed_at(places, node) {
        Some(placed) => node.rev == id.revision && is_same_id(placed.id(), id),
        None => false,
    }
}

/// Finds the node of an earlier revision that a node revision names as its predecessor.
///
/// # Errors
///
/// `Dangling` where there is none.
pub(crate) fn find_earlier<'a>(
    places: Places<'a>,
    predecessor: Option<FileId>,
) -> Result<Option<Earlier<'a>>, FileFault>
    ensures earlier { IfOk result (IsEarlier places.entry predecessor) }
    ensures finds { (files : RevisionBytes) (rows : ChangeRows) → AreFor files places.entry rows
        → Judges result (IfSome predecessor (IsTabled places.entry.tables.now)) }
{
    let Some(id) = predecessor else {
        return Ok(None);
    };
    match earlier_of(places, id) {
        Some(earlier) => Ok(Some(earlier)),
        None => Err(FileFault::Dangling),
    }
}

/// Finds the node of an earlier revision that is the node revision of an id.
fn earlier_of(places: Places<'_>, id: FileId) -> Option<Earlier<'_>>
    ensures earlier { IfSome result (λ e. IsEarlier places.entry (Some id) (Some e)) }
    ensures finds { (files : RevisionBytes) (rows : ChangeRows) → AreFor files places.entry rows
        → Finds result (IsTabled places.entry.tables.now id) }
{
    let table = places.tables.get(id.revision as usize)?;
    let place = place_of(table.placed.as_slice(), id)?;
    let node_id = NodeId {
        rev: id.revision,
        place: place as u64,
    };
    let node = places.nodes.node(node_id)?;
    let placed = table.placed.get(place)?;
    Some(Earlier {
        id: node_id,
        node,
        placed,
    })
}

/// Gives the id of the node of the predecessor.
pub(crate) fn earlier_id(earlier: Option<Earlier<'_>>) -> Option<NodeId> {
    Some(earlier?.id)
}

/// Gives the line of the text of the predecessor.
pub(crate) fn earlier_text(earlier: Option<Earlier<'_>>) -> Option<Representation>
    ensures { result ≡ earlier_text earlier.entry }
{
    earlier?.placed.text()
}

/// Gives the line of the properties of the predecessor.
pub(crate) fn earlier_properties(earlier: Option<Earlier<'_>>) -> Option<Representation>
    ensures { result ≡ earlier_properties earlier.entry }
{
    earlier?.placed.properties()
}

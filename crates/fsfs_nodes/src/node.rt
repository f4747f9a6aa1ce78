//! Node revisions, as lines.
ghost use Rattle.std.specs.Prelude.{◌≡◌, ◌++◌, OnOk, Option, option_map, codes};
ghost use Rattle.fsfs_text.specs.{Numerals.numeral, Reading.{Answers, Gives}, Ids.id_text, Representations.representation_text, Places.place_text};
ghost use Rattle.fsfs_nodes.specs.{Headers.{line_bytes, optional_line, line_pairs, value_of, field}, Nodes.{kind_text, kind_of, count_of, path_of}};
ghost use Rattle.fsfs_nodes.specs.Nodes.{identity_lines, content_lines, origin_lines, node_bytes, id_line, own_id, node_of, node_at};

use crate::entries::{EntryKind, append_kind, parse_kind};
use crate::header::{
    HeaderLine, needed, optional_id, optional_place, optional_representation, read_block,
};
use byte_string::ByteString;
use fsfs_text::{
    FileFault, FileId, Place, Representation, append_id, append_number, append_place,
    append_representation, parse_decimal, parse_id, split_once, without_prefix,
};
use std::alloc::{AllocError, Global};

/// Holds a node revision as its lines say it. Without a `copyroot` line it is its own copy root.
#[derive(Debug, Drop)]
pub struct FileNode {
    pub id: FileId,
    pub kind: EntryKind,
    pub predecessor: Option<FileId>,
    pub count: u64,
    pub text: Option<Representation>,
    pub properties: Option<Representation>,
    pub path: ByteString,
    pub copyfrom: Option<Place>,
    pub copyroot: Option<Place>,
}

/// Appends the name of a line.
fn append_name(out: &mut Vec<u8>, name: &[u8]) -> Result<(), AllocError>
    ensures { OnOk result (out.new.items ≡ out.old.items ++ (name.now ++ codes ": ")) }
{
    out.extend_from_slice(name)?;
    out.extend_from_slice(b": ")
}

/// Appends a line that names an id.
fn append_id_line(out: &mut Vec<u8>, name: &[u8], id: FileId) -> Result<(), AllocError>
    ensures { OnOk result (out.new.items ≡ out.old.items ++ line_bytes name.now (id_text id)) }
{
    append_name(out, name)?;
    append_id(out, id)?;
    out.push(b'\n')?;
    Ok(())
}

/// Appends a line that names a representation, if there is one.
fn append_representation_line(
    out: &mut Vec<u8>,
    name: &[u8],
    representation: &Option<Representation>,
) -> Result<(), AllocError>
    ensures { OnOk result (out.new.items ≡ out.old.items
        ++ optional_line name.now (option_map representation_text representation.now)) }
{
    let Some(representation) = representation else {
        return Ok(());
    };
    append_name(out, name)?;
    append_representation(out, representation)?;
    out.push(b'\n')?;
    Ok(())
}

/// Appends a line that names a place, if there is one.
fn append_place_line(
    out: &mut Vec<u8>,
    name: &[u8],
    place: &Option<Place>,
) -> Result<(), AllocError>
    ensures { OnOk result (out.new.items
        ≡ out.old.items ++ optional_line name.now (option_map place_text place.now)) }
{
    let Some(place) = place else {
        return Ok(());
    };
    append_name(out, name)?;
    append_place(out, place)?;
    out.push(b'\n')?;
    Ok(())
}

/// Appends the line of the predecessor, if there is one.
fn append_predecessor(out: &mut Vec<u8>, predecessor: Option<FileId>) -> Result<(), AllocError>
    ensures { OnOk result (out.new.items
        ≡ out.old.items ++ optional_line (codes "pred") (option_map id_text predecessor)) }
{
    match predecessor {
        Some(id) => append_id_line(out, b"pred", id),
        None => Ok(()),
    }
}

/// Appends the line of the kind.
fn append_kind_line(out: &mut Vec<u8>, kind: EntryKind) -> Result<(), AllocError>
    ensures { OnOk result (out.new.items
        ≡ out.old.items ++ line_bytes (codes "type") (kind_text kind)) }
{
    append_name(out, b"type")?;
    append_kind(out, kind)?;
    out.push(b'\n')?;
    Ok(())
}

/// Appends the line of the count.
fn append_count(out: &mut Vec<u8>, count: u64) -> Result<(), AllocError>
    ensures { OnOk result (out.new.items
        ≡ out.old.items ++ line_bytes (codes "count") (numeral 10 count)) }
{
    append_name(out, b"count")?;
    append_number(out, count)?;
    out.push(b'\n')?;
    Ok(())
}

/// Appends the line of the path at which it was made.
fn append_path(out: &mut Vec<u8>, path: &[u8]) -> Result<(), AllocError>
    ensures { OnOk result (out.new.items ≡ out.old.items ++ line_bytes (codes "cpath") path.now) }
{
    append_name(out, b"cpath")?;
    out.extend_from_slice(path)?;
    out.push(b'\n')?;
    Ok(())
}

/// Appends the lines that say what a node revision is.
fn append_identity(out: &mut Vec<u8>, node: &FileNode) -> Result<(), AllocError>
    ensures { OnOk result (out.new.items ≡ out.old.items ++ identity_lines node.now) }
{
    append_id_line(out, b"id", node.id)?;
    append_kind_line(out, node.kind)?;
    append_predecessor(out, node.predecessor)?;
    append_count(out, node.count)
}

/// Appends the lines that say what it contains.
fn append_content(out: &mut Vec<u8>, node: &FileNode) -> Result<(), AllocError>
    ensures { OnOk result (out.new.items ≡ out.old.items ++ content_lines node.now) }
{
    append_representation_line(out, b"text", &node.text)?;
    append_representation_line(out, b"props", &node.properties)
}

/// Appends the lines that say where it was made.
fn append_origin(out: &mut Vec<u8>, node: &FileNode) -> Result<(), AllocError>
    ensures { OnOk result (out.new.items ≡ out.old.items ++ origin_lines node.now) }
{
    append_path(out, node.path.as_slice())?;
    append_place_line(out, b"copyfrom", &node.copyfrom)?;
    append_place_line(out, b"copyroot", &node.copyroot)
}

/// Appends the lines of a node revision, and an empty line.
pub fn append_node(out: &mut Vec<u8>, node: &FileNode) -> Result<(), AllocError>
    ensures { OnOk result (out.new.items ≡ out.old.items ++ node_bytes node.now) }
{
    append_identity(out, node)?;
    append_content(out, node)?;
    append_origin(out, node)?;
    out.push(b'\n')?;
    Ok(())
}

/// Reads the id of the node revision in front, which has to stand at this offset of the file of
/// this revision.
#[tactic(auto, unfolding(crate::specs::Nodes::own_id))]
fn read_own_id(revision: u32, offset: u64, bytes: &[u8]) -> Result<FileId, FileFault>
    ensures { Gives (λ id. id) result (own_id revision offset bytes.now) }
{
    match parse_own_id(bytes) {
        Some(id) if id.revision == revision && id.offset == offset => Ok(id),
        _ => Err(FileFault::Dangling),
    }
}

/// Reads the id that the first line says.
#[tactic(auto, unfolding(crate::specs::Nodes::id_line))]
fn parse_own_id(bytes: &[u8]) -> Option<FileId>
    ensures { result ≡ id_line bytes.now }
{
    let (line, _) = split_once(bytes, b'\n')?;
    parse_id(without_prefix(line, b"id: ")?)
}

/// Reads the kind that the lines say.
fn read_kind(lines: &[HeaderLine<'_>]) -> Result<EntryKind, FileFault>
    ensures { Gives (λ kind. kind) result
        (field kind_of (value_of (codes "type") (line_pairs lines.now))) }
{
    match parse_kind(needed(lines, b"type")?) {
        Some(kind) => Ok(kind),
        None => Err(FileFault::BadLine),
    }
}

/// Reads the count that the lines say.
fn read_count(lines: &[HeaderLine<'_>]) -> Result<u64, FileFault>
    ensures { Gives (λ count. count) result
        (field count_of (value_of (codes "count") (line_pairs lines.now))) }
{
    match parse_decimal(needed(lines, b"count")?) {
        Some(count) => Ok(count),
        None => Err(FileFault::BadLine),
    }
}

/// Reads the path that the lines say.
fn read_path(alloc: Global, lines: &[HeaderLine<'_>]) -> Result<ByteString, FileFault>
    ensures { Answers (λ path. path) result
        (field path_of (value_of (codes "cpath") (line_pairs lines.now))) }
{
    let path = needed(lines, b"cpath")?;
    Ok(ByteString::from_slice(alloc, path)?)
}

/// Reads the node revision that the lines say.
#[tactic(auto, unfolding(crate::specs::Nodes::node_of))]
fn node_of(alloc: Global, id: FileId, lines: &[HeaderLine<'_>]) -> Result<FileNode, FileFault>
    ensures { Answers (λ node. node) result (node_of id (line_pairs lines.now)) }
{
    let kind = read_kind(lines)?;
    let predecessor = optional_id(lines, b"pred")?;
    let count = read_count(lines)?;
    let text = optional_representation(lines, b"text")?;
    let properties = optional_representation(lines, b"props")?;
    let path = read_path(alloc, lines)?;
    let copyfrom = optional_place(alloc, lines, b"copyfrom")?;
    let copyroot = optional_place(alloc, lines, b"copyroot")?;
    Ok(FileNode {
        id,
        kind,
        predecessor,
        count,
        text,
        properties,
        path,
        copyfrom,
        copyroot,
    })
}

/// Reads the node revision at an offset of a revision's file.
///
/// # Errors
///
/// `Dangling` where its first line says no id of this place; `Truncated` or `BadLine` for its other
/// lines; `NoMemory`.
#[tactic(auto, unfolding(crate::specs::Nodes::node_at))]
pub fn read_node(
    alloc: Global,
    revision: u32,
    bytes: &[u8],
    offset: u64,
) -> Result<FileNode, FileFault>
    ensures { Answers (λ node. node) result (node_at revision bytes.now offset) }
{
    let start = offset as usize;
    if bytes.len() < start {
        return Err(FileFault::Dangling);
    }
    let rest = &bytes[start..];
    let id = read_own_id(revision, offset, rest)?;
    let lines = read_block(alloc, rest)?;
    node_of(alloc, id, lines.as_slice())
}

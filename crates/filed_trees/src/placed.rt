//! Where one node revision stands in files, in few bytes.
ghost use Rattle.std.specs.{Prelude.{◌≡◌, IfOk, IfSome, Some}, Arc.arc_value};
ghost use Rattle.filed_trees.specs.Placing.{PlacedValue, line_in, placed_value, small_value, unpacked_id, unpacked_part};

use fsfs_text::{FileId, IdPart, Place, Representation};
use std::alloc::{AllocError, Global};
use std::marker::Model;
use std::sync::Arc;

/// A revision that is none.
const NO_REVISION: u32 = u32::MAX;

/// A node id or a copy id in two small numbers; the revision is the greatest where there is none.
#[derive(Clone, Copy)]
struct SmallPart {
    number: u32,
    revision: u32,
}

/// A representation in small numbers; the revision is the greatest where there is none.
#[derive(Clone, Copy)]
struct SmallLine {
    revision: u32,
    offset: u32,
    length: u32,
    size: u32,
    digest: [u8; 16],
}

/// An id whose numbers are small.
#[derive(Clone, Copy)]
struct SmallId {
    node: SmallPart,
    copy: SmallPart,
    revision: u32,
    offset: u32,
}

/// What most node revisions have, in small numbers.
#[derive(Clone, Copy)]
struct SmallNode {
    id: SmallId,
    count: u32,
    text: SmallLine,
}

/// What is kept apart of a node revision with properties.
#[derive(Drop)]
struct Described {
    properties: Representation,
    copyroot: Arc<Place>,
}

/// A node revision with a number that is not small.
#[derive(Drop)]
struct Whole {
    id: FileId,
    count: u64,
    text: Option<Representation>,
    properties: Option<Representation>,
    copyroot: Arc<Place>,
}

/// A node revision as it is kept: in small numbers without properties, or with them, or with a larger number.
#[derive(Drop)]
enum Kept {
    Plain(SmallNode, Arc<Place>),
    Described(SmallNode, Arc<Described>),
    Large(Arc<Whole>),
}

/// Says where a node revision stands in the files, and keeps what files alone have of it. Small numbers take few bytes;
/// a node revision with a larger one is kept apart, and so are the properties of one that has any.
pub struct Placed {
    kept: Kept,
}

impl Drop for Placed {
    fn drop(self) {
        let Placed { kept: _ } = self;
    }
}

impl Model for Placed {
    ghost Value = { PlacedValue };

    ghost view = { λ p. placed_value p.kept };
}

/// Gives the number where it is small.
fn small(number: u64) -> Option<u32>
    ensures { IfSome result (λ n. n ≡ number) }
{
    if number < u32::MAX as u64 {
        Some(number as u32)
    } else {
        None
    }
}

/// Gives a part of an id in small numbers, if they are.
fn small_part(part: IdPart) -> Option<SmallPart>
    ensures { IfSome result (λ p. unpacked_part p ≡ part) }
{
    if part.number >= u32::MAX as u128 {
        return None;
    }
    let revision = match part.revision {
        None => NO_REVISION,
        Some(NO_REVISION) => return None,
        Some(revision) => revision,
    };
    Some(SmallPart {
        number: part.number as u32,
        revision,
    })
}

/// Gives the part of an id.
fn part_of(part: SmallPart) -> IdPart
    ensures { result ≡ unpacked_part part }
{
    let revision = if part.revision == NO_REVISION {
        None
    } else {
        Some(part.revision)
    };
    IdPart {
        number: part.number as u128,
        revision,
    }
}

/// Gives an id in small numbers, if they are.
fn small_id(id: FileId) -> Option<SmallId>
    ensures { IfSome result (λ i. unpacked_id i ≡ id) }
{
    Some(SmallId {
        node: small_part(id.node)?,
        copy: small_part(id.copy)?,
        revision: id.revision,
        offset: small(id.offset)?,
    })
}

/// Gives a line in small numbers, if they are.
fn small_line(line: Representation) -> Option<SmallLine>
    ensures { IfSome result (λ l. line_in l ≡ Some line) }
{
    if line.revision == NO_REVISION {
        return None;
    }
    Some(SmallLine {
        revision: line.revision,
        offset: small(line.offset)?,
        length: small(line.length)?,
        size: small(line.size)?,
        digest: line.digest,
    })
}

/// Gives the line of a text in small numbers, if they are, or that there is none.
fn small_text(text: Option<Representation>) -> Option<SmallLine>
    ensures { IfSome result (λ l. line_in l ≡ text) }
{
    match text {
        Some(line) => small_line(line),
        None => Some(SmallLine {
            revision: NO_REVISION,
            offset: 0,
            length: 0,
            size: 0,
            digest: [0; 16],
        }),
    }
}

/// Gives the line in small numbers, if there is one.
fn line_of(line: SmallLine) -> Option<Representation>
    ensures { result ≡ line_in line }
{
    if line.revision == NO_REVISION {
        return None;
    }
    let digest = line.digest;
    Some(Representation {
        revision: line.revision,
        offset: line.offset as u64,
        length: line.length as u64,
        size: line.size as u64,
        digest,
    })
}

/// Gives an id with small numbers.
fn id_of(id: SmallId) -> FileId
    ensures { result ≡ unpacked_id id }
{
    FileId {
        node: part_of(id.node),
        copy: part_of(id.copy),
        revision: id.revision,
        offset: id.offset as u64,
    }
}

/// Gives what most node revisions have in small numbers, if they are.
fn small_node(id: FileId, count: u64, text: Option<Representation>) -> Option<SmallNode>
    ensures id { IfSome result (λ node. unpacked_id node.id ≡ id) }
    ensures count { IfSome result (λ node. node.count ≡ count) }
    ensures text { IfSome result (λ node. line_in node.text ≡ text) }
{
    Some(SmallNode {
        id: small_id(id)?,
        count: small(count)?,
        text: small_text(text)?,
    })
}

/// Keeps a node revision whose numbers are small.
fn kept_small(
    alloc: Global,
    node: SmallNode,
    properties: Option<Representation>,
    copyroot: Arc<Place>,
) -> Result<Kept, AllocError>
    ensures { IfOk result (λ kept. placed_value kept
        ≡ small_value node properties (arc_value copyroot)) }
{
    let Some(properties) = properties else {
        return Ok(Kept::Plain(node, copyroot));
    };
    let described = Described {
        properties,
        copyroot,
    };
    Ok(Kept::Described(node, Arc::new(alloc, described)?))
}

impl Placed {
    /// Keeps where a node revision stands.
    pub(crate) fn new(
        alloc: Global,
        id: FileId,
        count: u64,
        text: Option<Representation>,
        properties: Option<Representation>,
        copyroot: Arc<Place>,
    ) -> Result<Self, AllocError>
        ensures { IfOk result (λ placed. placed ≡ record {
          id = id;
          count = count;
          text = text;
          properties = properties;
          copyroot = arc_value copyroot;
        }) }
    {
        if let Some(node) = small_node(id, count, text) {
            let kept = kept_small(alloc, node, properties, copyroot)?;
            return Ok(Placed { kept });
        }
        let whole = Whole {
            id,
            count,
            text,
            properties,
            copyroot,
        };
        Ok(Placed {
            kept: Kept::Large(Arc::new(alloc, whole)?),
        })
    }

    /// Gives the id.
    pub fn id(&self) -> FileId
        ensures { result ≡ self.now.id }
    {
        match &self.kept {
            Kept::Plain(node, _) | Kept::Described(node, _) => id_of(node.id),
            Kept::Large(whole) => whole.id,
        }
    }

    /// Gives the offset of the id.
    pub fn offset(&self) -> u64
        ensures { result ≡ self.now.id.offset }
    {
        match &self.kept {
            Kept::Plain(node, _) | Kept::Described(node, _) => node.id.offset as u64,
            Kept::Large(whole) => whole.id.offset,
        }
    }

    /// Counts the node revisions that it was made from.
    pub fn count(&self) -> u64
        ensures { result ≡ self.now.count }
    {
        match &self.kept {
            Kept::Plain(node, _) | Kept::Described(node, _) => node.count as u64,
            Kept::Large(whole) => whole.count,
        }
    }

    /// Gives the line of the text, or of the entries.
    pub fn text(&self) -> Option<Representation>
        ensures { result ≡ self.now.text }
    {
        match &self.kept {
            Kept::Plain(node, _) | Kept::Described(node, _) => line_of(node.text),
            Kept::Large(whole) => whole.text,
        }
    }

    /// Gives the line of the properties.
    pub fn properties(&self) -> Option<Representation>
        ensures { result ≡ self.now.properties }
    {
        match &self.kept {
            Kept::Plain(_, _) => None,
            Kept::Described(_, described) => Some(described.properties),
            Kept::Large(whole) => whole.properties,
        }
    }

    /// Shows the root of the copy.
    pub fn copyroot(&self) -> &Arc<Place>
        ensures { arc_value result.now ≡ self.now.copyroot }
    {
        match &self.kept {
            Kept::Plain(_, copyroot) => copyroot,
            Kept::Described(_, described) => &described.copyroot,
            Kept::Large(whole) => &whole.copyroot,
        }
    }
}

//! Ids of node revisions.
ghost use Rattle.std.specs.Prelude.{◌≡◌, ◌++◌, OnOk};
ghost use Rattle.fsfs_text.specs.Ids.{part_text, id_text, part_of, id_of};

use crate::numeral::{
    append_base_36, append_number, parse_decimal, parse_decimal_32, parse_number,
};
use crate::split::{split_once, without_prefix};
use std::alloc::AllocError;

/// Holds a node id or a copy id: a number, and from format 3 on the revision that it is counted in.
#[derive(Clone, Copy, Debug, PartialEq, Eq)]
pub struct IdPart {
    pub number: u128,
    pub revision: Option<u32>,
}

/// Names a node revision: which node it is of and which copy, and where it stands.
#[derive(Clone, Copy, Debug, PartialEq, Eq)]
pub struct FileId {
    pub node: IdPart,
    pub copy: IdPart,
    pub revision: u32,
    pub offset: u64,
}

/// Appends a node id or a copy id: its number in base 36, and behind `-` its revision.
fn append_part(out: &mut Vec<u8>, part: IdPart) -> Result<(), AllocError>
    ensures { OnOk result (out.new.items ≡ out.old.items ++ part_text part) }
{
    append_base_36(out, part.number)?;
    match part.revision {
        None => Ok(()),
        Some(revision) => {
            out.push(b'-')?;
            append_number(out, revision as u64)
        }
    }
}

/// Appends an id: `<node>.<copy>.r<revision>/<offset>`.
pub fn append_id(out: &mut Vec<u8>, id: FileId) -> Result<(), AllocError>
    ensures { OnOk result (out.new.items ≡ out.old.items ++ id_text id) }
{
    append_part(out, id.node)?;
    out.push(b'.')?;
    append_part(out, id.copy)?;
    out.extend_from_slice(b".r")?;
    append_number(out, id.revision as u64)?;
    out.push(b'/')?;
    append_number(out, id.offset)
}

/// Reads the node id or copy id that the bytes spell.
#[tactic(auto, unfolding(crate::specs::Ids::part_of))]
fn parse_part(bytes: &[u8]) -> Option<IdPart>
    ensures { result ≡ part_of bytes.now }
{
    match split_once(bytes, b'-') {
        None => {
            let number = parse_number(bytes, 36, u128::MAX)?;
            Some(IdPart {
                number,
                revision: None,
            })
        }
        Some((front, digits)) => {
            let number = parse_number(front, 36, u128::MAX)?;
            let revision = parse_decimal_32(digits)?;
            Some(IdPart {
                number,
                revision: Some(revision),
            })
        }
    }
}

/// Reads the id that the bytes spell.
#[tactic(auto, unfolding(crate::specs::Ids::id_of))]
pub fn parse_id(bytes: &[u8]) -> Option<FileId>
    ensures { result ≡ id_of bytes.now }
{
    let (node, rest) = split_once(bytes, b'.')?;
    let (copy, rest) = split_once(rest, b'.')?;
    let rest = without_prefix(rest, b"r")?;
    let (revision, offset) = split_once(rest, b'/')?;
    let node = parse_part(node)?;
    let copy = parse_part(copy)?;
    let revision = parse_decimal_32(revision)?;
    let offset = parse_decimal(offset)?;
    Some(FileId {
        node,
        copy,
        revision,
        offset,
    })
}

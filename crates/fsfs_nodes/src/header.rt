//! The lines of a node revision.
ghost use Rattle.std.specs.Prelude.{◌≡◌, option_map};
ghost use Rattle.fsfs_text.specs.{Reading.{Answers, Gives, or_bad}, Splits.is_free, Ids.id_of, Representations.representation_of, Places.place_of};
ghost use Rattle.fsfs_nodes.specs.Headers.{line_pair, line_pairs, name_value, value_of, block_of, optional};

use fsfs_text::{
    FileFault, FileId, Place, Representation, line_at, parse_id, parse_place, parse_representation,
    split_once, without_prefix,
};
use std::alloc::Global;

/// Holds the two parts of a line `name: value`.
#[derive(Clone, Copy)]
pub struct HeaderLine<'a> {
    pub name: &'a [u8],
    pub value: &'a [u8],
}

/// Says whether a name has no NUL.
fn is_name(name: &[u8]) -> bool
    ensures { result ≡ is_free 0 name.now }
{
    name.iter().all(|byte| *byte != 0)
}

/// Reads the name and the value of a line.
#[tactic(auto, unfolding(crate::specs::Headers::name_value))]
fn parse_line(line: &[u8]) -> Option<HeaderLine<'_>>
    ensures { option_map line_pair result ≡ name_value line.now }
{
    let (name, rest) = split_once(line, b':')?;
    let value = without_prefix(rest, b" ")?;
    if !is_name(name) {
        return None;
    }
    Some(HeaderLine { name, value })
}

/// Reads the lines in front, up to an empty one.
///
/// # Errors
///
/// `Truncated` where no empty line comes, `BadLine` where a line before it has no name, or one with a NUL, `NoMemory`.
pub fn read_block(alloc: Global, bytes: &[u8]) -> Result<Vec<HeaderLine<'_>>, FileFault>
    ensures { Answers (λ v. line_pairs v.items) result (block_of bytes.now) }
{
    let mut lines = Vec::new(alloc);
    let mut rest = bytes;
    for _ in 0..bytes.len() {
        let (line, behind) = line_at(rest)?;
        if line.is_empty() {
            return Ok(lines);
        }
        let Some(parsed) = parse_line(line) else {
            return Err(FileFault::BadLine);
        };
        lines.push(parsed)?;
        rest = behind;
    }
    Err(FileFault::Truncated)
}

/// Finds the value of the first line of a name.
pub fn value_of<'a>(lines: &[HeaderLine<'a>], name: &[u8]) -> Option<&'a [u8]>
    ensures { option_map (λ v. v.now) result ≡ value_of name.now (line_pairs lines.now) }
{
    for line in lines {
        if line.name == name {
            return Some(line.value);
        }
    }
    None
}

/// Finds the value of a line that has to be there.
pub fn needed<'a>(lines: &[HeaderLine<'a>], name: &[u8]) -> Result<&'a [u8], FileFault>
    ensures { Gives (λ v. v.now) result (or_bad (value_of name.now (line_pairs lines.now))) }
{
    match value_of(lines, name) {
        Some(value) => Ok(value),
        None => Err(FileFault::BadLine),
    }
}

/// Reads the id that a line says, where the line is there.
pub fn optional_id(lines: &[HeaderLine<'_>], name: &[u8]) -> Result<Option<FileId>, FileFault>
    ensures { Gives (λ id. id) result (optional id_of (value_of name.now (line_pairs lines.now))) }
{
    let Some(value) = value_of(lines, name) else {
        return Ok(None);
    };
    match parse_id(value) {
        Some(id) => Ok(Some(id)),
        None => Err(FileFault::BadLine),
    }
}

/// Reads the representation that a line names, where the line is there.
pub fn optional_representation(
    lines: &[HeaderLine<'_>],
    name: &[u8],
) -> Result<Option<Representation>, FileFault>
    ensures { Gives (λ named. named) result
        (optional representation_of (value_of name.now (line_pairs lines.now))) }
{
    let Some(value) = value_of(lines, name) else {
        return Ok(None);
    };
    match parse_representation(value) {
        Some(representation) => Ok(Some(representation)),
        None => Err(FileFault::BadLine),
    }
}

/// Reads the place that a line names, where the line is there.
pub fn optional_place(
    alloc: Global,
    lines: &[HeaderLine<'_>],
    name: &[u8],
) -> Result<Option<Place>, FileFault>
    ensures { Answers (λ place. place) result
        (optional place_of (value_of name.now (line_pairs lines.now))) }
{
    let Some(value) = value_of(lines, name) else {
        return Ok(None);
    };
    match parse_place(alloc, value) {
        Ok(place) => Ok(Some(place)),
        Err(fault) => Err(fault),
    }
}

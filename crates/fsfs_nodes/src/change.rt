//! The changed paths of a revision.
ghost use Rattle.std.specs.Prelude.{◌≡◌, ◌++◌, OnOk, option_map};
ghost use Rattle.fsfs_text.specs.Reading.{Answers};
ghost use Rattle.fsfs_nodes.specs.Changes.{action_text, action_of, flag_text, flag_of, source_text, what_text, flags_text, change_bytes, changes_bytes};
ghost use Rattle.fsfs_nodes.specs.Changes.{change_line, source_of, change_front, change_with, change_of, changes_of};

use byte_string::ByteString;
use fsfs_text::{FileFault, Place, append_place, line_at, parse_place, split_once};
use std::alloc::{AllocError, Global};

/// Says what was done at a path.
#[derive(Clone, Copy, Debug, PartialEq, Eq)]
pub enum FileAction {
    Add,
    Delete,
    Replace,
    Modify,
}

/// Says what was done at a path, whether the text and the properties were changed, and where it was
/// copied from. The word in front is the id of what stands there, or of what was deleted; other
/// servers leave the id there that it had in its transaction. No reader rests on it.
#[derive(Debug, Drop)]
pub struct FileChange {
    pub id: ByteString,
    pub action: FileAction,
    pub text: bool,
    pub properties: bool,
    pub path: ByteString,
    pub source: Option<Place>,
}

/// Holds the parts of the first line of a change.
#[derive(Clone, Copy)]
struct ChangeLine<'a> {
    id: &'a [u8],
    action: FileAction,
    text: bool,
    properties: bool,
    path: &'a [u8],
}

/// Appends `add`, `delete`, `replace` or `modify`.
fn append_action(out: &mut Vec<u8>, action: FileAction) -> Result<(), AllocError>
    ensures { OnOk result (out.new.items ≡ out.old.items ++ action_text action) }
{
    match action {
        FileAction::Add => out.extend_from_slice(b"add"),
        FileAction::Delete => out.extend_from_slice(b"delete"),
        FileAction::Replace => out.extend_from_slice(b"replace"),
        FileAction::Modify => out.extend_from_slice(b"modify"),
    }
}

/// Appends `true` or `false`.
fn append_flag(out: &mut Vec<u8>, flag: bool) -> Result<(), AllocError>
    ensures { OnOk result (out.new.items ≡ out.old.items ++ flag_text flag) }
{
    if flag {
        out.extend_from_slice(b"true")
    } else {
        out.extend_from_slice(b"false")
    }
}

/// Appends the line of a copy source, which is empty where there is none.
fn append_source(out: &mut Vec<u8>, source: &Option<Place>) -> Result<(), AllocError>
    ensures { OnOk result (out.new.items ≡ out.old.items ++ source_text source.now) }
{
    if let Some(place) = source {
        append_place(out, place)?;
    }
    out.push(b'\n')?;
    Ok(())
}

/// Appends the id and what was done.
fn append_what(out: &mut Vec<u8>, change: &FileChange) -> Result<(), AllocError>
    ensures { OnOk result (out.new.items ≡ out.old.items ++ what_text change.now) }
{
    out.extend_from_slice(change.id.as_slice())?;
    out.push(b' ')?;
    append_action(out, change.action)?;
    out.push(b' ')?;
    Ok(())
}

/// Appends whether the text and the properties were changed.
fn append_flags(out: &mut Vec<u8>, change: &FileChange) -> Result<(), AllocError>
    ensures { OnOk result (out.new.items ≡ out.old.items ++ flags_text change.now) }
{
    append_flag(out, change.text)?;
    out.push(b' ')?;
    append_flag(out, change.properties)?;
    out.push(b' ')?;
    Ok(())
}

/// Appends a change: `<id> <action> <text> <props> <path>`, and its copy source on the next line.
fn append_change(out: &mut Vec<u8>, change: &FileChange) -> Result<(), AllocError>
    ensures { OnOk result (out.new.items ≡ out.old.items ++ change_bytes change.now) }
{
    append_what(out, change)?;
    append_flags(out, change)?;
    out.extend_from_slice(change.path.as_slice())?;
    out.push(b'\n')?;
    append_source(out, &change.source)
}

/// Appends changes, in their order.
pub fn append_changes(out: &mut Vec<u8>, changes: &[FileChange]) -> Result<(), AllocError>
    ensures { OnOk result (out.new.items ≡ out.old.items ++ changes_bytes changes.now) }
{
    for change in changes {
        append_change(out, change)?;
    }
    Ok(())
}

/// Reads the action that the bytes spell.
#[tactic(auto, unfolding(crate::specs::Changes::action_of))]
fn parse_action(bytes: &[u8]) -> Option<FileAction>
    ensures { result ≡ action_of bytes.now }
{
    if bytes == b"add".as_slice() {
        Some(FileAction::Add)
    } else if bytes == b"delete".as_slice() {
        Some(FileAction::Delete)
    } else if bytes == b"replace".as_slice() {
        Some(FileAction::Replace)
    } else if bytes == b"modify".as_slice() {
        Some(FileAction::Modify)
    } else {
        None
    }
}

/// Reads `true` or `false`.
#[tactic(auto, unfolding(crate::specs::Changes::flag_of))]
fn parse_flag(bytes: &[u8]) -> Option<bool>
    ensures { result ≡ flag_of bytes.now }
{
    if bytes == b"true".as_slice() {
        Some(true)
    } else if bytes == b"false".as_slice() {
        Some(false)
    } else {
        None
    }
}

/// Reads the first line of a change.
#[tactic(auto, unfolding(crate::specs::Changes::change_line))]
fn parse_line(line: &[u8]) -> Option<ChangeLine<'_>>
    ensures { option_map change_front result ≡ change_line line.now }
{
    let (id, rest) = split_once(line, b' ')?;
    let (action, rest) = split_once(rest, b' ')?;
    let (text, rest) = split_once(rest, b' ')?;
    let (properties, path) = split_once(rest, b' ')?;
    let action = parse_action(action)?;
    let text = parse_flag(text)?;
    let properties = parse_flag(properties)?;
    Some(ChangeLine {
        id,
        action,
        text,
        properties,
        path,
    })
}

/// Reads the copy source that a line says.
fn read_source(alloc: Global, line: &[u8]) -> Result<Option<Place>, FileFault>
    ensures { Answers (λ source. source) result (source_of line.now) }
{
    if line.is_empty() {
        return Ok(None);
    }
    match parse_place(alloc, line) {
        Ok(place) => Ok(Some(place)),
        Err(fault) => Err(fault),
    }
}

/// Reads the change in front, and gives what stands behind it too.
#[tactic(auto, unfolding(crate::specs::Changes::change_of))]
fn read_change(alloc: Global, bytes: &[u8]) -> Result<(FileChange, &[u8]), FileFault>
    ensures { Answers (λ p. (p.0, p.1.now)) result (change_of bytes.now) }
{
    let (line, rest) = line_at(bytes)?;
    let Some(front) = parse_line(line) else {
        return Err(FileFault::BadLine);
    };
    let (line, rest) = line_at(rest)?;
    let source = read_source(alloc, line)?;
    let id = ByteString::from_slice(alloc, front.id)?;
    let path = ByteString::from_slice(alloc, front.path)?;
    Ok((change_with(front, id, path, source), rest))
}

/// Makes a change of these parts.
fn change_with(
    front: ChangeLine<'_>,
    id: ByteString,
    path: ByteString,
    source: Option<Place>,
) -> FileChange
    ensures { result ≡ change_with (change_front front.entry) id path source }
{
    FileChange {
        id,
        action: front.action,
        text: front.text,
        properties: front.properties,
        path,
        source,
    }
}

/// Reads the changes that all of the bytes say, in the order in which they stand there.
///
/// # Errors
///
/// `Truncated` where a line isn't whole, `BadLine` where one is no change, or `NoMemory`.
pub fn read_changes(alloc: Global, bytes: &[u8]) -> Result<Vec<FileChange>, FileFault>
    ensures { Answers (λ v. v.items) result (changes_of bytes.now) }
{
    let mut changes = Vec::new(alloc);
    let mut rest = bytes;
    for _ in 0..bytes.len() {
        if rest.is_empty() {
            return Ok(changes);
        }
        let (change, behind) = read_change(alloc, rest)?;
        changes.push(change)?;
        rest = behind;
    }
    if rest.is_empty() {
        Ok(changes)
    } else {
        Err(FileFault::BadLine)
    }
}

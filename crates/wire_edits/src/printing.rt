//! The bytes that commands of an edit are sent as.
ghost use Rattle.std.specs.Prelude.{◌++◌, ◌∷◌, []};
ghost use Rattle.items.specs.{Print.{AppendsBytes, AppendsItem, AppendsItems, WritesItem, printed}, Values.{both, none, number, only, string, word}};
ghost use Rattle.wire_edits.specs.Printing.{command, command_item, absent_items, added_items, checksum_items, deleted_items, opened_items, property_items};
ghost use Rattle.wire_edits.specs.Printing.{revision_item, root_items, source_item, string_item};

use crate::editing::{
    AbsentEntry, AddedEntry, DeletedEntry, EditorCommand, OpenedEntry, PropertyChange,
};
use byte_string::ByteString;
use items::{append_number, append_string, append_word};
use std::alloc::AllocError;

/// Writes a command at the end, as the bytes of its item. An `Err` changes nothing.
pub fn write_command(command: &EditorCommand, out: &mut Vec<u8>) -> Result<(), AllocError>
    ensures { WritesItem result out.old (command_item command.now) out.new }
{
    let len = out.len();
    let written = append_command(command, out);
    if written.is_err() {
        out.truncate(len);
    }
    written
}

// What follows appends bytes: an `Err` leaves a part of them behind the old ones.

/// Appends the bytes of a command's item.
fn append_command(command: &EditorCommand, out: &mut Vec<u8>) -> Result<(), AllocError>
    ensures { AppendsItem result out.old (command_item command.now) out.new }
{
    match command {
        EditorCommand::TargetRevision(n) => append_revision_alone(b"target-rev", *n, out),
        EditorCommand::OpenRoot(revision, token) => append_root(
            b"open-root",
            *revision,
            token,
            out,
        ),
        EditorCommand::DeleteEntry(entry) => append_deleted(b"delete-entry", entry, out),
        EditorCommand::AddDirectory(entry) => append_added(b"add-dir", entry, out),
        EditorCommand::AddFile(entry) => append_added(b"add-file", entry, out),
        EditorCommand::OpenDirectory(entry) => append_opened(b"open-dir", entry, out),
        EditorCommand::OpenFile(entry) => append_opened(b"open-file", entry, out),
        EditorCommand::AbsentDirectory(entry) => append_absent(b"absent-dir", entry, out),
        EditorCommand::AbsentFile(entry) => append_absent(b"absent-file", entry, out),
        EditorCommand::ChangeDirectoryProperty(change) => {
            append_property(b"change-dir-prop", change, out)
        }
        EditorCommand::ChangeFileProperty(change) => {
            append_property(b"change-file-prop", change, out)
        }
        EditorCommand::ApplyTextDelta(token, checksum) => {
            append_checksum(b"apply-textdelta", token, checksum, out)
        }
        EditorCommand::TextDeltaChunk(token, bytes) => append_chunk(
            b"textdelta-chunk",
            token,
            bytes,
            out,
        ),
        EditorCommand::TextDeltaEnd(token) => append_token(b"textdelta-end", token, out),
        EditorCommand::CloseDirectory(token) => append_token(b"close-dir", token, out),
        EditorCommand::CloseFile(token, checksum) => {
            append_checksum(b"close-file", token, checksum, out)
        }
        EditorCommand::CloseEdit => append_alone(b"close-edit", out),
        EditorCommand::AbortEdit => append_alone(b"abort-edit", out),
    }
}

/// Appends `( name ( `.
fn append_name(name: &[u8], out: &mut Vec<u8>) -> Result<(), AllocError>
    ensures { AppendsBytes result out.old
        (40 ∷ 32 ∷ (printed (word name.now) ++ (40 ∷ 32 ∷ []))) out.new }
{
    out.extend_from_slice(b"( ")?;
    append_word(name, out)?;
    out.extend_from_slice(b"( ")
}

/// Appends `) ) `.
fn append_end(out: &mut Vec<u8>) -> Result<(), AllocError>
    ensures { AppendsBytes result out.old (41 ∷ 32 ∷ 41 ∷ 32 ∷ []) out.new }
{
    out.extend_from_slice(b") ) ")
}

/// Appends `[ rev ]`.
fn append_revision(revision: Option<u64>, out: &mut Vec<u8>) -> Result<(), AllocError>
    ensures { AppendsItem result out.old (revision_item revision) out.new }
{
    out.extend_from_slice(b"( ")?;
    if let Some(n) = revision {
        append_number(n, out)?;
    }
    out.extend_from_slice(b") ")
}

/// Appends `[ string ]`.
fn append_optional(text: &Option<ByteString>, out: &mut Vec<u8>) -> Result<(), AllocError>
    ensures { AppendsItem result out.old (string_item text.now) out.new }
{
    out.extend_from_slice(b"( ")?;
    if let Some(text) = text {
        append_string(text.as_slice(), out)?;
    }
    out.extend_from_slice(b") ")
}

/// Appends `[ copy-path copy-rev ]`.
fn append_source(source: &Option<(ByteString, u64)>, out: &mut Vec<u8>) -> Result<(), AllocError>
    ensures { AppendsItem result out.old (source_item source.now) out.new }
{
    out.extend_from_slice(b"( ")?;
    if let Some((path, revision)) = source {
        append_string(path.as_slice(), out)?;
        append_number(*revision, out)?;
    }
    out.extend_from_slice(b") ")
}

/// Appends `string string`.
fn append_two(first: &ByteString, second: &ByteString, out: &mut Vec<u8>) -> Result<(), AllocError>
    ensures { AppendsItems result out.old
        (both (string first.now) (string second.now)) out.new }
{
    append_string(first.as_slice(), out)?;
    append_string(second.as_slice(), out)
}

/// Appends `( name ( ) )`.
fn append_alone(name: &[u8], out: &mut Vec<u8>) -> Result<(), AllocError>
    ensures { AppendsItem result out.old (command name.now none) out.new }
{
    append_name(name, out)?;
    append_end(out)
}

/// Appends `( name ( rev ) )`.
fn append_revision_alone(name: &[u8], revision: u64, out: &mut Vec<u8>) -> Result<(), AllocError>
    ensures { AppendsItem result out.old (command name.now (only (number revision))) out.new }
{
    append_name(name, out)?;
    append_number(revision, out)?;
    append_end(out)
}

/// Appends `[ rev ] token`.
fn append_root_params(
    revision: Option<u64>,
    token: &ByteString,
    out: &mut Vec<u8>,
) -> Result<(), AllocError>
    ensures { AppendsItems result out.old (root_items revision token.now) out.new }
{
    append_revision(revision, out)?;
    append_string(token.as_slice(), out)
}

/// Appends `( name ( [ rev ] token ) )`.
fn append_root(
    name: &[u8],
    revision: Option<u64>,
    token: &ByteString,
    out: &mut Vec<u8>,
) -> Result<(), AllocError>
    ensures { AppendsItem result out.old
        (command name.now (root_items revision token.now)) out.new }
{
    append_name(name, out)?;
    append_root_params(revision, token, out)?;
    append_end(out)
}

/// Appends `path [ rev ] parent`.
fn append_deleted_params(entry: &DeletedEntry, out: &mut Vec<u8>) -> Result<(), AllocError>
    ensures { AppendsItems result out.old (deleted_items entry.now) out.new }
{
    append_string(entry.path.as_slice(), out)?;
    append_root_params(entry.revision, &entry.parent, out)
}

/// Appends `( name ( path [ rev ] parent ) )`.
fn append_deleted(name: &[u8], entry: &DeletedEntry, out: &mut Vec<u8>) -> Result<(), AllocError>
    ensures { AppendsItem result out.old (command name.now (deleted_items entry.now)) out.new }
{
    append_name(name, out)?;
    append_deleted_params(entry, out)?;
    append_end(out)
}

/// Appends `path parent token [ copy-path copy-rev ]`.
fn append_added_params(entry: &AddedEntry, out: &mut Vec<u8>) -> Result<(), AllocError>
    ensures { AppendsItems result out.old (added_items entry.now) out.new }
{
    append_two(&entry.path, &entry.parent, out)?;
    append_string(entry.token.as_slice(), out)?;
    append_source(&entry.source, out)
}

/// Appends `( name ( path parent token [ copy-path copy-rev ] ) )`.
fn append_added(name: &[u8], entry: &AddedEntry, out: &mut Vec<u8>) -> Result<(), AllocError>
    ensures { AppendsItem result out.old (command name.now (added_items entry.now)) out.new }
{
    append_name(name, out)?;
    append_added_params(entry, out)?;
    append_end(out)
}

/// Appends `path parent token [ rev ]`.
fn append_opened_params(entry: &OpenedEntry, out: &mut Vec<u8>) -> Result<(), AllocError>
    ensures { AppendsItems result out.old (opened_items entry.now) out.new }
{
    append_two(&entry.path, &entry.parent, out)?;
    append_string(entry.token.as_slice(), out)?;
    append_revision(entry.revision, out)
}

/// Appends `( name ( path parent token [ rev ] ) )`.
fn append_opened(name: &[u8], entry: &OpenedEntry, out: &mut Vec<u8>) -> Result<(), AllocError>
    ensures { AppendsItem result out.old (command name.now (opened_items entry.now)) out.new }
{
    append_name(name, out)?;
    append_opened_params(entry, out)?;
    append_end(out)
}

/// Appends `( name ( path parent ) )`.
fn append_absent(name: &[u8], entry: &AbsentEntry, out: &mut Vec<u8>) -> Result<(), AllocError>
    ensures { AppendsItem result out.old (command name.now (absent_items entry.now)) out.new }
{
    append_name(name, out)?;
    append_two(&entry.path, &entry.parent, out)?;
    append_end(out)
}

/// Appends `token name [ value ]`.
fn append_property_params(change: &PropertyChange, out: &mut Vec<u8>) -> Result<(), AllocError>
    ensures { AppendsItems result out.old (property_items change.now) out.new }
{
    append_two(&change.token, &change.name, out)?;
    append_optional(&change.value, out)
}

/// Appends `( name ( token name [ value ] ) )`.
fn append_property(
    name: &[u8],
    change: &PropertyChange,
    out: &mut Vec<u8>,
) -> Result<(), AllocError>
    ensures { AppendsItem result out.old
        (command name.now (property_items change.now)) out.new }
{
    append_name(name, out)?;
    append_property_params(change, out)?;
    append_end(out)
}

/// Appends `token [ checksum ]`.
fn append_checksum_params(
    token: &ByteString,
    checksum: &Option<ByteString>,
    out: &mut Vec<u8>,
) -> Result<(), AllocError>
    ensures { AppendsItems result out.old (checksum_items token.now checksum.now) out.new }
{
    append_string(token.as_slice(), out)?;
    append_optional(checksum, out)
}

/// Appends `( name ( token [ checksum ] ) )`.
fn append_checksum(
    name: &[u8],
    token: &ByteString,
    checksum: &Option<ByteString>,
    out: &mut Vec<u8>,
) -> Result<(), AllocError>
    ensures { AppendsItem result out.old
        (command name.now (checksum_items token.now checksum.now)) out.new }
{
    append_name(name, out)?;
    append_checksum_params(token, checksum, out)?;
    append_end(out)
}

/// Appends `( name ( token bytes ) )`.
fn append_chunk(
    name: &[u8],
    token: &ByteString,
    bytes: &ByteString,
    out: &mut Vec<u8>,
) -> Result<(), AllocError>
    ensures { AppendsItem result out.old
        (command name.now (both (string token.now) (string bytes.now))) out.new }
{
    append_name(name, out)?;
    append_two(token, bytes, out)?;
    append_end(out)
}

/// Appends `( name ( token ) )`.
fn append_token(name: &[u8], token: &ByteString, out: &mut Vec<u8>) -> Result<(), AllocError>
    ensures { AppendsItem result out.old (command name.now (only (string token.now))) out.new }
{
    append_name(name, out)?;
    append_string(token.as_slice(), out)?;
    append_end(out)
}

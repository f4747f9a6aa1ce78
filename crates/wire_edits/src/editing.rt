//! The commands of an edit.
ghost use Rattle.std.specs.Prelude.{◌≡◌};
ghost use Rattle.items.specs.View.{value_of, values_of};
ghost use Rattle.wire_forms.specs.Answering.{Answers, Reads};
ghost use Rattle.wire_edits.specs.Editing.{editor_command, editor_command_name, editor_command_with, target_revision, open_root, ends_edit, is_last};

use crate::places::{read_absent, read_added, read_deleted, read_opened};
use crate::texts::{read_chunk, read_property, read_token_alone, read_with_checksum};
use byte_string::ByteString;
use items::Item;
use wire_forms::CommandFault::{self, BadParameters, UnknownName};
use wire_forms::{named, read_form, read_list, read_number, read_optional_number, read_string};

/// An entry that is added: its path, the token of the directory that it is added to, its own token,
/// and the path or URL and the revision of which it is a copy.
#[derive(Drop)]
pub struct AddedEntry {
    pub path: ByteString,
    pub parent: ByteString,
    pub token: ByteString,
    pub source: Option<(ByteString, u64)>,
}

/// An entry that is opened: its path, the token of the directory that it is in, its own token, and
/// the revision that the client has of it.
#[derive(Drop)]
pub struct OpenedEntry {
    pub path: ByteString,
    pub parent: ByteString,
    pub token: ByteString,
    pub revision: Option<u64>,
}

/// An entry that is deleted: its path, the token of the directory that it is in, and the revision
/// that the client has of it.
#[derive(Drop)]
pub struct DeletedEntry {
    pub path: ByteString,
    pub parent: ByteString,
    pub revision: Option<u64>,
}

/// An entry that the client must not see: its path, and the token of the directory that it is in.
#[derive(Drop)]
pub struct AbsentEntry {
    pub path: ByteString,
    pub parent: ByteString,
}

/// A property of what is open under a token: its name, and its value, or `None` where it is taken
/// out.
#[derive(Drop)]
pub struct PropertyChange {
    pub token: ByteString,
    pub name: ByteString,
    pub value: Option<ByteString>,
}

/// A command of an edit, with its parameters. Paths are relative to the session's URL; a checksum
/// is the MD5 of a text, as hexadecimal digits.
#[derive(Drop)]
pub enum EditorCommand {
    /// Names the revision that an edit leads to: `( target-rev ( rev ) )`.
    TargetRevision(u64),
    /// Opens the directory at the session's URL: `( open-root ( [ rev ] token ) )`.
    OpenRoot(Option<u64>, ByteString),
    /// Deletes an entry: `( delete-entry ( path [ rev ] parent ) )`.
    DeleteEntry(DeletedEntry),
    /// Adds a directory: `( add-dir ( path parent token [ copy-path copy-rev ] ) )`.
    AddDirectory(AddedEntry),
    /// Adds a file: `( add-file ( path parent token [ copy-path copy-rev ] ) )`.
    AddFile(AddedEntry),
    /// Opens a directory: `( open-dir ( path parent token [ rev ] ) )`.
    OpenDirectory(OpenedEntry),
    /// Opens a file: `( open-file ( path parent token [ rev ] ) )`.
    OpenFile(OpenedEntry),
    /// Names a directory that the client must not see: `( absent-dir ( path parent ) )`.
    AbsentDirectory(AbsentEntry),
    /// Names a file that the client must not see: `( absent-file ( path parent ) )`.
    AbsentFile(AbsentEntry),
    /// Changes a property of an open directory: `( change-dir-prop ( token name [ value ] ) )`.
    ChangeDirectoryProperty(PropertyChange),
    /// Changes a property of an open file: `( change-file-prop ( token name [ value ] ) )`.
    ChangeFileProperty(PropertyChange),
    /// Begins a text delta of an open file, over a text of this checksum: `( apply-textdelta (
    /// token [ checksum ] ) )`.
    ApplyTextDelta(ByteString, Option<ByteString>),
    /// Brings the next bytes of a text delta: `( textdelta-chunk ( token bytes ) )`.
    TextDeltaChunk(ByteString, ByteString),
    /// Ends a text delta: `( textdelta-end ( token ) )`.
    TextDeltaEnd(ByteString),
    /// Closes a directory: `( close-dir ( token ) )`.
    CloseDirectory(ByteString),
    /// Closes a file, whose text has this checksum: `( close-file ( token [ checksum ] ) )`.
    CloseFile(ByteString, Option<ByteString>),
    /// Commits the edit: `( close-edit ( ) )`.
    CloseEdit,
    /// Gives the edit up: `( abort-edit ( ) )`.
    AbortEdit,
}

impl EditorCommand {
    /// Reads the command that an item is: `( name ( params ) )`. Items after the parameters that a
    /// command knows are ignored.
    pub fn from_item(item: &Item) -> Result<EditorCommand, CommandFault>
        ensures { Answers result (editor_command (value_of item.now)) }
    {
        let (name, params) = read_form(item).ok_or(BadParameters)?;
        let name = editor_command_name(name).ok_or(UnknownName)?;
        read_command(name, params)
    }
}

/// The name of a command of an edit.
#[derive(Clone, Copy)]
pub enum CommandName {
    TargetRevision,
    OpenRoot,
    DeleteEntry,
    AddDirectory,
    OpenDirectory,
    ChangeDirectoryProperty,
    CloseDirectory,
    AbsentDirectory,
    AddFile,
    OpenFile,
    ChangeFileProperty,
    ApplyTextDelta,
    TextDeltaChunk,
    TextDeltaEnd,
    CloseFile,
    AbsentFile,
    CloseEdit,
    AbortEdit,
}

/// The names of the commands, as they are sent.
const COMMAND_NAMES: [(&[u8], CommandName); 18] = [
    (b"target-rev", CommandName::TargetRevision),
    (b"open-root", CommandName::OpenRoot),
    (b"delete-entry", CommandName::DeleteEntry),
    (b"add-dir", CommandName::AddDirectory),
    (b"open-dir", CommandName::OpenDirectory),
    (b"change-dir-prop", CommandName::ChangeDirectoryProperty),
    (b"close-dir", CommandName::CloseDirectory),
    (b"absent-dir", CommandName::AbsentDirectory),
    (b"add-file", CommandName::AddFile),
    (b"open-file", CommandName::OpenFile),
    (b"change-file-prop", CommandName::ChangeFileProperty),
    (b"apply-textdelta", CommandName::ApplyTextDelta),
    (b"textdelta-chunk", CommandName::TextDeltaChunk),
    (b"textdelta-end", CommandName::TextDeltaEnd),
    (b"close-file", CommandName::CloseFile),
    (b"absent-file", CommandName::AbsentFile),
    (b"close-edit", CommandName::CloseEdit),
    (b"abort-edit", CommandName::AbortEdit),
];

/// Finds the command of an edit that has this name.
fn editor_command_name(name: &[u8]) -> Option<CommandName>
    ensures { result ≡ editor_command_name name.now }
{
    named(&COMMAND_NAMES, name)
}

/// Reads the command of a name that is known.
fn read_command(name: CommandName, params: &[Item]) -> Result<EditorCommand, CommandFault>
    ensures { Reads result (editor_command_with name (values_of params.now)) }
{
    match name {
        CommandName::TargetRevision => read_target_revision(params),
        CommandName::OpenRoot => read_open_root(params),
        CommandName::DeleteEntry => Ok(EditorCommand::DeleteEntry(read_deleted(params)?)),
        CommandName::AddDirectory => Ok(EditorCommand::AddDirectory(read_added(params)?)),
        CommandName::OpenDirectory => Ok(EditorCommand::OpenDirectory(read_opened(params)?)),
        CommandName::ChangeDirectoryProperty => {
            let change = read_property(params)?;
            Ok(EditorCommand::ChangeDirectoryProperty(change))
        }
        CommandName::CloseDirectory => {
            let token = read_token_alone(params)?;
            Ok(EditorCommand::CloseDirectory(token))
        }
        CommandName::AbsentDirectory => { Ok(EditorCommand::AbsentDirectory(read_absent(params)?)) }
        CommandName::AddFile => Ok(EditorCommand::AddFile(read_added(params)?)),
        CommandName::OpenFile => Ok(EditorCommand::OpenFile(read_opened(params)?)),
        CommandName::ChangeFileProperty => {
            let change = read_property(params)?;
            Ok(EditorCommand::ChangeFileProperty(change))
        }
        CommandName::ApplyTextDelta => {
            let (token, checksum) = read_with_checksum(params)?;
            Ok(EditorCommand::ApplyTextDelta(token, checksum))
        }
        CommandName::TextDeltaChunk => {
            let (token, bytes) = read_chunk(params)?;
            Ok(EditorCommand::TextDeltaChunk(token, bytes))
        }
        CommandName::TextDeltaEnd => {
            let token = read_token_alone(params)?;
            Ok(EditorCommand::TextDeltaEnd(token))
        }
        CommandName::CloseFile => {
            let (token, checksum) = read_with_checksum(params)?;
            Ok(EditorCommand::CloseFile(token, checksum))
        }
        CommandName::AbsentFile => Ok(EditorCommand::AbsentFile(read_absent(params)?)),
        CommandName::CloseEdit => Ok(EditorCommand::CloseEdit),
        CommandName::AbortEdit => Ok(EditorCommand::AbortEdit),
    }
}

/// Reads `( rev )`.
fn read_target_revision(params: &[Item]) -> Result<EditorCommand, CommandFault>
    ensures { Reads result (target_revision (values_of params.now)) }
{
    let (revision, _) = read_number(params).ok_or(BadParameters)?;
    Ok(EditorCommand::TargetRevision(revision))
}

/// Reads `( [ rev ] token )`.
fn read_open_root(params: &[Item]) -> Result<EditorCommand, CommandFault>
    ensures { Reads result (open_root (values_of params.now)) }
{
    let (revision, rest) = read_list(params).ok_or(BadParameters)?;
    let revision = read_optional_number(revision).ok_or(BadParameters)?;
    let (token, _) = read_string(rest).ok_or(BadParameters)?;
    Ok(EditorCommand::OpenRoot(revision, token.clone()?))
}

/// Says whether a command that is read by its name alone ends an edit; `None` for an item that is
/// not a command.
pub fn ends_edit(item: &Item) -> Option<bool>
    ensures { result ≡ ends_edit (value_of item.now) }
{
    let (name, _) = read_form(item)?;
    Some(is_last(name))
}

/// Says whether the command ends an edit.
fn is_last(name: &[u8]) -> bool
    ensures { result ≡ is_last name.now }
{
    name == b"abort-edit".as_slice() || name == b"close-edit".as_slice()
}

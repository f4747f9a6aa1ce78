//! The commands that delete, open and add entries. Where one of these fails that write, a part of what it says was
//! written.
ghost use Rattle.std.specs.Prelude.{option_map};
ghost use Rattle.svnpath.specs.Texts.{path_text};
ghost use Rattle.replays.specs.Commands.{add_command, delete_command, open_command};
ghost use Rattle.wire_replies.specs.Made.{Makes};

use crate::naming::{relative_text, text_of_path, token};
use byte_string::ByteString;
use std::alloc::{AllocError, Global};
use svnpath::Path;
use traces::Place;
use wire_edits::{AddedEntry, DeletedEntry, EditorCommand, OpenedEntry};

/// Makes the command that deletes an entry.
pub(crate) fn delete_command(alloc: Global, path: &Path) -> Result<EditorCommand, AllocError>
    ensures { Makes result (delete_command path.now) }
{
    Ok(EditorCommand::DeleteEntry(DeletedEntry {
        path: relative_text(alloc, path)?,
        parent: token(alloc, true, path.len().saturating_sub(1))?,
        revision: None,
    }))
}

/// Makes the command that opens an entry.
pub(crate) fn open_command(
    alloc: Global,
    is_directory: bool,
    path: &Path,
) -> Result<EditorCommand, AllocError>
    ensures { Makes result (open_command is_directory path.now) }
{
    let entry = OpenedEntry {
        path: relative_text(alloc, path)?,
        parent: token(alloc, true, path.len().saturating_sub(1))?,
        token: token(alloc, is_directory, path.len())?,
        revision: None,
    };
    if is_directory {
        Ok(EditorCommand::OpenDirectory(entry))
    } else {
        Ok(EditorCommand::OpenFile(entry))
    }
}

/// Makes the source of an added entry, if it has one: a path with a slash in front, and a revision.
fn source_told(
    alloc: Global,
    source: &Option<Place>,
) -> Result<Option<(ByteString, u64)>, AllocError>
    ensures { Makes result (option_map (λ at. (path_text at.path, at.revision)) source.now) }
{
    match source {
        None => Ok(None),
        Some(place) => Ok(Some((text_of_path(alloc, &place.path)?, place.revision))),
    }
}

/// Makes the command that adds an entry, by a copy where it has a source.
pub(crate) fn add_command(
    alloc: Global,
    is_directory: bool,
    path: &Path,
    source: &Option<Place>,
) -> Result<EditorCommand, AllocError>
    ensures { Makes result (add_command is_directory path.now source.now) }
{
    let entry = AddedEntry {
        path: relative_text(alloc, path)?,
        parent: token(alloc, true, path.len().saturating_sub(1))?,
        token: token(alloc, is_directory, path.len())?,
        source: source_told(alloc, source)?,
    };
    if is_directory {
        Ok(EditorCommand::AddDirectory(entry))
    } else {
        Ok(EditorCommand::AddFile(entry))
    }
}

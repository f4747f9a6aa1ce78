//! How much memory an edit may take.
ghost use Rattle.std.specs.Prelude.{◌≡◌};

use crate::editor::CommitEditor;
use byte_string::ByteString;
use edit_rules::{DeltaState, OpenTokens, Opened};
use repo_api::Repository;
use std::alloc::AllocError;
use wire_edits::{EditorCommand, PropertyChange};

/// About how many bytes of memory an edit takes at most: 4 GiB.
pub(crate) const EDIT_LIMIT: u64 = 4_294_967_296;

/// What a text delta counts as while it is read, in bytes: as much as the longest text of a file.
const OPEN_DELTA: u64 = 16_777_216;

/// How many times the bytes of a text count: in the edit, in the file of the revision that is saved, and as much again for that
/// file to grow.
const COPIES_OF_TEXT: u64 = 4;

/// What a command counts as beside its strings and the names of its path, in bytes.
const COMMAND: u64 = 512;

/// What a name of a path counts as beside its bytes: a path is kept in three places, of which one has the token too.
const NAME: usize = 192;

/// Says how many bytes the names of a relative path count as.
fn path_weight(path: &ByteString) -> usize {
    let mut weight = NAME.saturating_add(path.as_slice().len());
    for byte in path.as_slice() {
        if *byte == b'/' {
            weight = weight.saturating_add(NAME);
        }
    }
    weight
}

/// Says what an entry counts as, in bytes.
fn entry_weight(path: &ByteString, token: &ByteString) -> usize {
    path_weight(path).saturating_add(token.as_slice().len())
}

/// Says what a change of a property counts as: the bytes of its name and its value.
fn change_weight(change: &PropertyChange) -> usize {
    let name = change.name.as_slice().len();
    match &change.value {
        None => name,
        Some(value) => name.saturating_add(value.as_slice().len()),
    }
}

/// Says what an edit keeps of the strings of a command counts as, in bytes.
fn strings_weight(command: &EditorCommand) -> usize {
    match command {
        EditorCommand::OpenRoot(_, token) => token.as_slice().len(),
        EditorCommand::DeleteEntry(entry) => path_weight(&entry.path),
        EditorCommand::AddDirectory(entry) => entry_weight(&entry.path, &entry.token),
        EditorCommand::AddFile(entry) => entry_weight(&entry.path, &entry.token),
        EditorCommand::OpenDirectory(entry) => entry_weight(&entry.path, &entry.token),
        EditorCommand::OpenFile(entry) => entry_weight(&entry.path, &entry.token),
        EditorCommand::ChangeDirectoryProperty(change) => change_weight(change),
        EditorCommand::ChangeFileProperty(change) => change_weight(change),
        _ => 0,
    }
}

/// Says what a command counts as, in bytes, in an edit whose root has so many names. Of a piece of a delta only the text is
/// kept that it makes, which counts at the end of the delta, so that it does not matter in how many pieces one is sent.
fn weight(command: &EditorCommand, names: usize) -> u64 {
    let strings = strings_weight(command).saturating_add(names.saturating_mul(NAME));
    let weight = COMMAND.saturating_add(strings as u64);
    match command {
        EditorCommand::ApplyTextDelta(_, _) => weight.saturating_add(OPEN_DELTA),
        EditorCommand::TextDeltaChunk(_, _) => 0,
        _ => weight,
    }
}

/// Says what a text counts as once it is made, in bytes; `None` if its delta makes none.
fn text_weight(tokens: &OpenTokens, token: &ByteString) -> Option<u64> {
    match tokens.get(token) {
        Some(Opened::File(_, DeltaState::Reading(delta))) => match delta.text() {
            Ok(text) => Some(COPIES_OF_TEXT.saturating_mul(text.len() as u64)),
            Err(_) => None,
        },
        _ => None,
    }
}

/// Gives the room that is left once a text delta has ended: that of the open delta comes back, and the text takes its own.
fn room_behind(room: u64, text: Option<u64>) -> Option<u64> {
    match text {
        None => Some(room),
        Some(weight) => room.saturating_add(OPEN_DELTA).checked_sub(weight),
    }
}

impl<R: Repository> CommitEditor<R> {
    /// Takes what a command counts as from the room of the edit. An `Err` is that there isn't as much; no clause says
    /// when.
    pub(crate) fn take_room(&mut self, command: &EditorCommand) -> Result<(), AllocError>
        ensures { self.new ≡ self.old }
    {
        let Some(room) = self.room.checked_sub(weight(command, self.path.len())) else {
            return Err(AllocError);
        };
        let text = match command {
            EditorCommand::TextDeltaEnd(token) => text_weight(&self.tokens, token),
            _ => None,
        };
        let Some(room) = room_behind(room, text) else {
            return Err(AllocError);
        };
        self.room = room;
        Ok(())
    }
}

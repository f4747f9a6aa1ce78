//! What is told of an entry itself. Where one of these fails that write, a part of what it says was written.
ghost use Rattle.std.specs.Prelude.{◌≡◌, ◌∷◌, [], map, not, option_copied, false, true, IfOk, Some};
ghost use Rattle.repo_api.specs.Kinds.{is_directory_kind};
ghost use Rattle.file_histories.specs.Differing.{differing};
ghost use Rattle.replays.specs.{Commands.{changes_sent, close_command, is_empty, own_commands, properties_there, property_command, token_of}, Places.place_in};
ghost use Rattle.replays.specs.{Sending.Sends, Shaping.base_of};
ghost use Rattle.wire_replies.specs.Made.{Makes};

use crate::ask::ReplayAsk;
use crate::naming::token;
use crate::places::Shape;
use crate::replayed::Replayed;
use crate::saying::say_command;
use crate::texts::{say_text_told, text_told};
use byte_string::{ByteString, Sequence};
use file_histories::{DifferingProperties, differing};
use repo_api::{FileText, Properties, PropertyValue, Repository};
use std::alloc::{AllocError, Global};
use svnpath::Path;
use traces::Place;
use wire_edits::{EditorCommand, PropertyChange};
use wire_replies::ReplySink;

/// Finds the properties of what is at a place, if there is one.
fn properties_there<'a, R: Repository>(
    view: &'a R,
    place: Option<&Place>,
    none: &'a Properties,
) -> &'a Properties
    requires { none.now ≡ [] }
    ensures { result.now ≡ properties_there (R.content view.now) (option_copied place.entry) }
{
    let Some(place) = place else {
        return none;
    };
    match view.properties(place.revision, &place.path) {
        Some(properties) => properties,
        None => none,
    }
}

/// Finds the properties of what is at a path of a revision.
fn properties_of<'a, R: Repository>(
    view: &'a R,
    revision: u64,
    path: &Path,
    none: &'a Properties,
) -> &'a Properties
    requires { none.now ≡ [] }
    ensures { result.now
        ≡ properties_there (R.content view.now) (Some (place_in revision path.now)) }
{
    match view.properties(revision, path) {
        Some(properties) => properties,
        None => none,
    }
}

/// Gives the changes of properties as they are sent: one that has no name and no value for all, where values are not.
fn changes_sent(
    alloc: Global,
    sends_deltas: bool,
    changes: DifferingProperties,
) -> Result<DifferingProperties, AllocError>
    ensures { IfOk result (λ sent. sent ≡ changes_sent sends_deltas changes) }
{
    if sends_deltas || changes.as_slice().is_empty() {
        return Ok(changes);
    }
    let mut unnamed = Sequence::new(alloc);
    unnamed.push((ByteString::new(Vec::new(alloc)), None))?;
    Ok(unnamed)
}

/// Makes the changes of properties that an entry is told.
fn changes_of<R: Repository>(
    alloc: Global,
    replay: &Replayed<R>,
    path: &Path,
    shape: &Shape,
) -> Result<DifferingProperties, AllocError>
    ensures { IfOk result (λ changes. changes ≡ changes_sent replay.now.ask.now.sends_deltas
        (differing
        (properties_there (R.content replay.now.view.now) (base_of shape.now))
        (properties_there (R.content replay.now.view.now)
        (Some (place_in replay.now.revision path.now))))) }
{
    let none = Properties::new(alloc);
    let old = properties_there(replay.view, shape.base(), &none);
    let new = properties_of(replay.view, replay.revision, path, &none);
    if old.is_empty() && new.is_empty() {
        return Ok(Sequence::new(alloc));
    }
    let changes = differing(alloc, old, new)?;
    changes_sent(alloc, replay.ask.sends_deltas, changes)
}

/// Says whether something is told of an entry itself.
pub(crate) fn has_own_news<R: Repository>(
    alloc: Global,
    replay: &Replayed<R>,
    path: &Path,
    shape: &Shape,
) -> Result<bool, AllocError>
    ensures { IfOk result (λ has. has ≡ not (is_empty (own_commands
        (R.content replay.now.view.now) replay.now.ask.now
        (is_directory_kind shape.now.kind) shape.now.has_text (base_of shape.now)
        (place_in replay.now.revision path.now)))) }
{
    if text_told(replay, path, shape).text.is_some() {
        return Ok(true);
    }
    let changes = changes_of(alloc, replay, path, shape)?;
    Ok(!changes.as_slice().is_empty())
}

/// Copies the bytes of a value, if there is one.
fn bytes_of(value: &Option<PropertyValue>) -> Result<Option<ByteString>, AllocError>
    ensures { Makes result value.now }
{
    match value {
        None => Ok(None),
        Some(value) => Ok(Some(value.bytes().clone()?)),
    }
}

/// Makes the command that a property of what is open under a token has a value now, or is taken out.
fn property_command(
    is_directory: bool,
    token: &ByteString,
    change: &(ByteString, Option<PropertyValue>),
) -> Result<EditorCommand, AllocError>
    ensures { Makes result (property_command is_directory token.now change.now) }
{
    let (name, value) = change;
    let change = PropertyChange {
        token: token.clone()?,
        name: name.clone()?,
        value: bytes_of(value)?,
    };
    if is_directory {
        Ok(EditorCommand::ChangeDirectoryProperty(change))
    } else {
        Ok(EditorCommand::ChangeFileProperty(change))
    }
}

/// Writes changes of properties, one after another.
fn say_changes<S: ReplySink>(
    is_directory: bool,
    token: &ByteString,
    changes: &[(ByteString, Option<PropertyValue>)],
    out: &mut S,
) -> Result<(), AllocError>
    ensures { Sends result (S.writes out.old out.new)
        (map (property_command is_directory token.now) changes.now) }
{
    for change in changes {
        say_command(property_command(is_directory, token, change), out)?;
    }
    Ok(())
}

/// Writes what is told of an entry itself.
pub(crate) fn say_own<R: Repository, S: ReplySink>(
    alloc: Global,
    replay: &Replayed<R>,
    path: &Path,
    shape: &Shape,
    out: &mut S,
) -> Result<(), AllocError>
    ensures { Sends result (S.writes out.old out.new) (own_commands
        (R.content replay.now.view.now) replay.now.ask.now
        (is_directory_kind shape.now.kind) shape.now.has_text (base_of shape.now)
        (place_in replay.now.revision path.now)) }
{
    let is_directory = shape.kind.is_directory();
    let token = token(alloc, is_directory, path.len())?;
    let changes = changes_of(alloc, replay, path, shape)?;
    say_changes(is_directory, &token, changes.as_slice(), out)?;
    let told = text_told(replay, path, shape);
    say_text_told(alloc, replay.ask, &token, told, out)
}

/// Makes the command that closes a file, with the digits of its text.
fn close_file<R: Repository>(
    alloc: Global,
    replay: &Replayed<R>,
    path: &Path,
) -> Result<EditorCommand, AllocError>
    ensures { Makes result (close_command (R.content replay.now.view.now) false
        (place_in replay.now.revision path.now)) }
{
    let token = token(alloc, false, path.len())?;
    let digits = match replay.view.text(replay.revision, path) {
        Some(text) => text.digest_text(alloc)?,
        None => FileText::empty().digest_text(alloc)?,
    };
    Ok(EditorCommand::CloseFile(token, Some(digits)))
}

/// Makes the command that closes a directory.
fn close_directory(alloc: Global, count: usize) -> Result<EditorCommand, AllocError>
    ensures { Makes result (EditorCommand.CloseDirectory (token_of true count)) }
{
    Ok(EditorCommand::CloseDirectory(token(alloc, true, count)?))
}

/// Writes that an entry is closed.
pub(crate) fn say_close<R: Repository, S: ReplySink>(
    alloc: Global,
    replay: &Replayed<R>,
    is_directory: bool,
    path: &Path,
    out: &mut S,
) -> Result<(), AllocError>
    ensures { Sends result (S.writes out.old out.new) (close_command
        (R.content replay.now.view.now) is_directory (place_in replay.now.revision path.now) ∷ []) }
{
    if is_directory {
        say_command(close_directory(alloc, path.len()), out)
    } else {
        say_command(close_file(alloc, replay, path), out)
    }
}

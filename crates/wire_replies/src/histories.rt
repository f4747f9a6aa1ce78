//! Logs, and where something was, as items.
ghost use Rattle.std.specs.Prelude.{◌≡◌, ℕ, List, [], IfOk};
ghost use Rattle.items.specs.{Print.printed, Values.{both, list, more, string, word}, View.value_of, Word.IsWord};
ghost use Rattle.wire_replies.specs.Replies.{action_word, bare_path_trees, bare_text, boolean_name, change_tree, change_trees, kind_word, location_item};
ghost use Rattle.wire_replies.specs.{Replies.{log_entry, logged_change, segment_item, source_trees}, Parts.{log_end, log_head}, Sinks.Writes};
ghost use Rattle.wire_replies.specs.{declared.histories.LogFacts.LogFacts, declared.histories.LoggedChange.LoggedChange};

use crate::build::{
    boolean_item, kind_name, list_item, number_item, optional_string_item, path_item, string_item,
    with_made, word_item,
};
use crate::reply::write_made;
use crate::saying::say_item;
use crate::sink::ReplySink;
use byte_string::{ByteString, Sequence};
use items::Item;
use repo_api::{Action, Change, NodeKind, Source};
use std::alloc::{AllocError, Global};
use std::mem::drop;
use svnpath::Path;

/// A change that a log tells.
#[derive(Drop)]
pub struct LoggedChange {
    pub path: Path,
    pub change: Change,
    /// What stands there, or stood there where it was deleted.
    pub kind: NodeKind,
}

/// A revision of a log.
#[derive(Drop)]
pub struct LogEntry {
    pub changes: ChangeList,
    pub revision: u64,
    pub author: Option<ByteString>,
    pub date: Option<ByteString>,
    pub message: Option<ByteString>,
}

/// What a log says of a revision after its changes.
#[derive(Drop)]
pub struct LogFacts {
    pub revision: u64,
    pub author: Option<ByteString>,
    pub date: Option<ByteString>,
    pub message: Option<ByteString>,
}

/// Changes that a log tells of one revision.
pub type ChangeList = Sequence<LoggedChange>;

impl LoggedChange {
    /// Makes a copy of this change at this path, where something of this kind stands or stood.
    pub fn copied(path: &Path, change: &Change, kind: NodeKind) -> Result<Self, AllocError>
        ensures { IfOk result (λ logged. logged ≡ logged_change path.now change.now kind) }
    {
        Ok(LoggedChange {
            path: path.clone()?,
            change: copied_change(change)?,
            kind,
        })
    }
}

/// Makes a copy of a change, with its source where it has one.
fn copied_change(change: &Change) -> Result<Change, AllocError>
    ensures { IfOk result (λ copy. copy ≡ change.now) }
{
    Ok(Change {
        action: change.action,
        text: change.text,
        properties: change.properties,
        source: copied_source(&change.source)?,
    })
}

/// Makes a copy of the source of a change, `None` where it has none.
fn copied_source(source: &Option<Source>) -> Result<Option<Source>, AllocError>
    ensures { IfOk result (λ copy. copy ≡ source.now) }
{
    match source {
        None => Ok(None),
        Some(source) => {
            Ok(Some(Source {
                revision: source.revision,
                path: source.path.clone()?,
            }))
        }
    }
}

/// Makes `( ( change ... ) rev [ author ] [ date ] [ message ] )`.
pub(crate) fn log_entry_item(alloc: Global, entry: &LogEntry) -> Result<Item, AllocError>
    ensures { IfOk result (λ item. value_of item ≡ log_entry entry.now) }
{
    let items = with_made(Vec::new(alloc), changes_item(alloc, &entry.changes))?;
    let items = with_made(items, Ok(number_item(entry.revision)))?;
    let items = with_made(items, optional_string_item(alloc, &entry.author))?;
    let items = with_made(items, optional_string_item(alloc, &entry.date))?;
    let items = with_made(items, optional_string_item(alloc, &entry.message))?;
    Ok(Item::List(items))
}

/// Makes `( change ... )`.
fn changes_item(alloc: Global, changes: &ChangeList) -> Result<Item, AllocError>
    ensures { IfOk result (λ item. value_of item ≡ list (change_trees changes.now)) }
{
    let mut items = Vec::new(alloc);
    for change in changes.as_slice() {
        let item = change_item(alloc, change)?;
        items.push(item).map_err(AllocError::from)?;
    }
    Ok(Item::List(items))
}

/// Makes `( path action [ copy-path copy-rev ] ( kind text-mods prop-mods ) )`.
fn change_item(alloc: Global, logged: &LoggedChange) -> Result<Item, AllocError>
    ensures { IfOk result (λ item. value_of item ≡ change_tree logged.now) }
{
    let items = with_made(Vec::new(alloc), path_item(alloc, &logged.path))?;
    let items = with_made(items, word_item(alloc, action_name(logged.change.action)))?;
    let items = with_made(items, source_item(alloc, &logged.change.source))?;
    let items = with_made(items, facts_item(alloc, logged.kind, &logged.change))?;
    Ok(Item::List(items))
}

/// Makes `( kind text-mods prop-mods )`.
fn facts_item(alloc: Global, kind: NodeKind, change: &Change) -> Result<Item, AllocError>
    ensures { IfOk result (λ item. value_of item ≡ list (more (string (kind_word kind))
        (both (word (boolean_name change.now.text)) (word (boolean_name change.now.properties))))) }
{
    let items = with_made(Vec::new(alloc), string_item(alloc, kind_name(kind)))?;
    let items = with_made(items, boolean_item(alloc, change.text))?;
    let items = with_made(items, boolean_item(alloc, change.properties))?;
    Ok(Item::List(items))
}

/// Makes `[ copy-path copy-rev ]`.
fn source_item(alloc: Global, source: &Option<Source>) -> Result<Item, AllocError>
    ensures { IfOk result (λ item. value_of item ≡ list (source_trees source.now)) }
{
    match source {
        Some(source) => {
            let path = path_item(alloc, &source.path)?;
            list_item(alloc, [path, number_item(source.revision)])
        }
        None => list_item(alloc, []),
    }
}

/// Makes `( rev path )`.
pub(crate) fn location_item(alloc: Global, revision: u64, path: &Path) -> Result<Item, AllocError>
    ensures { IfOk result (λ item. value_of item ≡ location_item revision path.now) }
{
    let path = path_item(alloc, path)?;
    list_item(alloc, [number_item(revision), path])
}

/// Makes a string of the text of a path, without the slash before it.
fn bare_path_item(alloc: Global, path: &Path) -> Result<Item, AllocError>
    ensures { IfOk result (λ item. value_of item ≡ string (bare_text path.now)) }
{
    let mut text = Vec::new(alloc);
    path.append_text(&mut text)?;
    match text.as_slice().split_first() {
        None => string_item(alloc, b""),
        Some((_, rest)) => string_item(alloc, rest),
    }
}

/// Makes `[ path ]`.
fn optional_path_item(alloc: Global, path: &Option<Path>) -> Result<Item, AllocError>
    ensures { IfOk result (λ item. value_of item ≡ list (bare_path_trees path.now)) }
{
    match path {
        Some(path) => list_item(alloc, [bare_path_item(alloc, path)?]),
        None => list_item(alloc, []),
    }
}

/// Makes `( first last [ path ] )`.
pub(crate) fn segment_item(
    alloc: Global,
    first: u64,
    last: u64,
    path: &Option<Path>,
) -> Result<Item, AllocError>
    ensures { IfOk result (λ item. value_of item ≡ segment_item first last path.now) }
{
    let path = optional_path_item(alloc, path)?;
    list_item(alloc, [number_item(first), number_item(last), path])
}

/// Gives the letter of an action.
fn action_name(action: Action) -> &'static [u8]
    ensures value { result.now ≡ action_word action }
    ensures is_word { IsWord (action_word action) }
{
    match action {
        Action::Add => b"A",
        Action::Delete => b"D",
        Action::Replace => b"R",
        Action::Modify => b"M",
    }
}

/// Writes what comes before the changes in the reply that contains a revision of a log.
pub fn say_log_head<S: ReplySink>(out: &mut S) -> Result<(), AllocError>
    ensures { Writes result (S.writes out.old out.new) log_head }
{
    out.write_part(b"( ( ")
}

/// Writes a change of a revision of a log, if it could be made. If not, nothing is written.
pub fn say_change<S: ReplySink>(
    alloc: Global,
    made: Result<LoggedChange, AllocError>,
    out: &mut S,
) -> Result<(), AllocError>
    ensures { (logged : LoggedChange) → IfOk made (λ told. told ≡ logged)
        → Writes result (S.writes out.old out.new) (printed (change_tree logged)) }
{
    match made {
        Ok(logged) => {
            let said = say_item(alloc, change_item(alloc, &logged), out);
            drop(logged);
            said
        }
        Err(error) => Err(error),
    }
}

/// Writes what comes after the changes, if it could be made. If not, nothing is written.
pub fn say_log_end<S: ReplySink>(
    alloc: Global,
    made: Result<LogFacts, AllocError>,
    out: &mut S,
) -> Result<(), AllocError>
    ensures { (facts : LogFacts) → IfOk made (λ told. told ≡ facts)
        → Writes result (S.writes out.old out.new) (log_end facts) }
{
    match made {
        Ok(facts) => {
            let said = say_bytes(log_end(alloc, &facts), out);
            drop(facts);
            said
        }
        Err(error) => Err(error),
    }
}

/// Writes bytes that are a part of a reply, if they could be made. If not, nothing is written.
fn say_bytes<S: ReplySink>(made: Result<Vec<u8>, AllocError>, out: &mut S) -> Result<(), AllocError>
    ensures { (part : List ℕ) → IfOk made (λ bytes. bytes.items ≡ part)
        → Writes result (S.writes out.old out.new) part }
{
    let bytes = made?;
    out.write_part(bytes.as_slice())
}

/// Makes the bytes that come after the changes.
fn log_end(alloc: Global, facts: &LogFacts) -> Result<Vec<u8>, AllocError>
    ensures { IfOk result (λ bytes. bytes.items ≡ log_end facts.now) }
{
    let mut bytes = Vec::from_slice(alloc, b") ")?;
    write_made(Ok(number_item(facts.revision)), &mut bytes)?;
    write_made(optional_string_item(alloc, &facts.author), &mut bytes)?;
    write_made(optional_string_item(alloc, &facts.date), &mut bytes)?;
    write_made(optional_string_item(alloc, &facts.message), &mut bytes)?;
    bytes.extend_from_slice(b") ")?;
    Ok(bytes)
}

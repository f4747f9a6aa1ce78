//! What entries are told. Where one of these fails, a part of what it says was written.
ghost use Rattle.std.specs.Prelude.{◌≡◌, ◌<◌, ◌+◌, ◌^◌, ℕ, List, [], map, option_copied};
ghost use Rattle.wire_deltas.specs.Texts.{text_or_empty};
ghost use Rattle.drive_visits.specs.Visits.{kind_if};
ghost use Rattle.drive_sending.specs.{Commands.{property_command, news_commands, or_no_news}, Driving.Sends, Tokens.token_of};
ghost use Rattle.wire_replies.specs.Made.{Makes};
ghost use Rattle.drive_rules.specs.Steps.EntryKind.{DirectoryKind, FileKind};
ghost use Rattle.reporter.specs.declared.ask.Purpose.{Purpose};

use crate::naming::token;
use crate::saying::say_made;
use crate::texts::{Basis, say_file_end};
use byte_string::{ByteString, Sequence};
use drive_news::{News, PropertyChanges};
use repo_api::PropertyValue;
use std::alloc::{AllocError, Global};
use wire_edits::{EditorCommand, PropertyChange};
use wire_replies::ReplySink;

/// Makes the command that a property of what is open under a token has a value now, or is taken out.
fn property_command(
    is_directory: bool,
    token: &ByteString,
    change: &(ByteString, Option<PropertyValue>),
) -> Result<EditorCommand, AllocError>
    ensures { Makes result (property_command (kind_if is_directory) token.now change.now) }
{
    let (name, value) = change;
    let change = PropertyChange {
        token: token.clone()?,
        name: name.clone()?,
        value: bytes_of(value)?,
    };
    if is_directory {
        Ok(EditorCommand::ChangeDirectoryProperty(change))
    } else {
        Ok(EditorCommand::ChangeFileProperty(change))
    }
}

/// Copies the bytes of a value, if there is one.
fn bytes_of(value: &Option<PropertyValue>) -> Result<Option<ByteString>, AllocError>
    ensures { Makes result value.now }
{
    match value {
        None => Ok(None),
        Some(value) => Ok(Some(value.bytes().clone()?)),
    }
}

/// Writes the changes of properties.
fn say_properties<S: ReplySink>(
    is_directory: bool,
    token: &ByteString,
    changes: &PropertyChanges,
    out: &mut S,
) -> Result<(), AllocError>
    ensures { Sends result (S.writes out.old out.new)
        (map (property_command (kind_if is_directory) token.now) changes.now) }
{
    say_each(is_directory, token, changes.as_slice(), out)
}

/// Writes changes of properties, one after another.
fn say_each<S: ReplySink>(
    is_directory: bool,
    token: &ByteString,
    changes: &[(ByteString, Option<PropertyValue>)],
    out: &mut S,
) -> Result<(), AllocError>
    ensures { Sends result (S.writes out.old out.new)
        (map (property_command (kind_if is_directory) token.now) changes.now) }
{
    for change in changes {
        say_made(property_command(is_directory, token, change), out)?;
    }
    Ok(())
}

/// Writes what is told of a directory.
fn say_directory_news<S: ReplySink>(
    token: &ByteString,
    news: &News,
    out: &mut S,
) -> Result<(), AllocError>
    ensures { (purpose : Purpose) (base : List ℕ) → Sends result (S.writes out.old out.new)
        (news_commands purpose DirectoryKind token.now base news.now) }
{
    say_properties(true, token, &news.changes, out)
}

/// Writes what is told of a file.
fn say_file_news<S: ReplySink>(
    alloc: Global,
    basis: Basis<'_>,
    token: &ByteString,
    news: &News,
    out: &mut S,
) -> Result<(), AllocError>
    ensures { Sends result (S.writes out.old out.new)
        (news_commands basis.entry.purpose FileKind token.now
        (text_or_empty (option_copied basis.entry.before)) news.now) }
{
    say_properties(false, token, &news.changes, out)?;
    say_file_end(alloc, basis, token, &news.text, out)
}

/// Writes what is told of the root.
pub(crate) fn say_root_news<S: ReplySink>(
    alloc: Global,
    news: &News,
    out: &mut S,
) -> Result<(), AllocError>
    ensures { (purpose : Purpose) → Sends result (S.writes out.old out.new)
        (news_commands purpose DirectoryKind (token_of DirectoryKind 0) [] news.now) }
{
    let token = token(alloc, true, 0)?;
    say_directory_news(&token, news, out)
}

/// Writes what is told of an entry.
pub(crate) fn say_news<S: ReplySink>(
    alloc: Global,
    basis: Basis<'_>,
    entrance: Entrance,
    news: &News,
    out: &mut S,
) -> Result<(), AllocError>
    requires { entrance.around + 1 < 2 ^ 64 }
    ensures { Sends result (S.writes out.old out.new)
        (news_commands basis.entry.purpose (kind_if entrance.is_directory)
        (token_of (kind_if entrance.is_directory) (entrance.around + 1))
        (text_or_empty (option_copied basis.entry.before)) news.now) }
{
    let token = token(alloc, entrance.is_directory, entrance.around + 1)?;
    if entrance.is_directory {
        say_directory_news(&token, news, out)
    } else {
        say_file_news(alloc, basis, &token, news, out)
    }
}

/// Where an entry is entered: how many directories are open around the innermost one, and whether
/// the entry is a directory itself.
#[derive(Clone, Copy)]
pub(crate) struct Entrance {
    pub around: u64,
    pub is_directory: bool,
}

/// Gives the news, or none.
pub(crate) fn or_no_news(alloc: Global, found: Option<News>) -> News
    ensures { result ≡ or_no_news found }
{
    match found {
        Some(news) => news,
        None => News {
            changes: Sequence::new(alloc),
            text: None,
        },
    }
}

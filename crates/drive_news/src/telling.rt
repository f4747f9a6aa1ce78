//! What an entry at a place is told of itself.
ghost use Rattle.std.specs.Prelude.{◌≡◌, ◌++◌, [], IfOk, option_and_then, option_copied, option_map};
ghost use Rattle.repo_api.specs.{Kinds.{created_of, node_properties, or_empty}, Trees.text_of};
ghost use Rattle.drive_news.specs.{News.{other_text, property_changes, text_sent}, Parts.last_changes, Places.{entry_at, entry_had, news_seen, old_seen}};

use crate::entry_changes::last_changes;
use crate::had::{had_properties, had_text};
use crate::news::{Had, News, PropertyChanges, Sight};
use crate::property_changes::with_property_changes;
use crate::texts::{other_text, text_sent};
use repo_api::{FileText, Properties, Repository};
use std::alloc::{AllocError, Global};

/// Says what an entry is told of itself, `None` where nothing stands at its place.
pub fn news_of<R: Repository>(
    alloc: Global,
    view: &R,
    sight: Sight<'_>,
) -> Result<Option<News>, AllocError>
    ensures { IfOk result (λ found. found ≡ news_seen (R.content view.now) sight.entry) }
{
    match view.properties(sight.new.revision, sight.new.path) {
        None => Ok(None),
        Some(properties) => Ok(Some(News {
            changes: changes_seen(alloc, view, sight, properties)?,
            text: text_seen(view, sight)?,
        })),
    }
}

/// Gives the properties that an entry with these properties is told.
fn changes_seen<R: Repository>(
    alloc: Global,
    view: &R,
    sight: Sight<'_>,
    properties: &Properties,
) -> Result<PropertyChanges, AllocError>
    ensures { IfOk result (λ changes. changes
        ≡ last_changes (R.content view.now) sight.entry.is_stale
        (created_of (entry_at (R.content view.now) sight.entry.new))
        ++ property_changes
        (or_empty (node_properties (old_seen (R.content view.now) sight.entry))) properties.now) }
{
    let created = view.created(sight.new.revision, sight.new.path);
    let changes = last_changes(alloc, view, sight.is_stale, created)?;
    let none = Properties::new(alloc);
    match old_properties(view, sight.old, &none) {
        None => with_property_changes(changes, &none, properties),
        Some(old) => with_property_changes(changes, old, properties),
    }
}

/// Gives the text that an entry is told, if it is told one.
fn text_seen<R: Repository>(view: &R, sight: Sight<'_>) -> Result<Option<FileText>, AllocError>
    ensures { IfOk result (λ text. text ≡ option_map (text_sent sight.entry.purpose)
        (other_text (text_of (old_seen (R.content view.now) sight.entry))
        (text_of (entry_at (R.content view.now) sight.entry.new)))) }
{
    let new = view.text(sight.new.revision, sight.new.path);
    match other_text(old_text(view, sight.old), new) {
        None => Ok(None),
        Some(text) => Ok(Some(text_sent(sight.purpose, text)?)),
    }
}

/// Gives the properties that a client has of an entry, if it has any of it.
fn old_properties<'a, R: Repository>(
    view: &'a R,
    old: Option<Had<'_>>,
    none: &'a Properties,
) -> Option<&'a Properties>
    requires { none.now ≡ [] }
    ensures { option_copied result
        ≡ node_properties (option_and_then (entry_had (R.content view.now)) old.entry) }
{
    match old {
        None => None,
        Some(had) => had_properties(view, had, none),
    }
}

/// Gives the text that a client has of a file, if it has any of it.
fn old_text<'a, R: Repository>(view: &'a R, old: Option<Had<'_>>) -> Option<&'a FileText>
    ensures { option_copied result
        ≡ text_of (option_and_then (entry_had (R.content view.now)) old.entry) }
{
    match old {
        None => None,
        Some(had) => had_text(view, had),
    }
}

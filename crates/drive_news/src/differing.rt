//! Whether two entries differ.
ghost use Rattle.std.specs.Prelude.{◌≡◌, true, false, Decides, IfOk, option_map};
ghost use Rattle.drive_rules.specs.Steps.{node_of};
ghost use Rattle.reporter.specs.Sent.{counts_changes};
ghost use Rattle.drive_news.specs.Places.{Compares, entry_at, entry_content, entry_had};

use crate::had::{had_created, had_kind, had_properties, had_text};
use crate::news::{Had, Place};
use crate::property_changes::are_same_properties;
use crate::texts::are_same_texts;
use repo_api::{Properties, Repository};
use reporter::Purpose;
use std::alloc::{AllocError, Global};

/// Says whether the last change of an entry counts in a drive.
fn counts_changes(purpose: Purpose) -> bool
    ensures { result ≡ counts_changes purpose }
{
    match purpose {
        Purpose::Update | Purpose::Switch | Purpose::Status => true,
        Purpose::Diff | Purpose::Summary => false,
    }
}

/// Says whether an entry differs from what a client has of it, by their kinds, their texts, their properties and, where
/// they count, their last changes' revisions. What does not differ may still be of two changes of one revision.
pub fn entries_differ<R: Repository>(
    alloc: Global,
    view: &R,
    purpose: Purpose,
    old: Had<'_>,
    new: Place<'_>,
) -> Result<bool, AllocError>
    ensures { IfOk result (λ answer. Compares (counts_changes purpose) answer
        (entry_had (R.content view.now) old.entry) (entry_at (R.content view.now) new.entry)) }
{
    if is_same_place(old, new) {
        return Ok(false);
    }
    if counts_changes(purpose) && had_created(view, old) != view.created(new.revision, new.path) {
        return Ok(true);
    }
    Ok(!is_same_node(alloc, view, old, new)?)
}

/// Says whether a client has what stands at the place, as it stands there.
fn is_same_place(old: Had<'_>, new: Place<'_>) -> bool
    ensures { result ≡ true → (old.entry.starts_empty ≡ false)
        × (old.entry.place.revision ≡ new.entry.revision)
        × (old.entry.place.path.now ≡ new.entry.path.now) }
{
    !old.starts_empty && old.place.revision == new.revision && old.place.path == new.path
}

/// Says whether both are the same: kind, text and properties.
fn is_same_node<R: Repository>(
    alloc: Global,
    view: &R,
    old: Had<'_>,
    new: Place<'_>,
) -> Result<bool, AllocError>
    ensures { IfOk result (λ same. Decides same
        (option_map node_of (entry_had (R.content view.now) old.entry)
        ≡ option_map node_of (entry_at (R.content view.now) new.entry))) }
{
    if !is_same_content(view, old, new) {
        return Ok(false);
    }
    let none = Properties::new(alloc);
    let old_properties = had_properties(view, old, &none);
    let new_properties = view.properties(new.revision, new.path);
    match (old_properties, new_properties) {
        (Some(old), Some(new)) => are_same_properties(alloc, old, new),
        _ => Ok(true),
    }
}

/// Says whether both are directories, or files of one text, or neither exists.
fn is_same_content<R: Repository>(view: &R, old: Had<'_>, new: Place<'_>) -> bool
    ensures { Decides result (entry_content (entry_had (R.content view.now) old.entry)
        ≡ entry_content (entry_at (R.content view.now) new.entry)) }
{
    let new_text = view.text(new.revision, new.path);
    had_kind(view, old) == view.kind(new.revision, new.path)
        && are_same_texts(had_text(view, old), new_text)
}

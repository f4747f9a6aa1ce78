//! The revisions of a file, each as it differs from the one sent before. Where one of these fails, a part of what it says was
//! written.
ghost use Rattle.std.specs.Prelude.{◌≡◌, ◌++◌, ◌∷◌, List, [], map, option_copied, IfOk, Ok, Some, None};
ghost use Rattle.svnpath.specs.Texts.{joined};
ghost use Rattle.repo_api.specs.{Kinds.properties_at, Properties.is_same_value};
ghost use Rattle.traces.specs.declared.place.Place.{Place};
ghost use Rattle.text_deltas.specs.Deltas.{delta_chunks};
ghost use Rattle.wire_deltas.specs.Texts.{text_or_empty};
ghost use Rattle.wire_replies.specs.{Made.Makes, Sinks.Says, declared.reply.Reply.Reply};
ghost use Rattle.machine.specs.Histories.{delta_told, ended, file_revision_head, file_revision_told, file_revisions_refusal, file_revisions_replies};
ghost use Rattle.machine.specs.{Histories.{has_text_of, properties_before, text_before, told_in_turn}, Readings.entry_properties};

use crate::asked::FileRevisionsAsked;
use crate::files::no_file;
use crate::listing::{say_end, say_refused, say_refused_at};
use crate::logs::or_youngest;
use crate::paths::is_to_come;
use commands::GetFileRevsCommand;
use file_histories::{differing, file_revisions};
use history::Place;
use machine::Client;
use refusals::{Refusal, path_refusal};
use repo_api::{FileText, Properties, Repository};
use small_rules::is_same_text;
use std::alloc::{AllocError, Global};
use std::mem::drop;
use svnpath::{Path, PathFault};
use wire_deltas::{say_delta, say_delta_end};
use wire_replies::{FileRevision, Reply, ReplySink, say_file_revision};

/// Says why the revisions of a file are refused, if they are: the greater revision is above the youngest, merged ones are
/// wanted too, or the path is no file there.
fn file_revisions_refusal<R: Repository>(
    view: &R,
    wants_merged: bool,
    place: &Place,
) -> Option<Refusal>
    ensures { result ≡ file_revisions_refusal (R.content view.now) wants_merged place.now }
{
    if is_to_come(view, place.revision) {
        return Some(Refusal::NoSuchRevision);
    }
    if wants_merged {
        return Some(Refusal::NotSupported);
    }
    let kind = view.kind(place.revision, &place.path);
    if kind.is_file() {
        None
    } else {
        Some(no_file(kind))
    }
}

/// Finds the properties of what is at a place.
fn file_properties<'a, R: Repository>(
    view: &'a R,
    place: &Place,
    none: &'a Properties,
) -> &'a Properties
    requires { none.now ≡ [] }
    ensures { result.now
        ≡ entry_properties (R.content view.now) place.now.revision place.now.path }
{
    match view.properties(place.revision, &place.path) {
        Some(properties) => properties,
        None => none,
    }
}

/// Finds the properties of the file that was sent before, if one was.
fn properties_before<'a, R: Repository>(
    view: &'a R,
    before: Option<&Place>,
    none: &'a Properties,
) -> &'a Properties
    requires { none.now ≡ [] }
    ensures { result.now ≡ properties_before (R.content view.now) (option_copied before.entry) }
{
    match before {
        Some(place) => file_properties(view, place, none),
        None => none,
    }
}

/// Copies the properties of a revision.
fn revision_properties<R: Repository>(
    alloc: Global,
    view: &R,
    revision: u64,
) -> Result<Properties, AllocError>
    ensures { Makes result (properties_at (R.content view.now) revision) }
{
    match view.revision_properties(revision) {
        Some(properties) => properties.clone(),
        None => Ok(Properties::new(alloc)),
    }
}

/// Makes what is sent of a revision of a file before its text.
fn file_revision_head<R: Repository>(
    alloc: Global,
    view: &R,
    before: Option<&Place>,
    place: &Place,
) -> Result<FileRevision, AllocError>
    ensures { IfOk result (λ told. Reply.FileRevision told
        ≡ file_revision_head (R.content view.now) (option_copied before.entry) place.now) }
{
    let none = Properties::new(alloc);
    let old = properties_before(view, before, &none);
    let new = file_properties(view, place, &none);
    Ok(FileRevision {
        path: place.path.clone()?,
        revision: place.revision,
        properties: revision_properties(alloc, view, place.revision)?,
        changes: differing(alloc, old, new)?,
    })
}

/// Writes what is sent of a revision of a file before its text, if it could be made.
fn say_head<S: ReplySink>(
    alloc: Global,
    told: Result<FileRevision, AllocError>,
    out: &mut S,
) -> Result<(), AllocError>
    ensures { (reply : Reply) → IfOk told (λ head. Reply.FileRevision head ≡ reply)
        → Says result (S.writes out.old out.new) (reply ∷ []) }
{
    match told {
        Ok(head) => {
            let said = say_file_revision(alloc, &head, out);
            drop(head);
            said
        }
        Err(error) => Err(error),
    }
}

/// Says whether both are the same text, or both none.
fn are_same_texts(old: Option<&FileText>, new: Option<&FileText>) -> bool
    ensures { result ≡ is_same_value (option_copied old.entry) (option_copied new.entry) }
{
    match (old, new) {
        (None, None) => true,
        (None, Some(_)) | (Some(_), None) => false,
        (Some(old), Some(new)) => is_same_text(old, new),
    }
}

/// Says whether the file has the text that was sent before.
fn has_text_of<R: Repository>(view: &R, before: Option<&Place>, place: &Place) -> bool
    ensures { result
        ≡ has_text_of (R.content view.now) (option_copied before.entry) place.now }
{
    match before {
        None => false,
        Some(before) => are_same_texts(
            view.text(before.revision, &before.path),
            view.text(place.revision, &place.path),
        ),
    }
}

/// Finds the text of the file that was sent before, if one was.
fn text_before<'a, R: Repository>(view: &'a R, before: Option<&Place>) -> Option<&'a FileText>
    ensures { text_or_empty (option_copied result)
        ≡ text_before (R.content view.now) (option_copied before.entry) }
{
    let before = before?;
    view.text(before.revision, &before.path)
}

/// Writes the text at a place as a delta over the text that was sent before.
fn say_text<R: Repository, S: ReplySink>(
    alloc: Global,
    view: &R,
    before: Option<&Place>,
    place: &Place,
    out: &mut S,
) -> Result<(), AllocError>
    ensures { let c = R.content view.now in
        Says result (S.writes out.old out.new) (map Reply.Chunk
        (delta_chunks (text_before c (option_copied before.entry))
        (text_before c (Some place.now)))) }
{
    let before = text_before(view, before);
    match view.text(place.revision, &place.path) {
        Some(text) => say_delta(alloc, before, text, out),
        None => say_delta(alloc, before, &FileText::empty(), out),
    }
}

/// Writes the text at a place, if it is another than the one that was sent before.
fn say_other_text<R: Repository, S: ReplySink>(
    alloc: Global,
    view: &R,
    before: Option<&Place>,
    place: &Place,
    out: &mut S,
) -> Result<(), AllocError>
    ensures { let c = R.content view.now in let had = option_copied before.entry in
        Says result (S.writes out.old out.new)
        (delta_told (has_text_of c had place.now) (text_before c had)
        (text_before c (Some place.now))) }
{
    if has_text_of(view, before, place) {
        Ok(())
    } else {
        say_text(alloc, view, before, place, out)
    }
}

/// Writes a revision of a file, as it differs from what was sent before.
fn say_at<R: Repository, S: ReplySink>(
    alloc: Global,
    view: &R,
    before: Option<&Place>,
    place: &Place,
    out: &mut S,
) -> Result<(), AllocError>
    ensures { Says result (S.writes out.old out.new)
        (file_revision_told (R.content view.now) (option_copied before.entry) place.now) }
{
    say_head(alloc, file_revision_head(alloc, view, before, place), out)?;
    say_other_text(alloc, view, before, place, out)?;
    say_delta_end(alloc, out)
}

/// Writes revisions of a file, each as it differs from the one before.
fn say_each<R: Repository, S: ReplySink>(
    alloc: Global,
    view: &R,
    places: &[Place],
    out: &mut S,
) -> Result<(), AllocError>
    ensures { Says result (S.writes out.old out.new)
        (told_in_turn (R.content view.now) None places.now) }
{
    let mut before = None;
    for place in places {
        say_at(alloc, view, before, place, out)?;
        before = Some(place);
    }
    Ok(())
}

/// Writes revisions of a file, and that no more come.
fn say_listed<R: Repository, S: ReplySink>(
    alloc: Global,
    view: &R,
    places: &[Place],
    out: &mut S,
) -> Result<(), AllocError>
    ensures { Says result (S.writes out.old out.new)
        (told_in_turn (R.content view.now) None places.now ++ ended Reply.Success) }
{
    say_each(alloc, view, places, out)?;
    say_end(Reply::Success, out)
}

/// Writes the same of revisions that were found, if they were.
fn say_found<R: Repository, S: ReplySink>(
    alloc: Global,
    view: &R,
    found: Result<Vec<Place>, AllocError>,
    out: &mut S,
) -> Result<(), AllocError>
    ensures { (all : List Place) → IfOk found (λ places. places.items ≡ all)
        → Says result (S.writes out.old out.new)
        (told_in_turn (R.content view.now) None all ++ ended Reply.Success) }
{
    match found {
        Ok(places) => {
            let said = say_listed(alloc, view, places.as_slice(), out);
            drop(places);
            said
        }
        Err(error) => Err(error),
    }
}

/// Writes the revisions of the file at a path.
fn say_revisions<R: Repository, S: ReplySink>(
    alloc: Global,
    view: &R,
    asked: FileRevisionsAsked<'_>,
    path: Path,
    out: &mut S,
) -> Result<(), AllocError>
    ensures { Says result (S.writes out.old out.new) (file_revisions_replies asked.entry.is_of_today
        (R.content view.now) asked.entry.command.now (Ok path)) }
{
    let start = or_youngest(view, asked.command.start);
    let end = or_youngest(view, asked.command.end);
    let place = Place {
        path,
        revision: start.max(end),
    };
    match file_revisions_refusal(view, asked.command.wants_merged, &place) {
        None => {
            let found = file_revisions(alloc, view, place.path, start, end);
            say_found(alloc, view, found, out)
        }
        Some(refusal) => say_refused_at(asked.is_of_today, refusal, Some(&place.path), out),
    }
}

/// Writes the revisions of a file that is named, seen from the path of the client's URL.
pub(crate) fn say_named<R: Repository, S: ReplySink>(
    alloc: Global,
    view: &R,
    client: &Client,
    command: &GetFileRevsCommand,
    out: &mut S,
) -> Result<(), AllocError>
    ensures { Says result (S.writes out.old out.new)
        (file_revisions_replies client.now.is_of_today
        (R.content view.now) command.now (joined client.now.path command.now.path)) }
{
    match client.path.join(alloc, command.path.as_slice()) {
        Ok(path) => {
            let asked = FileRevisionsAsked {
                command,
                is_of_today: client.is_of_today,
            };
            say_revisions(alloc, view, asked, path, out)
        }
        Err(PathFault::NoMemory) => Err(AllocError),
        Err(fault) => say_refused(path_refusal(fault), out),
    }
}

//! Entries of an edit: where they are, and what they are under.
ghost use Rattle.std.specs.Prelude.{◌≡◌, option_map, IfOk};
ghost use Rattle.items.specs.View.{values_of};
ghost use Rattle.wire_forms.specs.Answering.{Reads};
ghost use Rattle.wire_edits.specs.Places.{place, added_entry_of, optional_source, opened_entry_of, any_revision_first, deleted_entry_of, absent};

use crate::editing::{AbsentEntry, AddedEntry, DeletedEntry, OpenedEntry};
use byte_string::ByteString;
use items::Item;
use std::alloc::AllocError;
use wire_forms::CommandFault::{self, BadParameters};
use wire_forms::{read_list, read_number, read_optional_number, read_string};

/// `path parent token`, and what stands behind them.
#[derive(Clone, Copy)]
struct Place<'a> {
    path: &'a ByteString,
    parent: &'a ByteString,
    token: &'a ByteString,
    rest: &'a [Item],
}

/// Reads `path parent token` in front, and what comes after: `None` where one of the three is missing or no string.
fn read_place(items: &[Item]) -> Option<Place<'_>>
    ensures { option_map (λ p. (p.path.now, p.parent.now, p.token.now, values_of p.rest.now)) result
        ≡ place (values_of items.now) }
{
    let (path, rest) = read_string(items)?;
    let (parent, rest) = read_string(rest)?;
    let (token, rest) = read_string(rest)?;
    Some(Place {
        path,
        parent,
        token,
        rest,
    })
}

/// Reads `( path parent token [ copy-path copy-rev ] )`.
pub fn read_added(params: &[Item]) -> Result<AddedEntry, CommandFault>
    ensures { Reads result (added_entry_of (values_of params.now)) }
{
    let place = read_place(params).ok_or(BadParameters)?;
    let (source, _) = read_list(place.rest).ok_or(BadParameters)?;
    let source = read_optional_source(source).ok_or(BadParameters)?;
    Ok(AddedEntry {
        path: place.path.clone()?,
        parent: place.parent.clone()?,
        token: place.token.clone()?,
        source: copy_source(source)?,
    })
}

/// Reads `[ copy-path copy-rev ]`.
fn read_optional_source(items: &[Item]) -> Option<Option<(&ByteString, u64)>>
    ensures { option_map (option_map (λ s. (s.0.now, s.1))) result
        ≡ optional_source (values_of items.now) }
{
    match items {
        [] => Some(None),
        [Item::Str(path), rest @ ..] => Some(Some((path, read_number(rest)?.0))),
        _ => None,
    }
}

/// Makes a copy of the path and revision that an entry is copied from, if there are any.
fn copy_source(source: Option<(&ByteString, u64)>) -> Result<Option<(ByteString, u64)>, AllocError>
    ensures { IfOk result (λ copy. copy ≡ option_map (λ s. (s.0.now, s.1)) source.entry) }
{
    match source {
        Some((path, revision)) => Ok(Some((path.clone()?, revision))),
        None => Ok(None),
    }
}

/// Reads `( path parent token [ rev ] )`.
pub fn read_opened(params: &[Item]) -> Result<OpenedEntry, CommandFault>
    ensures { Reads result (opened_entry_of (values_of params.now)) }
{
    let place = read_place(params).ok_or(BadParameters)?;
    let revision = read_revision(place.rest).ok_or(BadParameters)?;
    Ok(OpenedEntry {
        path: place.path.clone()?,
        parent: place.parent.clone()?,
        token: place.token.clone()?,
        revision,
    })
}

/// Reads `[ rev ]`, or a bare number.
fn read_revision(items: &[Item]) -> Option<Option<u64>>
    ensures { result ≡ any_revision_first (values_of items.now) }
{
    match items {
        [Item::List(revision), ..] => read_optional_number(revision.as_slice()),
        [Item::Number(revision), ..] => Some(Some(*revision)),
        _ => None,
    }
}

/// Reads `( path [ rev ] parent )`.
pub fn read_deleted(params: &[Item]) -> Result<DeletedEntry, CommandFault>
    ensures { Reads result (deleted_entry_of (values_of params.now)) }
{
    let (path, rest) = read_string(params).ok_or(BadParameters)?;
    let (revision, rest) = read_list(rest).ok_or(BadParameters)?;
    let revision = read_optional_number(revision).ok_or(BadParameters)?;
    let (parent, _) = read_string(rest).ok_or(BadParameters)?;
    Ok(DeletedEntry {
        path: path.clone()?,
        parent: parent.clone()?,
        revision,
    })
}

/// Reads `( path parent )`.
pub fn read_absent(params: &[Item]) -> Result<AbsentEntry, CommandFault>
    ensures { Reads result (absent (values_of params.now)) }
{
    let (path, rest) = read_string(params).ok_or(BadParameters)?;
    let (parent, _) = read_string(rest).ok_or(BadParameters)?;
    Ok(AbsentEntry {
        path: path.clone()?,
        parent: parent.clone()?,
    })
}

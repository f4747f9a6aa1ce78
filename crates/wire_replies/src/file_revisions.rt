//! The revisions of a file, as items.
ghost use Rattle.std.specs.Prelude.{◌≡◌, ◌++◌, ◌∷◌, [], IfOk};
ghost use Rattle.items.specs.{Print.{printed, row_printed}, Values.{both, list, string}, View.value_of};
ghost use Rattle.wire_replies.specs.{Replies.{file_revision, optional_string_trees, property_change_trees, property_trees}, Parts.file_revision_place};
ghost use Rattle.wire_replies.specs.Sinks.{Says, Writes};

use crate::build::{boolean_item, list_item, number_item, path_item, string_item, with_made};
use crate::properties::{properties_item, say_property_list};
use crate::reply::Reply;
use crate::saying::say_item;
use crate::sink::ReplySink;
use byte_string::{ByteString, Sequence};
use items::Item;
use repo_api::{Properties, PropertyValue};
use std::alloc::{AllocError, Global};
use svnpath::Path;

/// Properties by their names, each with its value, or without one where it is gone.
pub type PropertyChanges = Sequence<(ByteString, Option<PropertyValue>)>;

/// What a client is sent of a revision of a file before its text.
#[derive(Drop)]
pub struct FileRevision {
    /// The path of the file in the revision.
    pub path: Path,
    pub revision: u64,
    /// The properties of the revision.
    pub properties: Properties,
    /// What differs in the properties of the file.
    pub changes: PropertyChanges,
}

/// Makes `( path rev ( ( name value ) ... ) ( ( name [ value ] ) ... ) false )`.
pub(crate) fn file_revision_item(alloc: Global, told: &FileRevision) -> Result<Item, AllocError>
    ensures { IfOk result (λ item. value_of item ≡ file_revision told.now) }
{
    let items = with_made(Vec::new(alloc), path_item(alloc, &told.path))?;
    let items = with_made(items, Ok(number_item(told.revision)))?;
    let items = with_made(items, properties_item(alloc, &told.properties))?;
    let items = with_made(items, property_changes_item(alloc, &told.changes))?;
    let items = with_made(items, boolean_item(alloc, false))?;
    Ok(Item::List(items))
}

/// Makes `( ( name [ value ] ) ... )`.
fn property_changes_item(alloc: Global, changes: &PropertyChanges) -> Result<Item, AllocError>
    ensures { IfOk result (λ item. value_of item ≡ list (property_change_trees changes.now)) }
{
    let mut items = Vec::new(alloc);
    for change in changes.as_slice() {
        let item = property_change_item(alloc, &change.0, &change.1)?;
        items.push(item).map_err(AllocError::from)?;
    }
    Ok(Item::List(items))
}

/// Makes `( name [ value ] )`.
fn property_change_item(
    alloc: Global,
    name: &ByteString,
    value: &Option<PropertyValue>,
) -> Result<Item, AllocError>
    ensures { IfOk result (λ item. value_of item
        ≡ list (both (string name.now) (list (optional_string_trees value.now)))) }
{
    let name = string_item(alloc, name.as_slice())?;
    let value = optional_value_item(alloc, value)?;
    list_item(alloc, [name, value])
}

/// Makes `[ value ]`.
fn optional_value_item(alloc: Global, value: &Option<PropertyValue>) -> Result<Item, AllocError>
    ensures { IfOk result (λ item. value_of item ≡ list (optional_string_trees value.now)) }
{
    match value {
        Some(value) => list_item(alloc, [string_item(alloc, value.bytes().as_slice())?]),
        None => list_item(alloc, []),
    }
}

/// Writes the reply that contains this revision of a file without its text, one property after another.
pub fn say_file_revision<S: ReplySink>(
    alloc: Global,
    told: &FileRevision,
    out: &mut S,
) -> Result<(), AllocError>
    ensures { Says result (S.writes out.old out.new) (Reply.FileRevision told.now ∷ []) }
{
    say_before_changes(alloc, told, out)?;
    say_changes(alloc, &told.changes, out)?;
    out.write_part(b"false ) ")
}

/// Writes what comes before the changes in the reply that contains a revision of a file.
fn say_before_changes<S: ReplySink>(
    alloc: Global,
    told: &FileRevision,
    out: &mut S,
) -> Result<(), AllocError>
    ensures { Writes result (S.writes out.old out.new)
        (file_revision_place told.now.path told.now.revision
        ++ printed (list (property_trees told.now.properties))) }
{
    say_place(alloc, &told.path, told.revision, out)?;
    say_property_list(alloc, &told.properties, out)
}

/// Writes what comes before the properties in the reply that contains a revision of a file.
fn say_place<S: ReplySink>(
    alloc: Global,
    path: &Path,
    revision: u64,
    out: &mut S,
) -> Result<(), AllocError>
    ensures { Writes result (S.writes out.old out.new) (file_revision_place path.now revision) }
{
    out.write_part(b"( ")?;
    say_item(alloc, path_item(alloc, path), out)?;
    say_item(alloc, Ok(number_item(revision)), out)
}

/// Writes `( ( name [ value ] ) ... )`, one change after another.
fn say_changes<S: ReplySink>(
    alloc: Global,
    changes: &PropertyChanges,
    out: &mut S,
) -> Result<(), AllocError>
    ensures { Writes result (S.writes out.old out.new)
        (printed (list (property_change_trees changes.now))) }
{
    out.write_part(b"( ")?;
    say_each_change(alloc, changes, out)?;
    out.write_part(b") ")
}

/// Writes these changes.
fn say_each_change<S: ReplySink>(
    alloc: Global,
    changes: &PropertyChanges,
    out: &mut S,
) -> Result<(), AllocError>
    ensures { Writes result (S.writes out.old out.new)
        (row_printed (property_change_trees changes.now)) }
{
    for change in changes.as_slice() {
        say_item(
            alloc,
            property_change_item(alloc, &change.0, &change.1),
            out,
        )?;
    }
    Ok(())
}

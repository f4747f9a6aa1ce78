//! What is known of entries.
ghost use Rattle.std.specs.Prelude.{◌≡◌, IfOk, IsOkAnd};
ghost use Rattle.svnpath.specs.Texts.{joined};
ghost use Rattle.repo_api.specs.{Kinds.kind_at, Properties.with_property};
ghost use Rattle.machine.specs.Readings.{are_any, changed_at, entry_properties, node_found, node_info, place_read, shown_properties, size_at, stat_reply};
ghost use Rattle.machine.specs.Readings.{with_optional, with_revision};
ghost use Rattle.wire_replies.specs.Made.{Makes};

use crate::places::place_read;
use crate::revisions::{author_of, date_of};
use byte_string::ByteString;
use history::Place;
use repo_api::{NodeKind, Properties, Repository};
use std::alloc::{AllocError, Global};
use svnpath::Path;
use wire_replies::{NodeInfo, Reply, decimal_text, uuid_text};

/// Gives what is known of what exists at a path, seen from the path of the client's URL.
pub(crate) fn stat<R: Repository>(
    alloc: Global,
    view: &R,
    base: &Path,
    path: &ByteString,
    revision: Option<u64>,
) -> Result<Reply, AllocError>
    ensures { Makes result (stat_reply (R.content view.now)
        (place_read (R.content view.now) revision (joined base.now path.now))) }
{
    match place_read(alloc, view, base, path, revision)? {
        Ok(place) => Ok(Reply::Stat(node_found(view, &place)?)),
        Err(refusal) => Ok(Reply::Failure(refusal, None)),
    }
}

/// Gives what is known of what exists at a place, if anything does.
fn node_found<R: Repository>(view: &R, place: &Place) -> Result<Option<NodeInfo>, AllocError>
    ensures { Makes result (node_found
        (node_info (R.content view.now) place.now.revision place.now.path)
        (kind_at (R.content view.now) place.now.revision place.now.path)) }
{
    match view.kind(place.revision, &place.path) {
        NodeKind::Absent => Ok(None),
        NodeKind::File | NodeKind::Directory => {
            Ok(Some(node_info(view, place.revision, &place.path)?))
        }
    }
}

/// Gives what is known of an entry.
pub(crate) fn node_info<R: Repository>(
    view: &R,
    revision: u64,
    path: &Path,
) -> Result<NodeInfo, AllocError>
    ensures { Makes result (node_info (R.content view.now) revision path.now) }
{
    let created = changed_at(view, revision, path);
    Ok(NodeInfo {
        kind: view.kind(revision, path),
        size: size_at(view, revision, path),
        has_properties: has_properties(view, revision, path),
        created,
        date: date_of(view, created)?,
        author: author_of(view, created)?,
    })
}

/// Gives the revision that last changed an entry, at or under it.
fn changed_at<R: Repository>(view: &R, revision: u64, path: &Path) -> u64
    ensures { result ≡ changed_at (R.content view.now) revision path.now }
{
    view.created(revision, path).unwrap_or(0)
}

/// Says how many bytes the text of a file has, 0 for a directory.
fn size_at<R: Repository>(view: &R, revision: u64, path: &Path) -> u64
    ensures { result ≡ size_at (R.content view.now) revision path.now }
{
    match view.text(revision, path) {
        Some(text) => text.as_slice().len() as u64,
        None => 0,
    }
}

/// Says whether an entry has properties.
fn has_properties<R: Repository>(view: &R, revision: u64, path: &Path) -> bool
    ensures { result ≡ are_any (entry_properties (R.content view.now) revision path.now) }
{
    match view.properties(revision, path) {
        Some(properties) => are_any(properties),
        None => false,
    }
}

/// Says whether there is at least one property.
fn are_any(properties: &Properties) -> bool
    ensures { result ≡ are_any properties.now }
{
    properties.iter().next().is_some()
}

/// Gives the properties that are shown of an entry, where they are wanted: its own, and those of the revision of its
/// last change.
pub(crate) fn shown_properties<R: Repository>(
    alloc: Global,
    view: &R,
    place: &Place,
    wanted: bool,
) -> Result<Properties, AllocError>
    ensures { Makes result (shown_properties (R.content view.now) place.now wanted) }
{
    if wanted {
        let own = entry_properties(alloc, view, place)?;
        let revision = changed_at(view, place.revision, &place.path);
        with_revision(alloc, view, revision, own)
    } else {
        Ok(Properties::new(alloc))
    }
}

/// Gives the properties of an entry itself.
fn entry_properties<R: Repository>(
    alloc: Global,
    view: &R,
    place: &Place,
) -> Result<Properties, AllocError>
    ensures { Makes result
        (entry_properties (R.content view.now) place.now.revision place.now.path) }
{
    match view.properties(place.revision, &place.path) {
        Some(properties) => properties.clone(),
        None => Ok(Properties::new(alloc)),
    }
}

/// Gives the properties, and four more that tell of a revision: its number, the repository, and its date and its
/// author, if it has them.
fn with_revision<R: Repository>(
    alloc: Global,
    view: &R,
    revision: u64,
    properties: Properties,
) -> Result<Properties, AllocError>
    ensures { Makes result (with_revision (R.content view.now) revision properties) }
{
    let number = decimal_text(alloc, revision);
    let properties = with_made(alloc, properties, b"svn:entry:committed-rev", number)?;
    let uuid = uuid_text(alloc, view.uuid());
    let properties = with_made(alloc, properties, b"svn:entry:uuid", uuid)?;
    let date = date_of(view, revision);
    let properties = with_optional(alloc, properties, b"svn:entry:committed-date", date)?;
    with_optional(
        alloc,
        properties,
        b"svn:entry:last-author",
        author_of(view, revision),
    )
}

/// Gives the properties with this one, if its value was made.
fn with_made(
    alloc: Global,
    properties: Properties,
    name: &[u8],
    made: Result<ByteString, AllocError>,
) -> Result<Properties, AllocError>
    ensures { IfOk result (λ more. IsOkAnd made (λ value.
        more ≡ with_property properties name.now value)) }
{
    let mut properties = properties;
    properties.set(ByteString::from_slice(alloc, name)?, made?)?;
    Ok(properties)
}

/// Gives the properties with this one, if it has a value.
fn with_optional(
    alloc: Global,
    properties: Properties,
    name: &[u8],
    made: Result<Option<ByteString>, AllocError>,
) -> Result<Properties, AllocError>
    ensures { IfOk result (λ more. IsOkAnd made (λ value.
        more ≡ with_optional name.now value properties)) }
{
    match made? {
        Some(value) => with_made(alloc, properties, name, Ok(value)),
        None => Ok(properties),
    }
}

//! Properties of revisions, and revisions by their dates.
ghost use Rattle.std.specs.Prelude.{◌≡◌, option_copied};
ghost use Rattle.machine.specs.Readings.{author_of, dated_reply, property_reply, revision_date, revision_value, value_of_property};
ghost use Rattle.wire_replies.specs.Made.{Makes};

use crate::places::revision_read;
use byte_string::ByteString;
use history::dated_rev;
use refusals::Refusal;
use repo_api::{Properties, Repository, is_date_text, is_property_name};
use std::alloc::AllocError;
use wire_forms::copy_optional;
use wire_replies::Reply;

/// Finds the youngest revision up to a date, if the text is a date.
pub(crate) fn get_dated_rev<R: Repository>(view: &R, date: &[u8]) -> Reply
    ensures { result ≡ dated_reply (R.content view.now) date.now }
{
    if is_date_text(date) {
        Reply::Revision(dated_rev(view, date))
    } else {
        Reply::Failure(Refusal::NotSupported, None)
    }
}

/// Gives a property of a revision, if the revision is there, and a property may have the name.
pub(crate) fn rev_prop<R: Repository>(
    view: &R,
    revision: u64,
    name: &[u8],
) -> Result<Reply, AllocError>
    ensures { Makes result (property_reply (R.content view.now) revision name.now) }
{
    match revision_read(view, Some(revision)) {
        Ok(n) if is_property_name(name) => {
            Ok(Reply::RevisionProperty(revision_value(view, name, n)?))
        }
        Ok(_) => Ok(Reply::Failure(Refusal::NotSupported, None)),
        Err(refusal) => Ok(Reply::Failure(refusal, None)),
    }
}

/// Gives the date of a revision.
pub fn date_of<R: Repository>(view: &R, revision: u64) -> Result<Option<ByteString>, AllocError>
    ensures { Makes result (revision_date (R.content view.now) revision) }
{
    revision_value(view, b"svn:date", revision)
}

/// Gives the author of a revision.
pub fn author_of<R: Repository>(view: &R, revision: u64) -> Result<Option<ByteString>, AllocError>
    ensures { Makes result (author_of (R.content view.now) revision) }
{
    revision_value(view, b"svn:author", revision)
}

/// Gives the value of a property of a revision.
pub fn revision_value<R: Repository>(
    view: &R,
    name: &[u8],
    revision: u64,
) -> Result<Option<ByteString>, AllocError>
    ensures { Makes result (revision_value (R.content view.now) name.now revision) }
{
    match view.revision_properties(revision) {
        Some(properties) => copy_optional(value_of_property(name, properties)),
        None => Ok(None),
    }
}

/// Finds the value of a property.
fn value_of_property<'a>(name: &[u8], properties: &'a Properties) -> Option<&'a ByteString>
    ensures { option_copied result ≡ value_of_property name.now properties.now }
{
    for (known, value) in properties.iter() {
        if known.as_slice() == name {
            return Some(value);
        }
    }
    None
}

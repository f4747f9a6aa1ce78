//! What a client has of an entry.
ghost use Rattle.std.specs.Prelude.{◌≡◌, [], option_copied};
ghost use Rattle.repo_api.specs.{Kinds.{created_of, kind_of, node_properties}, Trees.text_of};
ghost use Rattle.drive_news.specs.Places.{entry_had};

use crate::news::Had;
use repo_api::{FileText, NodeKind, Properties, Repository};

/// Gives the kind of an entry.
pub(crate) fn had_kind<R: Repository>(view: &R, had: Had<'_>) -> NodeKind
    ensures { result ≡ kind_of (entry_had (R.content view.now) had.entry) }
{
    view.kind(had.place.revision, had.place.path)
}

/// Gives the revision of its last change.
pub(crate) fn had_created<R: Repository>(view: &R, had: Had<'_>) -> Option<u64>
    ensures { result ≡ created_of (entry_had (R.content view.now) had.entry) }
{
    view.created(had.place.revision, had.place.path)
}

/// Gives its properties, if there is an entry: none yet of a directory that starts empty.
pub(crate) fn had_properties<'a, R: Repository>(
    view: &'a R,
    had: Had<'_>,
    none: &'a Properties,
) -> Option<&'a Properties>
    requires { none.now ≡ [] }
    ensures { option_copied result ≡ node_properties (entry_had (R.content view.now) had.entry) }
{
    if had.starts_empty && had_kind(view, had).is_directory() {
        return Some(none);
    }
    view.properties(had.place.revision, had.place.path)
}

/// Gives its text, if it is a file.
pub(crate) fn had_text<'a, R: Repository>(view: &'a R, had: Had<'_>) -> Option<&'a FileText>
    ensures { option_copied result ≡ text_of (entry_had (R.content view.now) had.entry) }
{
    view.text(had.place.revision, had.place.path)
}

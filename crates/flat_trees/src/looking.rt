//! What is seen of an entry that there may be none of.
ghost use Rattle.std.specs.Prelude.{◌≡◌, option_copied};
ghost use Rattle.repo_api.specs.{Kinds.{created_of, kind_of, node_properties}, Trees.text_of};

use repo_api::{Content, Entry, FileText, Mark, NodeKind, Properties};

/// Says what the entry is: nothing where there is none.
pub fn kind(entry: Option<&Entry>) -> NodeKind
    ensures { result ≡ kind_of (option_copied entry.entry) }
{
    match entry {
        Some(entry) => entry.kind(),
        None => NodeKind::Absent,
    }
}

/// Gives the properties of the entry.
pub fn properties(entry: Option<&Entry>) -> Option<&Properties>
    ensures { option_copied result ≡ node_properties (option_copied entry.entry) }
{
    Some(&entry?.properties)
}

/// Gives the revision that last changed the entry, at or under its path.
pub fn created(entry: Option<&Entry>) -> Option<u64>
    ensures { result ≡ created_of (option_copied entry.entry) }
{
    match entry?.last {
        Mark::Open => None,
        Mark::Made(revision, _) => Some(revision as u64),
    }
}

/// Gives the text of the entry, if it is a file.
pub fn text(entry: Option<&Entry>) -> Option<&FileText>
    ensures { option_copied result ≡ text_of (option_copied entry.entry) }
{
    match &entry?.content {
        Content::Directory => None,
        Content::File(text) => Some(text),
    }
}

//! What an entry is told of itself.
use byte_string::{ByteString, Sequence};
use repo_api::{FileText, PropertyValue};
use reporter::Purpose;
use svnpath::Path;

/// Where an entry stands: a revision, and a path in it.
#[derive(Clone, Copy)]
pub struct Place<'a> {
    pub revision: u64,
    pub path: &'a Path,
}

/// What a client has of an entry: where it stands, and whether it starts empty, so that a directory
/// has no properties yet.
#[derive(Clone, Copy)]
pub struct Had<'a> {
    pub place: Place<'a>,
    pub starts_empty: bool,
}

/// What is known of an entry of a drive: what the drive is for, whether the client's token is stale,
/// what the client has of it, if it has any, and where the entry stands.
#[derive(Clone, Copy)]
pub struct Sight<'a> {
    pub purpose: Purpose,
    pub is_stale: bool,
    pub old: Option<Had<'a>>,
    pub new: Place<'a>,
}

/// Names of properties, each with its value, or with none where it is taken out.
pub type PropertyChanges = Sequence<(ByteString, Option<PropertyValue>)>;

/// What an entry is told of itself: properties, and its text, if it is told.
#[derive(Drop)]
pub struct News {
    pub changes: PropertyChanges,
    pub text: Option<FileText>,
}

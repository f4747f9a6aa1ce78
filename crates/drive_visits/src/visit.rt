//! What a drive does at a path.
use crate::known_path::KnownPath;
use svnpath::Path;

/// What a drive does at a path, or that it closes the innermost directory that is open. An entry that is opened or added is
/// a directory, or else a file; its path comes with what is known of it, and what is said of it is read off the two trees.
#[derive(Drop)]
pub enum KnownVisit<K: Drop> {
    Open {
        place: KnownPath<K>,
        is_directory: bool,
    },
    Add {
        place: KnownPath<K>,
        is_directory: bool,
    },
    Delete(Path),
    Close,
}

//! The parts of a repository's files: node revisions and entries, the other parts of a revision's
//! file, and the small files of the folder.
#![tactic(auto)]

mod body;
mod change;
mod current;
mod entries;
mod header;
mod identity;
mod laws;
mod locks;
mod node;
mod properties;
mod rows;
mod trailer;

pub use body::{append_body, read_body};
pub use change::{FileAction, FileChange, append_changes, read_changes};
pub use current::{Current, NextIds, append_current, read_current};
pub use entries::{DirectoryEntry, EntryKind, append_entry, read_entries, write_entries};
pub use identity::{append_uuid, read_uuid};
pub use laws::a_current_is_read_again;
pub use locks::{read_locks, write_locks};
pub use node::{FileNode, append_node, read_node};
pub use properties::{are_properties, read_properties, write_properties};
pub use trailer::{Trailer, append_trailer, read_trailer};

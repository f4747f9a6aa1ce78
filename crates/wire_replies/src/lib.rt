//! The replies of the server, as items of the protocol, and where they go.
#![tactic(auto)]

mod build;
mod contents;
mod entries;
mod failures;
mod file_revisions;
mod histories;
mod laws;
mod locks;
mod numbers;
mod properties;
mod reply;
mod saying;
mod sink;

pub use contents::{PIECE, TextPiece, say_contents, say_held};
pub use entries::{
    DirectoryInfo, EntryList, FileInfo, NodeInfo, say_directory_end, say_directory_head, say_entry,
    say_file_info,
};
pub use failures::{FailureLink, FailureLinks};
pub use file_revisions::{FileRevision, PropertyChanges, say_file_revision};
pub use histories::{
    ChangeList, LogEntry, LogFacts, LoggedChange, say_change, say_log_end, say_log_head,
};
pub use laws::pieces_make_the_text;
pub use locks::{LockList, copied_locks, say_locks};
pub use numbers::{decimal_text, uuid_text};
pub use properties::say_properties;
pub use reply::{Offer, Reply};
pub use saying::{say_both, say_item, say_made, say_new, tell_refusal};
pub use sink::{MemorySink, ReplySink};

//! The files of revisions: written, read, and judged by what they say of other revisions; and the
//! laws that what was written is read again.
#![tactic(auto)]

mod change;
mod dumps;
mod file_laws;
mod judged_entries;
mod judging;
mod known;
mod laws;
mod listed;
mod piece;
mod pieces;
mod revision;
mod same;
mod writer;

pub use dumps::KnownDumps;
pub use file_laws::{a_directory_is_read_again, a_file_is_read_again};
pub use judging::judge_revision;
pub use laws::{a_change_is_read_again, a_last_line_is_read_again, node_revisions_are_found};
pub use piece::{FilePiece, entries_in, read_piece};
pub use pieces::read_pieces;
pub use revision::{RevisionFile, read_known_revision, read_revision};
pub use writer::{finish_file, write_node};

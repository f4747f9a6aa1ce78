//! What makes the changes of a repository in files that threads share, and saves them.
#![tactic(auto)]

mod archive;
mod filed_archive;
mod saving;
mod served;
mod sharing;
mod unsaved;

pub use filed_archive::FiledArchive;
pub use served::{ServedAccess, ServedChanges};
pub use sharing::{ServedRepo, ServedSeat, share};
pub use unsaved::{ChangedFiles, Unsaved};

//! Commands that read the repository, each answered over one look at it.
#![tactic(auto)]

mod answers;
mod asked;
mod deleted;
mod directories;
mod entries;
mod file_revisions;
mod files;
mod histories;
mod listing;
mod locations;
mod locks;
mod log_entries;
mod logs;
mod paths;
mod places;
mod reading;
mod refusing;
mod revisions;
mod segments;

pub use answers::tell_read;
pub use revisions::{author_of, date_of, revision_value};

//! A repository in files, as a session reaches it: each change is saved before it is made.
#![tactic(auto)]

mod change;
mod changing;
mod filed;
mod laws;
mod opening;
mod settling;
mod stored;

pub use change::SavedChange;
pub use filed::{Filed, NewProperties, NewRevision};
pub use laws::{
    a_repository_stands_in_its_folder, a_stop_is_opened_as_one_of_these, a_stop_leaves_a_beginning,
};
pub use opening::{Loader, open_repository};
pub use stored::StoredRepository;

//! The files of a repository as they are saved and read: after a stop at any moment of a save they are
//! those from before it or those behind it.
#![tactic(auto)]

mod laws;
mod opening;
mod saves;

pub use laws::{a_stop_is_opened_as_old_or_new, runs_of_saves_join};
pub use opening::{Reader, Unopened, layout_of, open, read_all, read_text};
pub use saves::Saves;

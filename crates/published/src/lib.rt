//! A repository that is published, with the history that made it, which proofs alone know.
#![tactic(auto)]

mod authors;
mod event;
mod files;
mod history;
mod laws;
mod shown;

pub use authors::{Author, Authors, WholeHistory};
pub use event::{AskedChange, Happened};
pub use files::Files;
pub use history::{Front, Naming, NewHistory, Turn};
pub use laws::commits_are_right;
pub use shown::{Carries, Desk, Places, Published, Sets, Setting, Shown};

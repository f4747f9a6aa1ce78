//! A repository that shares what did not change, with its files: made in a folder, opened again,
//! and changed.
#![tactic(auto)]

mod counting;
mod creating;
mod creating_folder;
mod filed;
mod filed_world;
mod filing;
mod laws;
mod migrating;
mod opening;
mod reader;
mod reading;
mod repository;
mod written;

pub use counting::count_of;
pub use creating::{KIND, NewFiles, REPOSITORY_FORMAT, new_filed};
pub use creating_folder::create;
pub use filed_world::FiledWorld;
pub use laws::{files_of_a_repository_are_not_faulty, opened_trees_are_sound};
pub use migrating::{check_free, copy_repository, judged};
pub use opening::{FolderRepository, open};
pub use reader::FolderReader;
pub use written::{current_file, format_file, locks_file};

//! The trees that the files of revisions say, and where the node revisions of a repository stand in
//! these files.
#![tactic(auto)]

mod blocks;
mod body;
mod changes;
mod content;
mod entries;
mod kids;
mod laws;
mod placed;
mod places;
mod table;
mod tabulating;

pub use blocks::{ReadRevision, read_next};
pub use changes::changes_by_path;
pub use content::check_same_properties;
pub use laws::{
    files_say_one_repository, files_stand_for_one_state, nothing_is_tabled,
    tabled_revisions_are_those_of_the_files, tabled_trees_are_those_of_the_files,
    what_comes_next_depends_on_what_nodes_have,
};
pub use placed::Placed;
pub use table::{Table, place};
pub use tabulating::tabulated;

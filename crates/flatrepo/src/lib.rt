//! The plain program of the definitions: a repository in memory, with an ordered map of all its entries for each revision.
#![tactic(auto)]

mod edits;
mod flat;
mod flat_repo;
mod in_memory;
mod repository;
mod shared;

pub use flat_repo::FlatRepo;
pub use in_memory::InMemory;

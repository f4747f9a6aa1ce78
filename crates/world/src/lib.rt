//! A repository over node revisions, which share what did not change.
#![tactic(auto)]

mod adding;
mod committing;
mod editing;
mod filing;
mod next;
mod repository;
mod world;
mod world_txn;

pub use world::World;
pub use world_txn::WorldTxn;

//! The files of a repository: what a store of files promises, also where it is stopped; a store in memory, and one
//! that fails once.
#![tactic(auto)]

mod fault;
mod fuse;
mod memory;
mod name;
mod record;
mod store;

pub use fault::{ReplaceFault, StoreFault};
pub use fuse::{FuseStore, Left};
pub use memory::MemoryStore;
pub use name::FileName;
pub use record::Record;
pub use store::Store;

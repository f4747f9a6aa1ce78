//! The files of a repository in a folder of the system.
#![tactic(auto)]

mod fault;
mod folder;
mod lock;
mod looking;
mod own;
mod paths;
mod writing;

pub use fault::FolderFault;
pub use folder::FolderStore;
pub use lock::{FolderLock, LockFolder};

//! The revisions that the plain program of the definitions holds, and what a commit makes of them.
#![tactic(auto)]

mod commits;
mod flat_content;
mod flat_txn;
mod revisions;

pub use commits::commit;
pub use flat_content::{FlatContent, FlatRevision};
pub use flat_txn::FlatTxn;

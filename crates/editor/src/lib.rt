//! The editor of a commit: the commands of an edit become the edits of a transaction.
#![tactic(auto)]

mod deltas;
mod editor;
mod entries;
mod open_txn;
mod properties;
mod room;

pub use editor::CommitEditor;

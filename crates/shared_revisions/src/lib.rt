//! A repository whose revisions share what did not change.
#![tactic(auto)]

mod committing;
mod dating;
mod filing;
mod finding;
mod growing;
mod held;
mod laws;
mod opening;
mod revising;
mod sealing;
mod settling;
mod transactions;

pub use committing::CommitFault;
pub use held::Held;
pub use laws::{beginnings_show_the_same, transactions_are_told};

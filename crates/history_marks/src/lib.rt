//! What the marks of entries tell of the history of a repository.
#![tactic(auto)]

mod laws;

pub use laws::{
    commits_mark_changes, marks_lead_back, marks_settle, new_repositories_are_marked,
    repositories_stay_sound, transactions_stay_sound, transactions_tell_changes,
};

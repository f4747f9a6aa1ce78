//! What sessions at a repository that others change too have made of it.
#![tactic(auto)]

mod laws;

pub use laws::{
    changes_of_the_history_are_asked_for, histories_go_on_well, own_changes_are_asked_for,
};

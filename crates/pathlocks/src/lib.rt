//! Locks of paths: a map from paths to locks, what refuses a lock and an unlock, which locks stand in
//! the way of changes, and the release of those that a commit used.
#![tactic(auto)]

mod finding;
mod laws;
mod locks;
mod refusing;
mod sharing;

pub use laws::{
    a_release_of_none_changes_nothing, accepted_commits_hold_locks, locks_in_the_way_are_held,
    other_locks_stay, tokens_stay_distinct, unnamed_locks_stay,
};
pub use locks::Locks;
pub use sharing::{lock_shared, put_shared, release_shared, unlock_shared};

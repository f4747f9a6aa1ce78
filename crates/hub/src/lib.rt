//! Many sessions of one repository: their runs, as one plain machine that steps at each item, the
//! calls that make them, the laws of all runs, and a hub over a repository in a folder.
#![tactic(auto)]

mod calls;
mod hub;
mod laws;
mod opening;

pub use access::SoleRepository;
pub use calls::{Call, Outcome, make_call, make_calls};
pub use hub::{Hub, HubFault, MAX_SESSIONS, SessionId};
pub use laws::{
    a_halt_stays, changes_are_asked_for, commits_overwrite_nothing, constants_stay, cut_anywhere,
    failures_never_fall, halts_are_counted, locks_are_respected, marks_name_what_they_mark,
    new_repositories_are_sound, new_trees_are_trees, no_two_locks_have_one_token,
    nothing_else_is_asked_for, one_revision_an_event, only_accepted_changes,
    refused_changes_nothing, revision_properties_stay, revisions_are_trees, revisions_stay,
    trees_stay_trees,
};
pub use machine::{Env, Options, is_repository_name};
pub use opening::{FolderHub, hub_over, store_of};

//! Replays of revisions, each an edit of its own, over one look at the repository.
#![tactic(auto)]

mod ranges;
mod replaying;

pub use ranges::say_replay_range;
pub use replaying::say_replay;

//! What a revision did, as an edit that a mirror makes again.
#![tactic(auto)]

mod ask;
mod edits;
mod entering;
mod entries;
mod laws;
mod listing;
mod names;
mod naming;
mod places;
mod replayed;
mod saying;
mod searching;
mod spots;
mod texts;
mod walking;

pub use ask::ReplayAsk;
pub use edits::say_edit;
pub use laws::edits_lead_to_their_revision;
pub use replayed::Replayed;

//! Which merge information entries of a revision have: their own, and what they inherit.
#![tactic(auto)]

mod answers;
mod beneath;
mod inheritance;
mod laws;
mod nearest;
mod query;

pub use answers::merge_info_at;
pub use beneath::descendants;
pub use inheritance::Inheritance;
pub use laws::all_beneath_are_descendants;
pub use query::{MergeQuery, Question, questions};

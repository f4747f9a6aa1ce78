//! Merge information, the property `svn:mergeinfo`: which revisions of which paths were merged.
#![tactic(auto)]

mod info;
mod laws;
mod normal;
mod path;
mod range;
mod source;
mod sweep;
#[cfg(test)]
mod tests;

pub use info::MergeInfo;
pub use laws::{normal_forms_are_one, written_is_read};
pub use range::{LAST_REVISION, Range};
pub use source::Source;

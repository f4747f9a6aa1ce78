//! The rules of an edit on its way to a commit: what is open, which command is refused, and what each other makes of
//! the edit.
#![tactic(auto)]

mod checksums;
mod closing;
mod judging;
mod laws;
mod open_tokens;
mod opened;
mod refused;
mod texts;
mod tokens;

pub use checksums::judge_checksum;
pub use judging::{
    is_within, judge, judge_absence, judge_age, judge_directory, judge_file, judge_name,
    judge_presence, judge_room, judge_source_kind, may_open, path_named, source_named,
};
pub use laws::{edits_are_right, edits_keep_trees};
pub use open_tokens::OpenTokens;
pub use opened::{DeltaState, Opened, OpenedDirectory};
pub use refused::{added_at, path_refused};
pub use texts::text_edit_under;
pub use tokens::{
    close_beneath, close_others_beneath, copies_under, directory_under, feed_under, has_unfinished,
    set_delta,
};

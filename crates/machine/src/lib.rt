//! The machine of one session: where it stands, and what each input does there.
#![tactic(auto)]

mod comments;
mod commit_parameters;
mod drive_failures;
mod ending;
mod env;
mod failures;
mod laws;
mod login;
mod options;
mod phase;
mod revision_dates;
mod turn;

pub use comments::{COMMENT_LIMIT, is_long_comment};
pub use commit_parameters::CommitParameters;
pub use drive_failures::drive_failure;
pub use ending::{Ending, ending_of};
pub use env::Env;
pub use failures::failure_at;
pub use laws::{file_texts_follow, one_hearing, steps_keep_trees, steps_rest};
pub use login::{Mechanism, OpenChallenge, OpenLogin, chosen, offer};
pub use options::{Options, is_repository_name};
pub use phase::{Client, OpenEdit, OpenReporting, Phase};
pub use revision_dates::is_refused_date;
pub use turn::Turn;

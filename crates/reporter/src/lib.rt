//! What a client reports to have, what a drive is to lead to and why a report is refused; what the
//! commands of a drive say, which drives are right, and what a client answers.
#![tactic(auto)]

mod answering;
mod applying;
mod ask;
mod asking;
mod graft;
mod grafts;
mod index;
mod joining_drives;
mod judging;
mod laws;
mod links;
mod named_path;
mod report;
mod reported;
mod room;
mod sources;

pub use answering::ClientAnswer;
pub use applying::{Link, delete_path, finish, set_path};
pub use ask::{DepthAsked, DriveAsk, Purpose};
pub use asking::{Anchor, Errand, ask_of, begin};
pub use graft::{Graft, Subtree, is_to_the_end};
pub use grafts::Grafts;
pub use joining_drives::drives_join;
pub use laws::{
    drive_trees_hold_together, others_are_led_to_the_goal, reported_trees_hold_together,
    revisions_hold_together, whole_reports_are_revisions,
};
pub use links::{is_excluded_at, link_at};
pub use named_path::NamedPath;
pub use report::{OpenReport, Report, ReportRoot};
pub use reported::{ReportedPlace, depth_below, reported_at};

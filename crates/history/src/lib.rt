//! The history of places, read off the lists of changes: logs, where a place was or went, and lines of history.
#![tactic(auto)]

mod beneath;
mod coming;
mod dates;
mod gathering;
mod kinds;
mod laws;
mod lines;
mod listed;
mod locating;
mod log;
mod log_ask;
mod meeting;
mod walk;
mod walks;

pub use beneath::{are_one_line_beneath, are_one_line_beside};
pub use dates::dated_rev;
pub use kinds::kind_shown;
pub use laws::{
    dated_revisions_are_greatest, locations_are_on_traces, logs_are_right, traces_fall,
};
pub use lines::is_one_line;
pub use listed::Listed;
pub use locating::{each_once, location, locations};
pub use log::Log;
pub use log_ask::LogAsk;
pub use traces::Place;
pub use walk::{ask_on, next_listed, step_back};

//! What a client asks for by an update, a switch, a status or a diff, and the commands of its report, as
//! items of the protocol.
#![tactic(auto)]

mod asking;
mod depth_word;
mod parameters;
mod report;

pub use asking::{DiffRequest, DriveRequest, read_diff, read_status, read_switch, read_update};
pub use depth_word::DepthWord;
pub use report::{ReportCommand, ReportName, ReportedPath, read_name};

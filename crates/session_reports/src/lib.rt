//! Reports within a session: their commands, and their end by a drive.
#![tactic(auto)]

mod driven;
mod finishing;
mod heeding;
mod refused;
mod reporting_item;

pub use driven::driven_item;
pub use reporting_item::report_item;

//! An ordered map from names, in parts that copies share.
#![tactic(auto)]

mod comparing;
mod listing;
mod parts;
mod putting;
mod remaking;
mod removing;
mod same;
mod searching;
mod shared_map;

pub use same::Same;
pub use shared_map::SharedMap;

//! A tree of the plain program of the definitions: an ordered map of all its entries.
#![tactic(auto)]

mod copies;
mod entries;
mod flat_tree;
mod looking;
mod names;
mod path_map;
mod touching;

pub use flat_tree::FlatTree;
pub use looking::{created, kind, properties, text};

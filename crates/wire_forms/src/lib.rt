//! The forms of commands: a name and its parameters, what a parameter may be, and why an item is no
//! command.
#![tactic(auto)]

mod fault;
mod form;
mod lists;
mod names;
mod pairs;

pub use fault::CommandFault;
pub use form::{
    copy_optional, read_boolean, read_flag, read_form, read_items, read_list, read_number,
    read_optional_number, read_optional_string, read_revision, read_string, read_word,
};
pub use lists::{Numbers, Strings, read_numbers, read_strings};
pub use names::named;
pub use pairs::{Pairs, read_pairs};

//! The commands of an edit, as items of the protocol.
#![tactic(auto)]

mod editing;
mod laws;
mod places;
mod printing;
mod texts;

pub use editing::{
    AbsentEntry, AddedEntry, CommandName, DeletedEntry, EditorCommand, OpenedEntry, PropertyChange,
    ends_edit,
};
pub use laws::commands_are_read;
pub use printing::write_command;

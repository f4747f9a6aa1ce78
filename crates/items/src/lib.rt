// Items of Subversion's wire protocol, as the document `protocol` of libsvn_ra_svn has them: words,
// numbers, strings and lists, read from a stream that comes in pieces of any size, and written.
#![tactic(auto)]

mod build;
mod fault;
mod item;
mod laws;
mod reader;
mod scan;
mod stream;
mod write;

pub use item::{Item, Name};
pub use laws::{fault_is_answered_again, fault_stays, one_fault, one_reading, written_is_spelled};
pub use reader::{ItemFault, ItemReader};
pub use stream::decode;
pub use write::{append_number, append_string, append_word, write_item};

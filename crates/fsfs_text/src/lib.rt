//! How words are spelled in the files of a repository's folder: lines, numbers, dumps, ids, and the
//! file `format`.
#![tactic(auto)]

mod dump_reading;
mod dump_writing;
mod fault;
mod format;
mod id;
mod laws;
mod numeral;
mod pair;
mod place;
mod representation;
mod split;

pub use dump_reading::read_dump;
pub use dump_writing::{append_end, append_pair, write_dump};
pub use fault::FileFault;
pub use format::{Format, Layout, append_format, layout_in, read_format};
pub use id::{FileId, IdPart, append_id, parse_id};
pub use laws::a_format_is_read_again;
pub use numeral::{append_base_36, append_number, parse_decimal, parse_decimal_32, parse_number};
pub use pair::DumpPair;
pub use place::{Place, append_place, parse_place};
pub use representation::{Representation, append_representation, parse_representation};
pub use split::{line_at, split_last, split_once, without_prefix};

//! Text deltas in svndiff version 0: a document is read over a base, and a text is written as one.
//!
//! The format is that of Subversion's document `svndiff`, version 0. Copies from the target view are refused.
#![tactic(auto)]

mod applier;
mod fault;
mod format;
mod full;
mod instruction;
mod integer;
mod reading;
mod section;
mod stage;
mod target;
mod window;

pub use applier::Applier;
pub use fault::DiffFault;
pub use format::{has_the_text_of_the_format, texts_keep_the_limit};
pub use full::{WINDOW, encode_full, put_window};
pub use reading::HEADER;

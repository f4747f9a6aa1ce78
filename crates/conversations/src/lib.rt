//! Sessions one after another, each between a reader and a writer, at a repository that others may change.
#![tactic(auto)]

mod envs;
mod fault;
mod gate;
mod limits;
mod pieces;
mod sink;
mod tried;
mod watch;
mod worker;

pub use envs::EnvSource;
pub use fault::TalkFault;
pub use gate::{Gate, OpenGate};
pub use guests::Awaited;
pub use machine::Env;
pub use pieces::read_piece;
pub use sink::{OutputSink, PIECE, write_and_flush};
pub use watch::{Unwatched, Watch};
pub use worker::Worker;

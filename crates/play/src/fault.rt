//! Why a script is not played to its end.

use script_lines::LineFault;
use std::io;
use std::process::ExitCode;
use thiserror::Error;

/// Why a script is not played to its end.
#[derive(Debug, Drop, Error)]
pub enum ScriptFault {
    /// The line of this number, from 1 on, is not played.
    #[error("line {0}: {1}")]
    Line(usize, LineFault),
    /// The line of this number, from 1 on, has another answer over the plain program of the definitions.
    #[error("line {0}: the plain program answers otherwise")]
    Differs(usize),
    /// The command line has other words than those that there are.
    #[error("the words may be `--flat`, `--both` or `--help`")]
    Words,
    /// The script is not read, or an answer is not written.
    #[error("{0}")]
    Stream(io::Error),
}

impl ScriptFault {
    /// Says what the program ends with.
    pub fn exit_code(&self) -> ExitCode {
        match self {
            ScriptFault::Line(_, LineFault::NoMemory) => ExitCode::FAILURE,
            ScriptFault::Line(_, _) | ScriptFault::Words => ExitCode::from(2),
            ScriptFault::Differs(_) | ScriptFault::Stream(_) => ExitCode::FAILURE,
        }
    }
}

impl From<io::Error> for ScriptFault {
    fn from(error: io::Error) -> Self {
        ScriptFault::Stream(error)
    }
}

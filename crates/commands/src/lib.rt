//! The commands of a client and its words at the login, as items of the protocol.
#![tactic(auto)]

mod command;
mod login;

pub use command::{
    CommandName, CommitCommand, DriveCommand, GetDeletedRevCommand, GetDirCommand, GetFileCommand,
    GetFileRevsCommand, GetLocationSegmentsCommand, GetLocationsCommand, HistoryCommand,
    LockCommand, LogCommand, MainCommand, ReadCommand, ReplayCommand, ReplayRangeCommand,
    UnlockCommand,
};
pub use login::{AuthResponse, ClientGreeting, challenge_answer};

//! Sessions over TCP: a thread for each, at one repository that they share.
#![tactic(auto)]

mod desks;
mod envs;
mod fault;
mod opening;
mod reason;
mod serving;
mod settings;
mod tunnels;
mod users_file;

pub use desks::{Access, Desk, Desks, SharedFiles, desks_of};
pub use entrance::{Readings, Tunnel};
pub use envs::SystemEnvs;
pub use fault::{INVALID_LINE, ServingFault, UNREADABLE};
pub use journals::moment_now;
pub use reason::Reason;
pub use serving::{serve, serve_connections};
pub use settings::{Server, Settings, read_settings};
pub use tunnels::{socket_in, tunnel_in};
pub use users_file::UsersFile;

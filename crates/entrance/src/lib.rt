//! Connections as they come: each becomes a session, waits for a place, or is turned away; and what is known of those that have
//! places.
#![tactic(auto)]

mod accepting;
mod clients;
mod clock;
mod door;
mod events;
mod limits;
mod notes;
mod peer;
mod refusing;
mod registry;
mod tunnel;
mod visitor;

pub use accepting::{Entrance, Halts, MAX_WAITING, take_all};
pub use clients::{Client, ClientInput, ClientOutput, ClientVisit};
pub use clock::millis_now;
pub use door::{Door, Heard, Pool, ReadOnce, Readings, Street};
pub use events::Event;
pub use limits::too_few_files;
pub use peer::Peer;
pub use registry::Registry;
pub use tunnel::Tunnel;
pub use visitor::Visitor;

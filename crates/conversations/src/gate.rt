//! Who hears what sessions wait for, and lets their pieces pass.

use guests::Awaited;

/// Is called before a piece of a session is read, and before it is fed. Sessions and the pieces of a session are
/// counted from 1 on, and a session ends after its piece 2^64 - 1.
pub trait Gate {
    /// Hears what the session waits for, before a piece of it is read.
    fn awaits(&self, session: u64, awaited: Awaited);

    /// Returns once the piece may be fed.
    fn pass(&self, session: u64, piece: u64);
}

/// Lets each piece go on at once.
#[derive(Clone, Copy)]
pub struct OpenGate;

impl Gate for OpenGate {
    fn awaits(&self, _session: u64, _awaited: Awaited) {}

    fn pass(&self, _session: u64, _piece: u64) {}
}

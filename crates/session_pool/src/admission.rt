//! Whether a connection becomes a session.

/// What becomes of a connection.
#[derive(Clone, Copy, Debug, PartialEq, Eq)]
pub enum Admission {
    /// It is the session of this number.
    Session(u64),
    /// As many sessions are open as may be.
    Full,
    /// The store has failed, and no session begins any more.
    Halted,
}

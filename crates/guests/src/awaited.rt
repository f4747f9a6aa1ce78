//! What a session waits for.

/// What a session waits for from its client.
#[derive(Clone, Copy)]
pub enum Awaited {
    /// What belongs to a login: the answer to the greeting, a mechanism, or an answer to a challenge.
    Login,
    /// A command.
    Command,
    /// A command of a report, or the answer to a drive.
    Report,
    /// A command of an edit.
    Edit,
    /// Nothing any more.
    Nothing,
}

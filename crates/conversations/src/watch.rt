//! Who is told of sessions what an administrator wants to know.

use crate::fault::TalkFault;

/// Is told of logins, and how sessions end.
pub trait Watch {
    /// Hears that the client of the session of this number has logged in as this user.
    fn logged_in(&self, session: u64, user: &[u8]);

    /// Hears that so many logins of the session of this number were refused, of which the first was tried with this name, if that is
    /// known.
    fn refused(&self, session: u64, logins: u64, name: Option<&[u8]>);

    /// Hears that the session of this number is given up, for this fault.
    fn given_up(&self, session: u64, fault: &TalkFault);

    /// Hears that the session of this number has ended, in order or because its connection failed, and whether
    /// changes have come to a halt by then.
    fn ended(&self, session: u64, is_halted: bool);
}

/// Takes no notice.
#[derive(Clone, Copy)]
pub struct Unwatched;

impl Watch for Unwatched {
    fn logged_in(&self, _session: u64, _user: &[u8]) {}

    fn refused(&self, _session: u64, _logins: u64, _name: Option<&[u8]>) {}

    fn given_up(&self, _session: u64, _fault: &TalkFault) {}

    fn ended(&self, _session: u64, _is_halted: bool) {}
}

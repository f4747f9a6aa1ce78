//! A session that is open.

use crate::awaited::Awaited;
use crate::silence::is_of_login;

/// A session that is open, as far as its place is concerned. Its moments are milliseconds of one clock.
#[derive(Clone, Copy)]
pub struct Guest {
    pub session: u64,
    /// A number of its client's address, the same for all that count as one.
    pub address: u64,
    /// What it awaits, or has awaited last.
    pub awaited: Awaited,
    /// Whether it waits for its client, and does nothing else.
    pub is_waiting: bool,
    /// Whether its client has sent anything.
    pub has_sent: bool,
    /// Since when it waits for its client.
    pub since: u64,
    /// When the login that it awaits, or has awaited last, began.
    pub login_since: u64,
    /// Until when it reads nothing, since logins were refused.
    pub rests_until: u64,
    /// Whether it gives its place up.
    pub leaves: bool,
}

impl Guest {
    /// Makes the guest of a session that begins.
    pub(crate) fn new(session: u64, address: u64, now: u64) -> Self {
        Guest {
            session,
            address,
            awaited: Awaited::Login,
            is_waiting: false,
            has_sent: false,
            since: now,
            login_since: now,
            rests_until: 0,
            leaves: false,
        }
    }

    /// Notes what its session awaits from its client from a moment on.
    pub fn awaits(&mut self, awaited: Awaited, now: u64) {
        if is_of_login(awaited) && !is_of_login(self.awaited) {
            self.login_since = now;
        }
        self.awaited = awaited;
        self.is_waiting = true;
        self.since = now;
    }

    /// Notes that its client has sent something, so that its session does not wait for it.
    pub fn hears(&mut self) {
        self.is_waiting = false;
        self.has_sent = true;
    }
}

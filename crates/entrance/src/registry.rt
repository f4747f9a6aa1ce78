//! What is known of the sessions that are open.

use crate::clock::millis_now;
use crate::events::Event;
use crate::notes::Notes;
use crate::peer::Peer;
use guests::{Awaited, Ending, Guests};
use journals::Journal;
use session_pool::{Gate, TalkFault, Watch};
use std::alloc::{AllocError, Global};
use std::collections::BTreeMap;
use std::io::Eprint;
use std::net::{Net, SocketAddr, TcpStream};
use std::sync::atomic::{AtomicBool, AtomicU64, Ordering};
use std::sync::{Mutex, Wait};
use std::time::{Clock, Duration};

/// How long a session in which a login was refused waits before it reads on, in milliseconds: so passwords are not guessed
/// fast.
const REFUSED_REST: u64 = 1_000;

/// How long it is waited for the connection that wakes the thread that takes connections, in seconds.
const WAKE_LIMIT: u64 = 1;

/// For how long a session works on an edit before its client is asked for, in milliseconds.
const ASKED_AFTER: u64 = 100;

/// Knows which sessions are open, and what each awaits, and tells of them.
pub struct Registry<'a, R> {
    rt: &'a R,
    alloc: Global,
    journal: Journal<'a, R>,
    /// How many sessions there may be at a time.
    sessions: u64,
    /// How many are open.
    open: AtomicU64,
    /// Where a connection wakes the thread that takes connections, if that is to end once changes have come to a halt.
    wakes_at: Option<SocketAddr>,
    told_of_halt: AtomicBool,
    /// Until when some session reads nothing, at the latest.
    rests_until: AtomicU64,
    /// What sessions have noted since the guests were asked last.
    notes: Notes,
    guests: Mutex<Guests>,
    /// Where the client of each session is.
    peers: Mutex<BTreeMap<u64, Peer>>,
}

impl<'a, R> Drop for Registry<'a, R> {
    fn drop(self) {
        let Registry {
            rt: _,
            alloc: _,
            journal: _,
            sessions: _,
            open: _,
            wakes_at: _,
            told_of_halt: _,
            rests_until: _,
            notes: _,
            guests: _,
            peers: _,
        } = self;
    }
}

/// Writes how many logins of a session were refused, whose client is at this address, and with which name the first was tried.
fn refused_text(
    alloc: Global,
    (session, peer): (u64, Peer),
    logins: u64,
    name: Option<&[u8]>,
) -> Result<String, AllocError> {
    match name {
        Some(name) => {
            let name = name.escape_ascii();
            format!(in alloc; "session {session} ({peer}) is refused logins: {logins}, as {name}")
        }
        None => format!(in alloc; "session {session} ({peer}) is refused logins: {logins}"),
    }
}

impl<'a, R> Registry<'a, R> {
    /// Makes a registry of no sessions, where there may be so many, which tells of them in a journal. Once changes have come to
    /// a halt it makes a connection to this address, if there is one.
    pub fn new(
        rt: &'a R,
        alloc: Global,
        journal: Journal<'a, R>,
        sessions: u64,
        wakes_at: Option<SocketAddr>,
    ) -> Self {
        Registry {
            rt,
            alloc,
            journal,
            sessions,
            open: AtomicU64::new(0),
            wakes_at,
            told_of_halt: AtomicBool::new(false),
            rests_until: AtomicU64::new(0),
            notes: Notes::new(alloc, sessions),
            guests: Mutex::new(Guests::new(alloc)),
            peers: Mutex::new(BTreeMap::new(alloc)),
        }
    }

    /// Says whether nothing is told.
    pub fn is_quiet(&self) -> bool {
        self.journal.is_quiet()
    }

    /// Says whether a session waits for a command, as far as it has noted that.
    pub(crate) fn awaits_command(&self, session: u64) -> bool {
        self.notes.awaits_command(session)
    }

    /// Says how many sessions there may be at a time.
    pub(crate) fn sessions(&self) -> u64 {
        self.sessions
    }

    /// Says whether no session is open.
    pub(crate) fn is_empty(&self) -> bool {
        self.open.load(Ordering::SeqCst) == 0
    }

    /// Gives the runtime.
    pub(crate) fn runtime(&self) -> &'a R {
        self.rt
    }
}

impl<'a, R: Eprint + Clock> Registry<'a, R> {
    /// Tells an event at once, before any session begins.
    pub fn tell_first(&self, event: Event) {
        self.journal.write_now(event.text(self.alloc));
    }
}

impl<'a, R: Clock + Wait> Registry<'a, R> {
    /// Tells an event.
    pub(crate) fn tell(&self, event: Event) {
        if !self.is_quiet() {
            self.journal.tell(event.text(self.alloc));
        }
    }

    /// Tells what came of a reading of the file of users.
    pub fn tell_reading(&self, text: Result<String, AllocError>) {
        self.journal.tell(text);
    }

    /// Says whether a line is to be written of what clients do, and where its memory comes from.
    pub(crate) fn writes_deeds(&self) -> Option<Global> {
        if self.is_quiet() {
            return None;
        }
        Some(self.alloc)
    }

    /// Tells what a client has done.
    pub(crate) fn tell_deed(&self, text: Result<String, AllocError>) {
        self.journal.tell(text);
    }

    /// Counts the sessions of all that count as one with a client.
    pub(crate) fn sessions_of(&self, peer: Peer) -> u64 {
        self.guests.lock(self.rt).count_of(peer.number())
    }

    /// Notes that a session begins, and tells it.
    pub(crate) fn begins(&self, session: u64, peer: Peer) -> Result<(), AllocError> {
        let (address, now) = (peer.number(), millis_now(self.rt));
        self.peers.lock(self.rt).insert(session, peer)?;
        if let Err(error) = self.guests.lock(self.rt).come(session, address, now) {
            self.peers.lock(self.rt).remove(&session);
            return Err(error);
        }
        self.open.fetch_add(1, Ordering::SeqCst);
        self.notes.begin(session);
        self.tell(Event::Begins(session, peer));
        Ok(())
    }

    /// Notes that a session has ended, and tells it.
    pub(crate) fn ends(&self, session: u64) {
        self.notes.end(session);
        self.guests.lock(self.rt).go(session);
        self.peers.lock(self.rt).remove(&session);
        self.tell(Event::Ends(session));
        self.open.fetch_sub(1, Ordering::SeqCst);
    }

    /// Says where the client of a session comes from, if the session is open.
    fn peer_of(&self, session: u64) -> Option<Peer> {
        self.peers.lock(self.rt).get(&session).copied()
    }

    /// Tells how many logins of a session were refused, and with which name the first was tried.
    fn tell_refused(&self, session: u64, logins: u64, name: Option<&[u8]>) {
        if let Some(peer) = self.peer_of(session) {
            self.journal
                .tell(refused_text(self.alloc, (session, peer), logins, name));
        }
    }

    /// Says whether a session has been at work on an edit for a while, since its client has sent what is worked at, or since
    /// that was said last.
    pub(crate) fn has_edited(&self, session: u64) -> bool {
        self.notes
            .has_edited(session, millis_now(self.rt), ASKED_AFTER)
    }

    /// Notes how many clients wait for a place.
    pub(crate) fn want(&self, wanted: usize) {
        self.guests.lock(self.rt).want(wanted);
    }

    /// Says for how many milliseconds a session still reads nothing.
    pub(crate) fn rest_of(&self, session: u64) -> u64 {
        let now = millis_now(self.rt);
        if self.rests_until.load(Ordering::SeqCst) <= now {
            return 0;
        }
        self.guests.lock(self.rt).rest_of(session, now)
    }

    /// Says why a session is to end now, if it is, by what it has noted; and by what all have noted, where that matters:
    /// where it may give its place up to a client that waits.
    fn ending_of(&self, session: u64, now: u64) -> Option<Ending> {
        let mut guests = self.guests.lock(self.rt);
        self.notes.tell(&mut guests, session);
        if guests.may_give_place(session, now) {
            self.notes.tell_all(&mut guests);
        }
        guests.ending_of(session, self.sessions as usize, now)
    }

    /// Says whether a session is to end because its client sends nothing, and tells why.
    pub(crate) fn is_to_end(&self, session: u64) -> bool {
        let now = millis_now(self.rt);
        match self.ending_of(session, now) {
            Some(ending) => {
                self.tell(Event::Ended(session, ending));
                true
            }
            None => false,
        }
    }
}

impl<'a, R: Clock + Wait> Gate for Registry<'a, R> {
    fn awaits(&self, session: u64, awaited: Awaited) {
        let now = millis_now(self.rt);
        if !self.notes.awaits(session, awaited, now) {
            self.guests.lock(self.rt).awaits(session, awaited, now);
        }
    }

    fn pass(&self, session: u64, _piece: u64) {
        if !self.notes.hears(session, millis_now(self.rt)) {
            self.guests.lock(self.rt).hears(session);
        }
    }
}

impl<'a, R: Net> Registry<'a, R> {
    /// Wakes the thread that takes connections, if it is to end.
    fn wake(&self) {
        if let Some(address) = self.wakes_at {
            // where it cannot be reached, the next client wakes it
            let _ = TcpStream::connect_timeout(self.rt, &address, Duration::from_secs(WAKE_LIMIT));
        }
    }
}

impl<'a, R: Clock + Net + Wait> Watch for Registry<'a, R> {
    fn logged_in(&self, session: u64, user: &[u8]) {
        if !self.is_quiet() {
            let user = user.escape_ascii();
            self.journal.tell(format!(in self.alloc; "session {session} logs in as {user}"));
        }
    }

    fn refused(&self, session: u64, logins: u64, name: Option<&[u8]>) {
        if !self.is_quiet() {
            self.tell_refused(session, logins, name);
        }
        let until = millis_now(self.rt).saturating_add(REFUSED_REST);
        self.guests.lock(self.rt).rest(session, until);
        self.rests_until.fetch_max(until, Ordering::SeqCst);
    }

    fn given_up(&self, session: u64, fault: &TalkFault) {
        if !self.is_quiet() {
            self.journal.tell(format!(in self.alloc; "session {session} is given up: {fault}"));
        }
    }

    fn ended(&self, session: u64, is_halted: bool) {
        self.ends(session);
        if is_halted && !self.told_of_halt.swap(true, Ordering::SeqCst) {
            self.tell(Event::StoreFailed);
            self.wake();
        }
    }
}

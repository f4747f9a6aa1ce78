//! What sessions await, noted without a lock.

use guests::{Awaited, Guest, Guests};
use std::alloc::Global;
use std::sync::atomic::{AtomicU64, Ordering};

/// How many places are next to each other, in memory that one processor takes at a time. Sessions that begin one after
/// another have theirs in other rows, so that their threads wait for no memory of another.
const OF_A_ROW: u64 = 4;

/// In a note: the session waits for its client.
const WAITS: u64 = 1;

/// In a note: its client has sent something.
const HAS_SENT: u64 = 2;

/// By how many bits what is awaited stands above these, and the moment.
const AWAITED_ABOVE: u32 = 2;

const MOMENT_ABOVE: u32 = 5;

/// In a note: what is awaited, or was before the client sent something.
const AWAITED: u64 = 28;

/// The place of a session: its number, 0 where no session has it, and its note, 0 where nothing was noted.
#[derive(Drop)]
struct Place {
    session: AtomicU64,
    note: AtomicU64,
}

/// What sessions await: each notes it at the place of its number, in its own thread. A session has none whose place
/// another has. There are as many rows of places as there may be sessions.
#[derive(Drop)]
pub(crate) struct Notes {
    rows: u64,
    places: Vec<Place>,
}

/// Makes a number of what is awaited.
fn code_of(awaited: Awaited) -> u64 {
    match awaited {
        Awaited::Login => 0,
        Awaited::Command => 1,
        Awaited::Report => 2,
        Awaited::Edit => 3,
        Awaited::Nothing => 4,
    }
}

/// Gives what is awaited, by a note.
fn awaited_of(note: u64) -> Awaited {
    match note >> AWAITED_ABOVE & 7 {
        0 => Awaited::Login,
        1 => Awaited::Command,
        2 => Awaited::Report,
        3 => Awaited::Edit,
        _ => Awaited::Nothing,
    }
}

/// Tells a guest what its session has noted.
fn tell_guest(guest: &mut Guest, note: u64) {
    if note & HAS_SENT != 0 {
        guest.hears();
    }
    if note & WAITS != 0 {
        guest.awaits(awaited_of(note), note >> MOMENT_ABOVE);
    }
}

impl Notes {
    /// Makes places for so many sessions, which none has; fewer where memory is refused.
    pub(crate) fn new(alloc: Global, sessions: u64) -> Self {
        let mut places = Vec::new(alloc);
        for _ in 0..sessions.saturating_mul(OF_A_ROW) {
            let place = Place {
                session: AtomicU64::new(0),
                note: AtomicU64::new(0),
            };
            if places.push(place).is_err() {
                break;
            }
        }
        Notes {
            rows: sessions,
            places,
        }
    }

    /// Finds the place of a number.
    fn place_of(&self, session: u64) -> Option<&Place> {
        let row = session.checked_rem(self.rows)?;
        let turn = session.checked_div(self.rows)? % OF_A_ROW;
        let place = row.saturating_mul(OF_A_ROW).saturating_add(turn);
        self.places.get(place as usize)
    }

    /// Finds the place of a session, if it has it.
    fn own(&self, session: u64) -> Option<&Place> {
        let place = self.place_of(session)?;
        if place.session.load(Ordering::SeqCst) == session {
            Some(place)
        } else {
            None
        }
    }

    /// Gives a session its place, unless another has it.
    pub(crate) fn begin(&self, session: u64) {
        if let Some(place) = self.place_of(session) {
            let _ = place
                .session
                .compare_exchange(0, session, Ordering::SeqCst, Ordering::SeqCst);
        }
    }

    /// Takes the place of a session back, if it has one.
    pub(crate) fn end(&self, session: u64) {
        if let Some(place) = self.own(session) {
            place.note.store(0, Ordering::SeqCst);
            place.session.store(0, Ordering::SeqCst);
        }
    }

    /// Notes what a session awaits from a moment on, if it has a place; whether it has.
    pub(crate) fn awaits(&self, session: u64, awaited: Awaited, now: u64) -> bool {
        let Some(place) = self.own(session) else {
            return false;
        };
        let sent = place.note.load(Ordering::SeqCst) & HAS_SENT;
        let note = now << MOMENT_ABOVE | code_of(awaited) << AWAITED_ABOVE | sent | WAITS;
        place.note.store(note, Ordering::SeqCst);
        true
    }

    /// Notes that the client of a session has sent something, which is worked at from a moment on, if the session has a
    /// place; whether it has.
    pub(crate) fn hears(&self, session: u64, now: u64) -> bool {
        let Some(place) = self.own(session) else {
            return false;
        };
        let awaited = place.note.load(Ordering::SeqCst) & AWAITED;
        let note = now << MOMENT_ABOVE | awaited | HAS_SENT;
        place.note.store(note, Ordering::SeqCst);
        true
    }

    /// Says whether a session has been at work on an edit for so many milliseconds, since its client has sent what is worked
    /// at, or since that was said last. The session itself asks, and nobody else.
    pub(crate) fn has_edited(&self, session: u64, now: u64, millis: u64) -> bool {
        let note = self.note_of(session);
        let is_at_work = note & (HAS_SENT | WAITS) == HAS_SENT;
        let is_editing = is_at_work && matches!(awaited_of(note), Awaited::Edit);
        let has_edited = is_editing && now.saturating_sub(note >> MOMENT_ABOVE) >= millis;
        has_edited && self.hears(session, now)
    }

    /// Gives the note of a session, 0 where it has none.
    fn note_of(&self, session: u64) -> u64 {
        match self.own(session) {
            Some(place) => place.note.load(Ordering::SeqCst),
            None => 0,
        }
    }

    /// Says whether a session has noted that it waits for a command.
    pub(crate) fn awaits_command(&self, session: u64) -> bool {
        let note = self.note_of(session);
        note & WAITS != 0 && matches!(awaited_of(note), Awaited::Command)
    }

    /// Tells what a session has noted.
    pub(crate) fn tell(&self, guests: &mut Guests, session: u64) {
        let note = self.note_of(session);
        if note & HAS_SENT != 0 {
            guests.hears(session);
        }
        if note & WAITS != 0 {
            guests.awaits(session, awaited_of(note), note >> MOMENT_ABOVE);
        }
    }

    /// Tells what all sessions have noted.
    pub(crate) fn tell_all(&self, guests: &mut Guests) {
        let all = guests.all();
        for place in 0..all.len() {
            let note = self.note_of(all[place].session);
            tell_guest(&mut all[place], note);
        }
    }
}

//! All sessions that are open.
ghost use Rattle.std.specs.Prelude.{◌≡◌, ◌<◌, ℕ, get_or, length, IfSome, Some};
ghost use Rattle.guests.specs.Silence.{ending, gives_place, is_longest_silent, is_wanted, staying};

use crate::awaited::Awaited;
use crate::guest::Guest;
use crate::silence::{Ending, ending_at, is_ready_at};
use std::alloc::{AllocError, Global};

/// All sessions that are open, in the order of their numbers, and how many clients wait for a place of theirs.
pub struct Guests {
    present: Vec<Guest>,
    wanted: usize,
}

impl Drop for Guests {
    fn drop(self) {
        let Guests {
            present: _,
            wanted: _,
        } = self;
    }
}

/// Finds the guest of a session.
fn place_of(present: &[Guest], session: u64) -> Option<usize>
    ensures { IfSome result (λ place. place < length present.now) }
{
    match present.binary_search_by_key(&session, |guest| guest.session) {
        Ok(place) => Some(place),
        Err(_) => None,
    }
}

/// Counts the guests of an address.
fn count_of(present: &[Guest], address: u64) -> u64 {
    let mut count = 0;
    for guest in present {
        if guest.address == address {
            count = u64::saturating_add(count, 1);
        }
    }
    count
}

/// Says whether no guest has been silent for longer than this one, of those that give their places up.
fn is_longest_silent(now: u64, guest: &Guest, present: &[Guest]) -> bool
    ensures { result ≡ is_longest_silent now guest.now present.now }
{
    present.iter().all(|other| !is_ready_at(now, other) || guest.since <= other.since)
}

/// Counts the guests that do not leave.
fn count_of_staying(present: &[Guest]) -> usize
    ensures { result ≡ length (staying present.now) }
{
    present.iter().filter(|guest| !guest.leaves).count()
}

/// Says whether more clients want a place than are free, or are being given up, of so many places.
fn is_wanted(wanted: usize, places: usize, present: &[Guest]) -> bool
    ensures { result ≡ is_wanted wanted places present.now }
{
    wanted > places.saturating_sub(count_of_staying(present))
}

/// Says whether a guest gives its place up.
fn gives_place(now: u64, guest: &Guest, guests: &Guests, places: usize) -> bool
    ensures { result ≡ gives_place now guest.now guests.now.present.items guests.now.wanted places }
{
    let present = guests.present.as_slice();
    is_ready_at(now, guest)
        && is_longest_silent(now, guest, present)
        && is_wanted(guests.wanted, places, present)
}

/// Says why a guest's session ends, of so many that may have places, if it does.
fn ending(now: u64, guest: &Guest, guests: &Guests, places: usize) -> Option<Ending>
    ensures { result ≡ ending now guest.now guests.now.present.items guests.now.wanted places }
{
    match ending_at(now, guest) {
        Some(ending) => Some(ending),
        None if gives_place(now, guest, guests, places) => Some(Ending::GivesPlace),
        None => None,
    }
}

impl Guests {
    /// Makes a list of no guests, for whose places nobody waits.
    pub fn new(alloc: Global) -> Self {
        Guests {
            present: Vec::new(alloc),
            wanted: 0,
        }
    }

    /// Counts the sessions of an address.
    pub fn count_of(&self, address: u64) -> u64 {
        count_of(self.present.as_slice(), address)
    }

    /// Notes that a session of an address begins, whose number is above those of all others.
    pub fn come(&mut self, session: u64, address: u64, now: u64) -> Result<(), AllocError> {
        let guest = Guest::new(session, address, now);
        self.present.push(guest).map_err(AllocError::from)
    }

    /// Notes that a session has ended.
    pub fn go(&mut self, session: u64) {
        if let Some(place) = place_of(self.present.as_slice(), session) {
            self.present.remove(place);
        }
    }

    /// Notes what a session awaits from now on.
    pub fn awaits(&mut self, session: u64, awaited: Awaited, now: u64) {
        if let Some(place) = place_of(self.present.as_slice(), session) {
            self.present[place].awaits(awaited, now);
        }
    }

    /// Notes that the client of a session has sent something, so that the session does not wait for it.
    pub fn hears(&mut self, session: u64) {
        if let Some(place) = place_of(self.present.as_slice(), session) {
            self.present[place].hears();
        }
    }

    /// Gives all guests.
    pub fn all(&mut self) -> &mut [Guest] {
        self.present.as_mut_slice()
    }

    /// Says whether a session gives its place up as soon as it is the one that has been silent longest, since a client waits
    /// for a place.
    pub fn may_give_place(&self, session: u64, now: u64) -> bool {
        match place_of(self.present.as_slice(), session) {
            Some(place) => self.wanted > 0 && is_ready_at(now, &self.present[place]),
            None => false,
        }
    }

    /// Notes that a session reads nothing until a moment.
    pub fn rest(&mut self, session: u64, until: u64) {
        if let Some(place) = place_of(self.present.as_slice(), session) {
            self.present[place].rests_until = until;
        }
    }

    /// Says for how long a session still reads nothing.
    pub fn rest_of(&self, session: u64, now: u64) -> u64 {
        match place_of(self.present.as_slice(), session) {
            Some(place) => self.present[place].rests_until.saturating_sub(now),
            None => 0,
        }
    }

    /// Notes how many clients wait for a place.
    pub fn want(&mut self, wanted: usize) {
        self.wanted = wanted;
    }

    /// Says why a session ends now, where so many have places, if it does. Whoever gives its place up is not asked for another.
    pub fn ending_of(&mut self, session: u64, places: usize, now: u64) -> Option<Ending>
        ensures { IfSome result (λ why. (place : ℕ) × (place < length self.old.present.items)
            × ((guest : Guest) → ending now (get_or self.old.present.items place guest)
            self.old.present.items self.old.wanted places ≡ Some why)) }
    {
        let place = place_of(self.present.as_slice(), session)?;
        let guest = self.present[place];
        let ending = ending(now, &guest, self, places);
        self.present[place].leaves = ending.is_some();
        ending
    }
}

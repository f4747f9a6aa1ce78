//! Connections as they come: each becomes a session, waits for a place, or is turned away.

use crate::clients::{ClientVisit, caller_of};
use crate::clock::millis_now;
use crate::door::{Door, Heard, Pool};
use crate::events::Event;
use crate::peer::Peer;
use crate::refusing::turn_away;
use crate::registry::Registry;
use crossbeam_channel::Sender;
use refusals::Refusal;
use session_pool::{Admission, Visit};
use std::alloc::{AllocError, Global};
use std::collections::VecDeque;
use std::net::{Net, TcpStream};
use std::sync::Wait;
use std::thread;
use std::time::{Clock, Duration};

/// How many clients wait for a place at most.
pub const MAX_WAITING: usize = 64;

/// How long a client waits for a place, in milliseconds.
const WAIT_LIMIT: u64 = 5_000;

/// How long a client waits whose address has as many sessions as it may have, in milliseconds: who has closed a session and
/// comes again at once finds its own place free. One of an address waits so at a time.
const RETURN_LIMIT: u64 = 20;

/// How long it sleeps while clients wait for a place and none comes, in milliseconds.
const TURN: u64 = 2;

/// How long it sleeps where none comes at any of several addresses, in milliseconds.
const ROUND: u64 = 5;

/// How long it sleeps while it waits for the last session to end, where a connection cannot be taken, and where none comes at one
/// place at which it may not wait, in milliseconds.
const LAST_TURN: u64 = 50;

/// What may come to a halt.
pub trait Halts {
    /// Says whether changes are known to have come to a halt. It waits for nobody.
    fn takes_no_changes(&self) -> bool;
}

/// How so many connections come in at each door, so many of one client's address at a time, with what is known of those that have
/// places, what may come to a halt, and whether no more are taken then.
pub struct Entrance<'a, R, H: Drop> {
    pub rt: &'a R,
    pub alloc: Global,
    pub connections: usize,
    pub per_address: u64,
    pub registry: Registry<'a, R>,
    pub repository: H,
    pub exits_on_halt: bool,
}

impl<'a, R, H: Halts + Drop> Entrance<'a, R, H> {
    /// Says whether no more connections are to be taken, since changes have come to a halt.
    pub fn is_closing(&self) -> bool {
        self.exits_on_halt && self.repository.takes_no_changes()
    }
}

impl<'a, R, H: Drop> Drop for Entrance<'a, R, H> {
    fn drop(self) {
        let Entrance {
            rt: _,
            alloc: _,
            connections: _,
            per_address: _,
            registry: _,
            repository: _,
            exits_on_halt: _,
        } = self;
    }
}

/// A client that has come, what it has said, whether that is all that it is to say before its session begins, and until when it
/// waits for a place.
#[derive(Drop)]
struct Newcomer {
    stream: TcpStream,
    peer: Peer,
    said: Vec<u8>,
    is_heard: bool,
    until: u64,
}

/// What takes the connections of a door, and keeps those that wait for a place, in the order in which they have come.
#[derive(Drop)]
struct Acceptor<'s, 'e, R, H: Drop, D> {
    entrance: &'e Entrance<'e, R, H>,
    pool: &'s Pool<'s, R>,
    visits: &'s Sender<ClientVisit<'e, R>>,
    door: &'s D,
    queue: VecDeque<Newcomer>,
    left: usize,
}

impl<'s, 'e, R: Clock + Net + Wait, H: Halts + Drop, D: Door> Acceptor<'s, 'e, R, H, D> {
    /// Says whether one address may not have all sessions.
    fn has_limit(&self) -> bool {
        self.entrance.per_address < self.entrance.registry.sessions()
    }

    /// Says whether an address has as many sessions as it may have, where it may not have all.
    fn is_full(&self, peer: Peer) -> bool {
        let limit = self.entrance.per_address;
        peer.is_address() && self.has_limit() && self.entrance.registry.sessions_of(peer) >= limit
    }

    /// Counts the sessions of an address and its clients that wait for a place.
    fn count_of(&self, peer: Peer) -> u64 {
        let mut count = self.entrance.registry.sessions_of(peer);
        for newcomer in self.queue.iter() {
            if newcomer.peer.number() == peer.number() {
                count = u64::saturating_add(count, 1);
            }
        }
        count
    }

    /// Says how long a client of an address may wait for a place, in milliseconds; none where its address has too many.
    fn patience_for(&self, peer: Peer) -> Option<u64> {
        if !peer.is_address() || !self.has_limit() {
            return Some(WAIT_LIMIT);
        }
        let (count, limit) = (self.count_of(peer), self.entrance.per_address);
        if count < limit {
            Some(WAIT_LIMIT)
        } else if count == limit {
            Some(RETURN_LIMIT)
        } else {
            None
        }
    }

    /// Says whether a connection of an address becomes a session now. None does once changes have come to a halt, also while the
    /// session that met it is open.
    fn admit(&self, peer: Peer) -> Admission {
        if self.entrance.repository.takes_no_changes() {
            Admission::Halted
        } else if self.is_full(peer) {
            Admission::Full
        } else {
            self.pool.admit(self.entrance.rt)
        }
    }

    /// Makes the visit of a client, with the terms that its session is served by.
    fn visit_of(&self, newcomer: Newcomer, number: u64) -> Result<ClientVisit<'e, R>, AllocError> {
        let Newcomer {
            stream,
            peer,
            said,
            ..
        } = newcomer;
        let (alloc, registry) = (self.entrance.alloc, &self.entrance.registry);
        let terms = self.door.terms(self.pool, registry, said.as_slice())?;
        let caller = caller_of(alloc, registry, (stream, peer), number)?;
        Ok(Visit::new(terms, caller))
    }

    /// Says whether a client is on its way to a worker.
    fn hand_over(&self, newcomer: Newcomer, number: u64) -> bool {
        match self.visit_of(newcomer, number) {
            Ok(visit) => self.visits.send(self.entrance.rt, visit).is_ok(),
            Err(AllocError) => false,
        }
    }

    /// Makes a connection a session of this number. Where there is no memory for it, it is closed.
    fn begin(&self, newcomer: Newcomer, number: u64) {
        if self
            .entrance
            .registry
            .begins(number, newcomer.peer)
            .is_err()
        {
            self.pool.leave(self.entrance.rt);
            return;
        }
        if !self.hand_over(newcomer, number) {
            self.pool.leave(self.entrance.rt);
            self.entrance.registry.ends(number);
        }
    }

    /// Tells of a client that it is not served, and tells the client why. Where there is no memory for that the connection is closed
    /// without it.
    fn refuse(&self, stream: &TcpStream, event: Event) {
        self.entrance.registry.tell(event);
        let refusal = match event {
            Event::TurnedAway(_) => Refusal::StoreFailed,
            _ => Refusal::NotSupported,
        };
        let _ = turn_away(self.entrance.alloc, stream, refusal);
    }

    /// Turns a client away that finds no place.
    fn refuse_full(&self, newcomer: &Newcomer) {
        let event = if self.is_full(newcomer.peer) {
            Event::AddressFull(newcomer.peer)
        } else {
            Event::Full(newcomer.peer)
        };
        self.refuse(&newcomer.stream, event);
    }

    /// Hears what a client says, and says what is known of that.
    fn hear(&self, newcomer: &mut Newcomer) -> Heard {
        if newcomer.is_heard {
            return Heard::All;
        }
        let heard = self.door.hear(&newcomer.stream, &mut newcomer.said);
        newcomer.is_heard = matches!(heard, Heard::All);
        heard
    }

    /// Hears a client, makes its connection a session, or turns it away, and gives it back where it waits for a place, or has not
    /// said all. One that says what it may not say, or nothing for too long, is closed.
    fn settle(&self, newcomer: Newcomer, now: u64) -> Option<Newcomer> {
        let mut newcomer = newcomer;
        match self.hear(&mut newcomer) {
            Heard::All => self.place(newcomer, now),
            Heard::Part if now < newcomer.until => Some(newcomer),
            _ => None,
        }
    }

    /// Makes a client's connection a session, or turns it away, and gives it back where it waits for a place.
    fn place(&self, newcomer: Newcomer, now: u64) -> Option<Newcomer> {
        match self.admit(newcomer.peer) {
            Admission::Session(number) => {
                self.begin(newcomer, number);
                None
            }
            Admission::Halted => {
                self.refuse(&newcomer.stream, Event::TurnedAway(newcomer.peer));
                None
            }
            Admission::Full if now < newcomer.until => Some(newcomer),
            Admission::Full => {
                self.refuse_full(&newcomer);
                None
            }
        }
    }

    /// Lets a client wait after all others. Where too many wait it is turned away, and where there is no memory it is closed.
    fn put(&mut self, newcomer: Newcomer) {
        if self.queue.len() >= MAX_WAITING {
            self.refuse_full(&newcomer);
            return;
        }
        let _ = self.queue.push_back(newcomer);
    }

    /// Looks once at each client that waits, those first that wait longest.
    fn look(&mut self) {
        let now = millis_now(self.entrance.rt);
        let mut wanted: usize = 0;
        for _ in 0..self.queue.len() {
            let Some(newcomer) = self.queue.pop_front() else {
                break;
            };
            if let Some(newcomer) = self.settle(newcomer, now) {
                if newcomer.is_heard && !self.is_full(newcomer.peer) {
                    wanted = wanted.saturating_add(1);
                }
                self.put(newcomer);
            }
        }
        // sessions that are silent are to end too, so that the last one does
        let wanted = if self.entrance.is_closing() {
            usize::MAX
        } else {
            wanted
        };
        self.entrance.registry.want(wanted);
    }

    /// Takes a client that has come: it becomes a session, waits for a place, or is turned away.
    fn take(&mut self, stream: TcpStream, peer: Peer) {
        if self.door.prepare(&stream).is_err() {
            return;
        }
        let Some(patience) = self.patience_for(peer) else {
            self.refuse(&stream, Event::AddressFull(peer));
            return;
        };
        let now = millis_now(self.entrance.rt);
        let newcomer = Newcomer {
            stream,
            peer,
            said: Vec::new(self.entrance.alloc),
            is_heard: false,
            until: now.saturating_add(patience),
        };
        if !self.queue.is_empty() {
            self.put(newcomer);
        } else if let Some(newcomer) = self.settle(newcomer, now) {
            self.put(newcomer);
        }
    }

    /// Says whether it may wait for a connection: at one place, while no client waits and more are to be taken.
    fn may_wait(&self) -> bool {
        let is_alone = self.door.places() == 1 && self.door.may_wait();
        is_alone && self.queue.is_empty() && !self.entrance.is_closing()
    }

    /// Takes a connection that has come at each place, and says whether there was one.
    fn accept(&mut self) -> bool {
        let mut has_come = false;
        for place in 0..self.door.places() {
            has_come = self.accept_at(place) || has_come;
        }
        has_come
    }

    /// Takes a connection that has come at a place, and says whether there was one.
    fn accept_at(&mut self, place: usize) -> bool {
        if self.left == 0 {
            return false;
        }
        let Some((stream, peer)) = self.door.take(place, self.may_wait()) else {
            return false;
        };
        self.left = self.left.saturating_sub(1);
        self.take(stream, peer);
        true
    }

    /// Says whether no more connections are to be taken and nobody waits for a place. Where changes have come to a halt, that is
    /// once all sessions have ended; until then clients are turned away.
    fn is_over(&self) -> bool {
        let is_last = self.entrance.is_closing() && self.entrance.registry.is_empty();
        self.queue.is_empty() && (self.left == 0 || is_last)
    }

    /// Says how long to sleep where nobody has come, in milliseconds.
    fn turn(&self) -> u64 {
        if !self.queue.is_empty() {
            TURN
        } else if self.door.places() > 1 && !self.entrance.is_closing() {
            ROUND
        } else {
            LAST_TURN
        }
    }

    /// Takes connections until no more are to be taken and nobody waits for a place.
    fn run(&mut self) {
        for _ in self.entrance.rt.forever() {
            self.look();
            if self.is_over() {
                return;
            }
            if !self.accept() {
                thread::sleep(self.entrance.rt, Duration::from_millis(self.turn()));
            }
        }
    }
}

/// Takes the connections of a door as they come.
pub fn take_all<'e, R: Clock + Net + Wait, H: Halts + Drop, D: Door>(
    entrance: &'e Entrance<'e, R, H>,
    pool: &Pool<'_, R>,
    visits: &Sender<ClientVisit<'e, R>>,
    door: &D,
) {
    let mut acceptor = Acceptor {
        entrance,
        pool,
        visits,
        door,
        queue: VecDeque::new(entrance.alloc),
        left: entrance.connections,
    };
    acceptor.run();
}

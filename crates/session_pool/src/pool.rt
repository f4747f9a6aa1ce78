//! Sessions on threads.

use crate::admission::Admission;
use crate::attendant::{Attendant, Caller};
use crate::places::Places;
use crate::terms::Terms;
use crate::visit::Visit;
use access::RepoAccess;
use conversations::{EnvSource, Gate, TalkFault, Watch};
use crossbeam_channel::Receiver;
use machine::Options;
use presence::Presence;
use std::alloc::{AllocError, Global};
use std::io::{Read, Write};
use std::mem::drop;
use std::sync::{Mutex, Wait};

/// What the threads of a server share: what it was started with, the gate that each piece passes, who is told of
/// logins and how sessions end, and the places.
pub struct SessionPool<'p, G, W> {
    options: &'p Options,
    gate: &'p G,
    watch: &'p W,
    places: Mutex<Places>,
}

impl<'p, G, W> Drop for SessionPool<'p, G, W> {
    fn drop(self) {
        let SessionPool {
            options: _,
            gate: _,
            watch: _,
            places: _,
        } = self;
    }
}

impl<'p, G: Gate, W: Watch> SessionPool<'p, G, W> {
    ghost use Rattle.std.specs.Prelude.{◌≡◌};
    ghost use Rattle.access.specs.Points.{content_of};
    ghost use Rattle.repo_api.specs.Soundness.{AreSound};
    ghost use Rattle.session_pool.specs.Serving.{ServesInTurn, ServesOne, settings_of, stand};

    /// Makes a pool of so many places, in which no session is open.
    pub fn new(options: &'p Options, gate: &'p G, watch: &'p W, sessions: u64) -> Self
        ensures { settings_of result ≡ options.now }
    {
        SessionPool {
            options,
            gate,
            watch,
            places: Mutex::new(Places::new(sessions)),
        }
    }

    /// Makes the terms of a client that came as the account of this name.
    pub fn terms_of_account(&self, alloc: Global, account: &[u8]) -> Result<Terms, AllocError> {
        Terms::of_account(alloc, self.options, account)
    }

    /// Says whether one more connection becomes a session. What is answered by a number is handed to a worker, or
    /// `leave` is called.
    pub fn admit<R: Wait>(&self, rt: &R) -> Admission {
        self.places.lock(rt).admit()
    }

    /// Gives the place of a session back that was admitted.
    pub fn leave<R: Wait>(&self, rt: &R) {
        self.places.lock(rt).leave();
    }

    /// Tells how a session has ended, and gives its place back. Once changes have come to a halt no session begins any more.
    fn end<R: Wait>(&self, rt: &R, number: u64, done: Result<(), TalkFault>, is_halted: bool) {
        if let Err(fault) = done {
            self.watch.given_up(number, &fault);
        }
        if is_halted {
            self.places.lock(rt).halt();
        }
        self.leave(rt);
        self.watch.ended(number, is_halted);
    }

    /// Serves a caller at an access to the repository by the options that are given with it, and does nothing else there. It
    /// gives the access back, and the source of what was handed in.
    fn serve_one<
        R: Wait,
        A: RepoAccess + Drop,
        E: EnvSource + Drop,
        I: Read + Drop,
        O: Write + Drop,
        P: Presence,
    >(&self, rt: &R, alloc: Global, given: (&Options, Caller<I, O, P>), desk: (A, E)) -> (A, E)
        requires { AreSound (content_of (A.point desk.0)).revisions }
        ensures sound { AreSound (content_of (A.point result.0)).revisions }
        ensures served { ServesOne A.rules E.gives (stand given.entry.0.now (A.point desk.0) desk.1)
            (stand given.entry.0.now (A.point result.0) result.1) }
    {
        let (options, mut caller) = given;
        let mut attendant = Attendant::new(alloc, options, desk, self.gate, self.watch);
        let number = caller.number();
        let done = attendant.serve(&mut caller);
        // a connection that fails is closed
        drop(caller);
        self.end(rt, number, done, attendant.is_halted());
        attendant.into_desk()
    }

    /// Serves callers at an access to the repository, one after another, until no more can come, each by the
    /// terms that it comes with, and does nothing else there. It gives the access back, and the source of what was handed in.
    #[tactic(auto, using(crate::proofs::InTurn::serves_none))]
    pub fn serve_at<
        R: Wait,
        A: RepoAccess + Drop,
        E: EnvSource + Drop,
        I: Read + Drop,
        O: Write + Drop,
        P: Presence,
    >(&self, rt: &R, alloc: Global, visits: &Receiver<Visit<I, O, P>>, desk: (A, E)) -> (A, E)
        requires { AreSound (content_of (A.point desk.0)).revisions }
        ensures { ServesInTurn A.rules E.gives
            (stand (settings_of self.now) (A.point desk.0) desk.1)
            (stand (settings_of self.now) (A.point result.0) result.1) }
    {
        let mut served = desk;
        for _ in rt.forever() {
            let Ok(visit) = visits.recv(rt) else {
                break;
            };
            let (terms, caller) = visit.into_parts();
            let options = terms.options(self.options);
            served = self.serve_one(rt, alloc, (options, caller), served);
        }
        served
    }
}

//! What serves callers at a repository.

use access::RepoAccess;
use conversations::{EnvSource, Gate, TalkFault, Watch, Worker};
use machine::Options;
use presence::{AttendedAccess, Presence};
use std::alloc::Global;
use std::io::{Read, Write};
use std::mem;

/// A connection that was accepted: the number of its session, its two ends, and its client, who is asked whether it is
/// still there. Only who serves it has its ends.
#[derive(Drop)]
pub struct Caller<I, O, P> {
    number: u64,
    input: I,
    output: O,
    client: P,
}

impl<I, O, P> Caller<I, O, P> {
    ghost use Rattle.std.specs.Prelude.{◌≡◌};

    /// Makes the caller of the session of this number, by its two ends and its client.
    pub fn new(number: u64, input: I, output: O, client: P) -> Self
        ensures { result ≡ record { number = number; input = input; output = output; client = client } }
    {
        Caller {
            number,
            input,
            output,
            client,
        }
    }

    /// Gives the number of its session.
    pub(crate) fn number(&self) -> u64
        ensures { result ≡ self.now.number }
    {
        self.number
    }
}

/// What serves callers at a repository, one after another. Whoever has it can do nothing else there.
#[derive(Drop)]
pub struct Attendant<'w, A, E, G, W, P> {
    worker: Worker<'w, AttendedAccess<A, P>, E, G, W>,
}

impl<'w, A: RepoAccess + Drop, E: EnvSource + Drop, G: Gate, W: Watch, P: Presence> Attendant<
    'w,
    A,
    E,
    G,
    W,
    P,
> {
    ghost use Rattle.std.specs.Prelude.{◌≡◌};
    ghost use Rattle.access.specs.Points.{content_of};
    ghost use Rattle.repo_api.specs.Soundness.{AreSound};
    ghost use Rattle.session_pool.specs.Serving.{IsServed, stand, stands};

    /// Makes what serves callers at an access to the repository, with these options.
    pub(crate) fn new(
        alloc: Global,
        options: &'w Options,
        desk: (A, E),
        gate: &'w G,
        watch: &'w W,
    ) -> Self
        ensures { stands A.point result ≡ stand options.now (A.point desk.0) desk.1 }
    {
        let (access, envs) = desk;
        Attendant {
            worker: Worker {
                alloc,
                options,
                access: AttendedAccess::new(access),
                envs,
                gate,
                watch,
            },
        }
    }

    /// Serves a caller, and lets its client go. Its ends stay open.
    pub(crate) fn serve<I: Read, O: Write>(
        &mut self,
        caller: &mut Caller<I, O, P>,
    ) -> Result<(), TalkFault>
        requires { AreSound (content_of (stands A.point self.old).point).revisions }
        ensures sound { AreSound (content_of (stands A.point self.new).point).revisions }
        ensures served { IsServed A.rules E.gives result (I.remaining caller.old.input)
            (O.contents caller.old.output) (I.remaining caller.new.input)
            (O.contents caller.new.output) (stands A.point self.old) (stands A.point self.new) }
    {
        let worker = &mut self.worker;
        worker
            .access
            .attend(mem::replace(&mut caller.client, P::nobody()));
        let done = worker.serve(caller.number, &mut caller.input, &mut caller.output);
        worker.access.attend(P::nobody());
        done
    }

    /// Gives the access to the repository back, and the source of what was handed in.
    pub(crate) fn into_desk(self) -> (A, E)
        ensures point { A.point result.0 ≡ (stands A.point self.entry).point }
        ensures envs { result.1 ≡ self.entry.worker.envs }
    {
        let Attendant { worker } = self;
        let Worker {
            alloc: _,
            options: _,
            access,
            envs,
            gate: _,
            watch: _,
        } = worker;
        (access.into_access(), envs)
    }

    /// Says whether changes are known to have come to a halt.
    pub(crate) fn is_halted(&self) -> bool
        ensures { result ≡ (stands A.point self.now).point.halted }
    {
        self.worker.access.is_halted()
    }
}

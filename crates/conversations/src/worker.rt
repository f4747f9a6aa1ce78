//! One session between a reader and a writer, at a repository that others may change.
ghost use Rattle.std.specs.{Prelude.{◌≡◌, [], ◌∷◌, true, IfOk, IfErr}, Io.ReadsAtMost, Io.KnownBytes.{Appends, ReadConsumes}};
ghost use Rattle.repo_api.specs.Soundness.{AreSound};
ghost use Rattle.access.specs.Points.{content_of};
ghost use Rattle.wire_replies.specs.Replies.{print};
ghost use Rattle.machine.specs.Stages.{is_open, StandsOn};
ghost use Rattle.conversations.specs.Conversation.{sight, Conversed, Fed, Served};

use crate::envs::EnvSource;
use crate::fault::TalkFault;
use crate::gate::Gate;
use crate::limits::is_past_limits;
use crate::pieces::read_piece;
use crate::sink::{OutputSink, PIECE, write_and_flush};
use crate::tried::{first_answer, name_in};
use crate::watch::Watch;
use access::RepoAccess;
use byte_string::ByteString;
use machine::{Env, Options, Turn};
use repo_api::Repository;
use session::Session;
use std::alloc::Global;
use std::io;
use std::io::{Read, Write};
use wire_replies::Reply;

/// Makes the greeting.
fn greeting(alloc: Global) -> Result<Vec<u8>, TalkFault>
    ensures ok { IfOk result (λ out. out.items ≡ print (Reply.Greeting ∷ [])) }
    ensures err { IfErr result (λ fault. fault ≡ TalkFault.NoMemory) }
{
    let mut out = Vec::new(alloc);
    match Reply::Greeting.write(alloc, &mut out) {
        Ok(()) => Ok(out),
        Err(_) => Err(TalkFault::NoMemory),
    }
}

/// Gives the user that the client of a session has logged in as, unless it was told before.
fn user_unless<R: Repository>(was_told: bool, session: &Session<R>) -> Option<&ByteString> {
    if was_told { None } else { session.user() }
}

/// Says whether a session holds more of an item than it may. Nothing that is promised of a session rests on it.
fn holds_too_much<R: Repository>(session: &Session<R>) -> bool {
    is_past_limits(session)
}

/// What one thread serves sessions with, one after another.
#[derive(Drop)]
pub struct Worker<'w, A, E, G, W> {
    pub alloc: Global,
    pub options: &'w Options,
    pub access: A,
    pub envs: E,
    pub gate: &'w G,
    pub watch: &'w W,
}

impl<'w, A: RepoAccess + Drop, E: EnvSource + Drop, G: Gate, W: Watch> Worker<'w, A, E, G, W> {
    /// Tells how many logins were refused of those that were tried in a piece.
    fn tell_refused(&self, number: u64, refused: u64, piece: &[u8]) {
        match &first_answer(self.alloc, piece) {
            Some(answer) => self.watch.refused(number, refused, name_in(answer)),
            None => self.watch.refused(number, refused, None),
        }
    }

    /// Tells how many logins in a piece were refused, and who has logged in, if a client has.
    fn tell_logins(&self, number: u64, refused: u64, piece: &[u8], user: Option<&ByteString>) {
        if refused > 0 {
            self.tell_refused(number, refused, piece);
        }
        if let Some(user) = user {
            self.watch.logged_in(number, user.as_slice());
        }
    }

    /// Feeds a piece, and writes what it draws as it is made. Its logins are told.
    fn answer_piece<O: Write>(
        &mut self,
        number: u64,
        session: &mut Session<A::View>,
        piece: &[u8],
        env: Env,
        output: &mut O,
    ) -> Result<(), TalkFault>
        requires open { is_open session.old.phase ≡ true }
        requires rests { StandsOn session.old.phase (content_of (A.point self.old.access)) }
        ensures options { self.new.options.now ≡ self.old.options.now }
        ensures envs { self.new.envs ≡ self.old.envs }
        ensures rests { StandsOn session.new.phase (content_of (A.point self.new.access)) }
        ensures fed { Fed result A.rules self.old.options.now env (A.point self.old.access)
            session.old piece.now (A.point self.new.access) session.new
            (Appends (O.contents output.old) (O.contents output.new)) }
    {
        let alloc = self.alloc;
        let had_user = session.user().is_some();
        let buffer = Vec::new(alloc);
        let mut turn = Turn {
            alloc,
            env,
            out: OutputSink {
                alloc,
                output,
                buffer,
                fault: None,
                refused: 0,
            },
        };
        let fed = session.feed(self.options, piece, &mut self.access, &mut turn);
        let finished = turn.out.finish();
        let OutputSink {
            alloc: _,
            output,
            buffer: _buffer,
            fault: _fault,
            refused,
        } = turn.out;
        // No effect at run time. The proof reads what the writer holds from this use of it.
        let _ = &*output;
        self.tell_logins(number, refused, piece, user_unless(had_user, session));
        match finished {
            Ok(()) => match fed {
                Ok(()) => Ok(()),
                Err(_) => Err(TalkFault::NoMemory),
            },
            Err(error) => Err(TalkFault::Write(error)),
        }
    }

    /// Reads a piece of the input, after the gate has heard what the session waits for.
    fn read_next<I: Read>(
        &self,
        number: u64,
        session: &Session<A::View>,
        input: &mut I,
        buffer: &mut [u8],
    ) -> io::Result<usize>
        ensures bound { ReadsAtMost result buffer.new }
        ensures bytes { ReadConsumes (I.remaining input.old) (I.remaining input.new) result
            buffer.new }
    {
        self.gate.awaits(number, session.awaited());
        read_piece(input, buffer)
    }

    /// Answers pieces of the input, each before the next is read, until it ends or the session isn't open any more. An
    /// item that is not whole within the limits ends it too: it may pass them by what comes with one piece.
    fn converse<I: Read, O: Write>(
        &mut self,
        number: u64,
        input: &mut I,
        output: &mut O,
    ) -> Result<(), TalkFault>
        requires { AreSound (content_of (A.point self.old.access)).revisions }
        ensures options { self.new.options.now ≡ self.old.options.now }
        ensures sound { AreSound (content_of (A.point self.new.access)).revisions }
        ensures conversed { Conversed result A.rules self.old.options.now E.gives
            (sight (A.point self.old.access) (I.remaining input.old) (O.contents output.old)
            self.old.envs)
            (sight (A.point self.new.access) (I.remaining input.new) (O.contents output.new)
            self.new.envs) }
    {
        let mut session = Session::new(self.alloc);
        let mut buffer = [0; PIECE];
        for turn in 0..u64::MAX {
            if !session.is_open() {
                return Ok(());
            }
            if holds_too_much(&session) {
                return Err(TalkFault::TooLong);
            }
            let count = self
                .read_next(number, &session, input, &mut buffer)
                .map_err(TalkFault::Read)?;
            if count == 0 {
                return Ok(());
            }
            self.gate.pass(number, turn + 1);
            let env = self.envs.next_env();
            self.answer_piece(number, &mut session, &buffer[..count], env, output)?;
        }
        Err(TalkFault::Read(io::Error::from(io::ErrorKind::Other)))
    }

    /// Serves one session: greets it, and answers each piece of the input before the next is read, until the input
    /// ends or the session isn't open any more. The gate is passed before each piece is fed.
    pub fn serve<I: Read, O: Write>(
        &mut self,
        number: u64,
        input: &mut I,
        output: &mut O,
    ) -> Result<(), TalkFault>
        requires { AreSound (content_of (A.point self.old.access)).revisions }
        ensures options { self.new.options.now ≡ self.old.options.now }
        ensures sound { AreSound (content_of (A.point self.new.access)).revisions }
        ensures served { Served result A.rules self.old.options.now E.gives
            (sight (A.point self.old.access) (I.remaining input.old) (O.contents output.old)
            self.old.envs)
            (sight (A.point self.new.access) (I.remaining input.new) (O.contents output.new)
            self.new.envs) }
    {
        let out = greeting(self.alloc)?;
        write_and_flush(output, out.as_slice()).map_err(TalkFault::Write)?;
        self.converse(number, input, output)
    }
}

//! A session with one client.
ghost use Rattle.std.specs.Prelude.{◌≡◌, ◌++◌, [], length, true, false, IfOk, OnOk, OnErr, IsErrOf, option_copied};
ghost use Rattle.items.specs.Counting.{CountsItems};
ghost use Rattle.repo_api.specs.{Soundness.AreSound, States.IsBeginning};
ghost use Rattle.access.specs.Points.{content_of};
ghost use Rattle.machine.specs.{Stages.{is_open, StandsOn, user_in}, Steps.{FeedLost, FeedWritten}};
ghost use Rattle.session.specs.Awaiting.{awaited};

use crate::awaiting::awaited_in;
use crate::incoming::take_incoming;
use crate::serve::serve;
use access::RepoAccess;
use byte_string::ByteString;
use guests::Awaited;
use items::ItemReader;
use machine::{Options, Phase, Turn, steps_keep_trees};
use repo_api::Repository;
use session_replies::SessionPhase;
use std::alloc::{AllocError, Global};
use std::marker::Model;
use std::mem::{self, drop};
use thiserror::Error;
use wire_replies::ReplySink;

/// Why a session was not served.
#[derive(Clone, Copy, Debug, PartialEq, Eq, Error)]
pub enum SessionFault {
    /// Memory was refused. The session has ended.
    #[error("no memory")]
    NoMemory,
    /// The session had ended before.
    #[error("the session has ended")]
    Ended,
}

/// Serves what the reader holds, up to the end of the session or of the items.
fn serve_all<R: Repository, A: RepoAccess<View = R>, S: ReplySink>(
    options: &Options,
    reader: &mut ItemReader,
    phase: SessionPhase<R>,
    access: &mut A,
    turn: &mut Turn<S>,
) -> Result<SessionPhase<R>, AllocError>
    requires rests { StandsOn phase (content_of (A.point access.old)) }
    ensures known { S.is_honest turn.new.out → S.is_honest turn.old.out }
    ensures ok { S.is_honest turn.new.out → IfOk result (λ after. FeedWritten A.rules options.now turn.old.env
        (A.point access.old) phase reader.old.rest reader.new.rest
        (A.point access.new) after (S.writes turn.old.out turn.new.out)) }
    ensures err { S.is_honest turn.new.out → OnErr result (FeedLost A.rules options.now turn.old.env
        (A.point access.old) phase reader.old.rest
        (A.point access.new) (S.writes turn.old.out turn.new.out)) }
    ensures rests { IfOk result (λ after. StandsOn after (content_of (A.point access.new))) }
    ensures trees { OnErr result (AreSound (content_of (A.point access.new)).revisions) }
    ensures stays { IsBeginning (content_of (A.point access.old)).revisions (content_of (A.point access.new)).revisions }
{
    steps_keep_trees();
    let mut phase = phase;
    'inputs: loop {
        match take_incoming(reader) {
            Ok(Some(incoming)) => {
                phase = serve(options, phase, incoming, access, turn)?;
                if !phase.is_open() {
                    return Ok(phase);
                }
            }
            Ok(None) => return Ok(phase),
            Err(error) => {
                drop(phase);
                return Err(error);
            }
        }
    }
}

/// A session with one client.
pub struct Session<R: Repository> {
    reader: ItemReader,
    phase: SessionPhase<R>,
}

impl<R: Repository> Drop for Session<R> {
    fn drop(self) {
        let Session {
            reader: _,
            phase: _,
        } = self;
    }
}

impl<R: Repository> Model for Session<R> {
    ghost use Rattle.std.specs.{Coded.codes, FinMap.code as map_code};
    ghost use Rattle.machine.specs.Stages.{SessionState};

    ghost Value = { SessionState };

    ghost coded = { Prim.hlevel (map_code, codes) };

    ghost view = { λ s. record { rest = s.reader.rest; phase = s.phase } };
}

impl<R: Repository> Session<R> {
    /// Makes a session that has heard nothing.
    pub fn new(alloc: Global) -> Self
        ensures { result ≡ record { rest = []; phase = Phase.Greeted } }
    {
        Session {
            reader: ItemReader::new(alloc),
            phase: Phase::Greeted,
        }
    }

    /// Says whether the session hears what comes.
    pub fn is_open(&self) -> bool
        ensures { result ≡ is_open self.now.phase }
    {
        self.phase.is_open()
    }

    /// Says what it waits for.
    pub fn awaited(&self) -> Awaited
        ensures { result ≡ awaited self.now.phase }
    {
        awaited_in(&self.phase)
    }

    /// Says how many bytes it holds of an item that is not whole yet.
    pub fn unread_len(&self) -> usize
        ensures { result ≡ length self.now.rest }
    {
        self.reader.unread_len()
    }

    /// Says how many items, in lists of any depth and with itself, the one that is not whole yet has at least.
    pub fn unread_items(&self) -> usize
        ensures { CountsItems result self.now.rest }
    {
        self.reader.unread_items()
    }

    /// Gives the user that the client has logged in as, if it has.
    pub fn user(&self) -> Option<&ByteString>
        ensures { option_copied result ≡ user_in self.now.phase }
    {
        self.phase.user()
    }

    /// Takes a piece of what the client sends, and where the session stands: until that is put
    /// back, it has ended.
    fn take_piece(&mut self, piece: &[u8]) -> Result<SessionPhase<R>, AllocError>
        ensures rest { OnOk result (self.new.rest ≡ self.old.rest ++ piece.now) }
        ensures phase { IfOk result (λ phase. phase ≡ self.old.phase) }
        ensures ended { self.new.phase ≡ Phase.Ended }
    {
        let phase = mem::replace(&mut self.phase, Phase::Ended);
        match self.reader.feed(piece) {
            Ok(()) => Ok(phase),
            Err(_) => {
                drop(phase);
                Err(AllocError)
            }
        }
    }

    /// Takes the next piece of what the client sends, and writes what it is answered as it is made: as the machine says,
    /// where each text that was read is the one that is known. Whatever was read, the session stands on what exists.
    /// After an `Err` the session has ended, and a part of the replies to what was served was
    /// written. The last that was served may be a commit for whose release memory was refused.
    pub fn feed<A: RepoAccess<View = R>, S: ReplySink>(
        &mut self,
        options: &Options,
        piece: &[u8],
        access: &mut A,
        turn: &mut Turn<S>,
    ) -> Result<(), SessionFault>
        requires rests { StandsOn self.old.phase (content_of (A.point access.old)) }
        ensures known { S.is_honest turn.new.out → S.is_honest turn.old.out }
        ensures ok { S.is_honest turn.new.out → OnOk result (FeedWritten A.rules options.now turn.old.env
            (A.point access.old) self.old.phase (self.old.rest ++ piece.now) self.new.rest
            (A.point access.new) self.new.phase (S.writes turn.old.out turn.new.out)) }
        ensures was_open { OnOk result (is_open self.old.phase ≡ true) }
        ensures ended { IsErrOf result SessionFault.Ended → is_open self.old.phase ≡ false }
        ensures silent { OnErr result (is_open self.old.phase ≡ false
            → S.writes turn.old.out turn.new.out []) }
        ensures lost { S.is_honest turn.new.out → OnErr result (is_open self.old.phase ≡ true
            → FeedLost A.rules options.now turn.old.env
            (A.point access.old) self.old.phase (self.old.rest ++ piece.now)
            (A.point access.new) (S.writes turn.old.out turn.new.out)) }
        ensures err { OnErr result (is_open self.new.phase ≡ false) }
        ensures rests { StandsOn self.new.phase (content_of (A.point access.new)) }
        ensures stays { IsBeginning (content_of (A.point access.old)).revisions (content_of (A.point access.new)).revisions }
    {
        if !self.is_open() {
            return Err(SessionFault::Ended);
        }
        let Ok(phase) = self.take_piece(piece) else {
            return Err(SessionFault::NoMemory);
        };
        match serve_all(options, &mut self.reader, phase, access, turn) {
            Ok(phase) => {
                drop(mem::replace(&mut self.phase, phase));
                Ok(())
            }
            Err(_) => Err(SessionFault::NoMemory),
        }
    }
}

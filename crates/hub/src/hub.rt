//! Many sessions over one repository.
ghost use Rattle.std.specs.Prelude.{◌≡◌, if◌then◌else◌, ◌+◌, ◌<◌, ◌++◌, [], ◌∷◌, ℕ, List, not, ◌&&◌, length, MatchOption, IfOk, IfErr, OnOk, OnErr, Ok, None};
ghost use Rattle.std.specs.Prelude.{is_some};
ghost use Rattle.repo_api.specs.{Opening.new_repository, Soundness.AreSound};
ghost use Rattle.access.specs.{Points.content_of, Sole.point_at};
ghost use Rattle.wire_replies.specs.Replies.{print};
ghost use Rattle.hub.specs.{Runs.{BreaksOff, Feeds, HubStep, new_session}, Runs.Event.Drops, State.{Finds, hub_at, session_of, without}};
ghost use Rattle.hub.specs.Calls.{IsFull, ConnectsAs, ConnectFails, FeedsAs, FeedFails, FedTo};

use crate::laws::new_repositories_are_sound;
use access::{SoleAccess, SoleRepository};
use machine::{Env, Options, Turn};
use repo_api::Repository;
use session::Session;
use std::alloc::{AllocError, Global};
use std::marker::Model;
use thiserror::Error;
use wire_replies::{MemorySink, Reply, ReplySink};

/// The number of a session. Each is used once, from 1 on.
pub type SessionId = u64;

/// How many sessions are open at once at most.
pub const MAX_SESSIONS: usize = 16;

/// Why a hub did not do what it was asked for.
#[derive(Clone, Copy, Debug, PartialEq, Eq, Error)]
pub enum HubFault {
    /// No session of that number is open.
    #[error("no open session of that number")]
    NoSession,
    /// Memory was refused, or a sink of replies failed. A session that was fed has ended.
    #[error("no memory")]
    NoMemory,
    /// The store failed badly, and nothing is served any more.
    #[error("halted")]
    Halted,
    /// As many sessions are open as may be, or all numbers are used.
    #[error("full")]
    Full,
}

/// Finds the place of a session.
fn index_of<R: Repository>(sessions: &[(SessionId, Session<R>)], number: SessionId) -> Option<usize>
    ensures { MatchOption result (session_of sessions.now number ≡ None)
        (λ i. Finds sessions.now number i) }
{
    for (i, entry) in sessions.iter().enumerate() {
        if entry.0 == number {
            return Some(i);
        }
    }
    None
}

/// Drops a session.
fn drop_session<R: Repository>(sessions: &mut Vec<(SessionId, Session<R>)>, number: SessionId)
    ensures { sessions.new.items ≡ without sessions.old.items number }
{
    sessions.retain(|entry| entry.0 != number);
}

/// Drops a session unless it is open.
fn drop_if_ended<R: Repository>(
    is_open: bool,
    sessions: &mut Vec<(SessionId, Session<R>)>,
    number: SessionId,
)
    ensures { sessions.new.items ≡ (if is_open then sessions.old.items
        else without sessions.old.items number) }
{
    if !is_open {
        drop_session(sessions, number);
    }
}

/// Adds a session that has heard nothing.
fn add_session<R: Repository>(
    alloc: Global,
    sessions: &mut Vec<(SessionId, Session<R>)>,
    number: SessionId,
) -> Result<(), AllocError>
    ensures ok { OnOk result (sessions.new.items ≡ sessions.old.items ++ (number, new_session)
        ∷ []) }
    ensures err { OnErr result (sessions.new.items ≡ sessions.old.items) }
{
    sessions.push((number, Session::new(alloc)))?;
    Ok(())
}

/// Makes the greeting.
fn greeting(alloc: Global) -> Result<Vec<u8>, AllocError>
    ensures { IfOk result (λ out. out.items ≡ print (Reply.Greeting ∷ [])) }
{
    let mut out = Vec::new(alloc);
    Reply::Greeting.write(alloc, &mut out)?;
    Ok(out)
}

/// One repository and its open sessions. `A` is how the repository is reached.
pub struct Hub<A: SoleAccess> {
    alloc: Global,
    options: Options,
    access: A,
    sessions: Vec<(SessionId, Session<A::View>)>,
    used: u64,
}

impl<A: SoleAccess + Drop> Drop for Hub<A> {
    fn drop(self) {
        let Hub {
            alloc: _,
            options: _,
            access: _,
            sessions: _,
            used: _,
        } = self;
    }
}

impl<A: SoleAccess> Model for Hub<A> {
    ghost use Rattle.std.specs.{Coded.codes, FinMap.code as map_code};
    ghost use Rattle.hub.specs.State.{AllOpen, HasTrees, hub_at, HubState};

    ghost Value = { HubState };

    ghost coded = { Prim.hlevel (map_code, codes) };

    ghost view = { λ h. hub_at h.options (A.point h.access) h.sessions.items h.used };

    ghost invariant = { λ h. AllOpen h.sessions.items
        × HasTrees (hub_at h.options (A.point h.access) h.sessions.items h.used) };
}

impl<R: Repository> Hub<SoleRepository<R>> {
    /// Makes a hub without sessions over a repository in memory that nobody else has, whose trees are sound.
    pub fn over(alloc: Global, repository: R, options: Options) -> Result<Self, HubFault>
        requires { AreSound (R.content repository).revisions }
        ensures { result ≡ Ok (hub_at options (point_at (R.content repository)) [] 0) }
    {
        Ok(Hub::with_access(alloc, SoleRepository::new(repository), options))
    }

    /// Makes a hub without sessions over a new repository in memory that nobody else has.
    pub fn over_new(alloc: Global, repository: R, options: Options) -> Result<Self, HubFault>
        requires { (uuid : ℕ) × (date : List ℕ)
            × (R.content repository ≡ new_repository uuid date) }
        ensures { result ≡ Ok (hub_at options (point_at (R.content repository)) [] 0) }
    {
        new_repositories_are_sound();
        Hub::over(alloc, repository, options)
    }
}

impl<A: SoleAccess> Hub<A> {
    /// Makes a hub without sessions over what an access reaches, whose trees are sound.
    pub fn with_access(alloc: Global, access: A, options: Options) -> Self
        requires { AreSound (content_of (A.point access)).revisions }
        ensures { result ≡ hub_at options (A.point access) [] 0 }
    {
        Hub {
            alloc,
            options,
            access,
            sessions: Vec::new(alloc),
            used: 0,
        }
    }

    /// Says how the repository is reached.
    pub fn access(&self) -> &A
        ensures { self.now ≡ hub_at self.now.settings (A.point result.now) self.now.sessions
            self.now.used }
    {
        &self.access
    }

    /// Lets go of its sessions: how the repository is reached, and the options.
    pub fn into_parts(self) -> (A, Options)
        ensures { self ≡ hub_at result.1 (A.point result.0) self.sessions self.used }
    {
        let Hub {
            alloc: _,
            options,
            access,
            sessions,
            used: _,
        } = self;
        std::mem::drop(sessions);
        (access, options)
    }

    /// Gives the number of the next session: none where as many are open as may be, or all numbers are used.
    fn next_number(&self) -> Option<SessionId>
        ensures { MatchOption result (IsFull self.now)
            (λ n. (n ≡ self.now.used + 1) × (length self.now.sessions < MAX_SESSIONS)) }
    {
        if self.sessions.len() >= MAX_SESSIONS || self.used == u64::MAX {
            return None;
        }
        Some(self.used + 1)
    }

    /// Opens a new session, and gives its number and the greeting that is written to its client.
    pub fn connect(&mut self) -> Result<(SessionId, Vec<u8>), HubFault>
        ensures ok { IfOk result (λ r. ConnectsAs self.old r.0 r.1.items self.new) }
        ensures err { IfErr result (λ e. ConnectFails self.old e self.new) }
    {
        if self.access.is_halted() {
            return Err(HubFault::Halted);
        }
        let Some(number) = self.next_number() else {
            return Err(HubFault::Full);
        };
        let Ok(out) = greeting(self.alloc) else {
            return Err(HubFault::NoMemory);
        };
        match add_session(self.alloc, &mut self.sessions, number) {
            Ok(()) => {
                self.used = number;
                Ok((number, out))
            }
            Err(_) => Err(HubFault::NoMemory),
        }
    }

    /// Feeds the open session at this place; one that has ended then is dropped.
    fn feed_open<S: ReplySink>(
        &mut self,
        number: SessionId,
        i: usize,
        piece: &[u8],
        turn: &mut Turn<S>,
    ) -> Result<(), AllocError>
        requires found { Finds self.old.sessions number i }
        ensures known { S.is_honest turn.new.out → S.is_honest turn.old.out }
        ensures ok { S.is_honest turn.new.out → OnOk result ((told : List ℕ)
            × Feeds self.old turn.old.env number piece.now told self.new
            × S.writes turn.old.out turn.new.out told) }
        ensures err { S.is_honest turn.new.out
            → OnErr result (BreaksOff self.old turn.old.env number piece.now self.new
            (S.writes turn.old.out turn.new.out)) }
    {
        let entry = &mut self.sessions[i];
        let fed = entry.1.feed(&self.options, piece, &mut self.access, turn);
        let is_open = entry.1.is_open();
        drop_if_ended(is_open, &mut self.sessions, number);
        match fed {
            Ok(()) => Ok(()),
            Err(_) => Err(AllocError),
        }
    }

    /// Feeds a piece of what a client sends to its session, and answers what is written to it.
    pub fn feed(&mut self, number: SessionId, piece: &[u8], env: Env) -> Result<Vec<u8>, HubFault>
        ensures ok { IfOk result (λ out. FeedsAs self.old env number piece.now out.items self.new) }
        ensures err { IfErr result (λ e. FeedFails self.old env number piece.now e self.new) }
    {
        let alloc = self.alloc;
        let mut turn = Turn {
            alloc,
            env,
            out: MemorySink::new(alloc),
        };
        match self.feed_to(number, piece, &mut turn) {
            Ok(()) => Ok(turn.out.into_bytes()),
            Err(fault) => Err(fault),
        }
    }

    /// Feeds a piece of what a client sends to its session, and writes what it is answered as it is made. Where the
    /// sink fails, the session has ended as for want of memory, and the sink has its own fault. So it is where each text
    /// that was read is the one that is known; whatever was read, the sessions stand on what exists.
    pub fn feed_to<S: ReplySink>(
        &mut self,
        number: SessionId,
        piece: &[u8],
        turn: &mut Turn<S>,
    ) -> Result<(), HubFault>
        ensures known { S.is_honest turn.new.out → S.is_honest turn.old.out }
        ensures fed { S.is_honest turn.new.out
            → FedTo result self.old turn.old.env number piece.now self.new
            (S.writes turn.old.out turn.new.out) }
    {
        if self.access.is_halted() {
            return Err(HubFault::Halted);
        }
        let Some(i) = index_of(&self.sessions, number) else {
            return Err(HubFault::NoSession);
        };
        match self.feed_open(number, i, piece, turn) {
            Ok(()) => Ok(()),
            Err(_) => Err(HubFault::NoMemory),
        }
    }

    /// Says where a hub has its memory from.
    pub fn alloc(&self) -> Global {
        self.alloc
    }

    /// Says whether a session of this number is open.
    pub fn is_open(&self, number: SessionId) -> bool
        ensures { result ≡ (is_some (session_of self.now.sessions number) && not self.now.halted) }
    {
        index_of(&self.sessions, number).is_some() && !self.access.is_halted()
    }

    /// Drops a session; a number that isn't open changes nothing.
    pub fn disconnect(&mut self, number: SessionId)
        ensures { (env : Env) → HubStep self.old env (Drops number) [] self.new env }
    {
        drop_session(&mut self.sessions, number);
    }
}

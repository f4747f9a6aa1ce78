//! What plays the lines.

use crate::hubs::PlayedHub;
use crate::plan::Plan;
use flatrepo::InMemory;
use hub::{Call, SessionId};
use script_lines::{
    Failing, Line, LineFault, NamedFile, NewFormat, NewHub, NewUser, Piece, Place, file_line,
    reopening_line,
};
use std::mem::{self, drop};
use store_files::Left;

/// A store that passes all calls on.
const NEVER: Failing = Failing {
    passes: u64::MAX,
    left: Left::Old,
};

/// What a script has come to.
enum Stage<R: InMemory> {
    /// No hub is asked for yet.
    Beginning,
    /// A hub is asked for, and no call to it was made.
    Asked(Plan),
    /// Calls are made to a hub.
    Calling(PlayedHub<R>),
}

impl<R: InMemory> Drop for Stage<R> {
    fn drop(self) {
        match self {
            Stage::Beginning => {}
            Stage::Asked(_) => {}
            Stage::Calling(_) => {}
        }
    }
}

impl<R: InMemory> Stage<R> {
    /// Makes the hub that is asked for, or a hub over the repository of the one that there is, opened again.
    fn into_hub(self, rt: &HostRuntime, failing: Failing) -> Result<PlayedHub<R>, LineFault> {
        match self {
            Stage::Beginning => Err(LineFault::NoHub),
            Stage::Asked(plan) => plan.into_hub(rt, failing),
            Stage::Calling(hub) => hub.reopened(rt, failing),
        }
    }
}

/// Plays lines, one after another. `R` is what the hubs' repositories without files are.
#[derive(Drop)]
pub struct Player<R: InMemory> {
    rt: HostRuntime,
    stage: Stage<R>,
    /// How the store that is opened next fails.
    failing: Failing,
}

impl<R: InMemory> Player<R> {
    /// Makes a player that has no hub yet.
    pub fn new(rt: HostRuntime) -> Self {
        Player {
            rt,
            stage: Stage::Beginning,
            failing: NEVER,
        }
    }

    /// Plays a line, and gives what it is answered by, if by anything.
    pub fn play(&mut self, line: Line) -> Result<Option<String>, LineFault> {
        match line {
            Line::Comment => Ok(None),
            Line::Hub(asked) => {
                self.ask(asked);
                Ok(None)
            }
            Line::Revprops => self.open_revprops(),
            Line::Account(name) => self.set_account(name),
            Line::Users => self.begin_users(),
            Line::User(user) => self.add_user(&user),
            Line::Place(place) => self.put(place),
            Line::Format(format) => self.set_format(format),
            Line::Fuse(failing) => {
                self.failing = failing;
                Ok(None)
            }
            Line::Reopen => self.reopen(),
            Line::File(file) => self.ask_file(&file),
            Line::Connect => self.call(&Call::Connect),
            Line::Feed(piece) => self.feed(piece),
            Line::Open(session) => self.ask_open(session),
            Line::Disconnect(session) => self.call(&Call::Disconnect(session)),
        }
    }

    /// Asks for a hub, in place of the one before.
    fn ask(&mut self, asked: NewHub) {
        self.stage = Stage::Asked(Plan::new(asked));
        self.failing = NEVER;
    }

    /// Lets the clients of the hub that is asked for change the properties of revisions.
    fn open_revprops(&mut self) -> Result<Option<String>, LineFault> {
        self.plan()?.open_revprops();
        Ok(None)
    }

    /// Has clients of the hub that is asked for that came as an account.
    fn set_account(&mut self, name: String) -> Result<Option<String>, LineFault> {
        match self.plan() {
            Ok(plan) => {
                plan.set_account(name);
                Ok(None)
            }
            Err(fault) => {
                drop(name);
                Err(fault)
            }
        }
    }

    /// Has the repository of the hub that is asked for in a format, where it is new.
    fn set_format(&mut self, format: NewFormat) -> Result<Option<String>, LineFault> {
        self.plan()?.set_format(format);
        Ok(None)
    }

    /// Begins a users file of the hub that is asked for.
    fn begin_users(&mut self) -> Result<Option<String>, LineFault> {
        let alloc = self.rt.alloc();
        self.plan()?.begin_users(alloc)?;
        Ok(None)
    }

    /// Adds a user of the hub that is asked for.
    fn add_user(&mut self, user: &NewUser) -> Result<Option<String>, LineFault> {
        let alloc = self.rt.alloc();
        self.plan()?.add_user(alloc, user)?;
        Ok(None)
    }

    /// Has the repository of the hub that is asked for at a place.
    fn put(&mut self, place: Place) -> Result<Option<String>, LineFault> {
        match self.plan() {
            Ok(plan) => {
                plan.put(place);
                Ok(None)
            }
            Err(fault) => {
                drop(place);
                Err(fault)
            }
        }
    }

    /// Feeds a session a piece.
    fn feed(&mut self, piece: Piece) -> Result<Option<String>, LineFault> {
        let Piece {
            session,
            bytes,
            env,
        } = piece;
        self.make(Call::Feed(session, bytes, env))
    }

    /// Makes a call, and drops it.
    fn make(&mut self, call: Call) -> Result<Option<String>, LineFault> {
        let answer = self.call(&call);
        drop(call);
        answer
    }

    /// Makes a call.
    fn call(&mut self, call: &Call) -> Result<Option<String>, LineFault> {
        let alloc = self.rt.alloc();
        let answer = self.hub()?.answer(alloc, call)?;
        Ok(Some(answer))
    }

    /// Answers whether a session is open.
    fn ask_open(&mut self, session: SessionId) -> Result<Option<String>, LineFault> {
        let alloc = self.rt.alloc();
        let is_open = self.hub()?.is_open(session);
        Ok(Some(format!(in alloc; "open {session} {is_open}")?))
    }

    /// Answers what a file of the repository has.
    fn ask_file(&mut self, file: &NamedFile) -> Result<Option<String>, LineFault> {
        let rt = self.rt;
        match self.hub()?.file(&rt, file)? {
            Some(bytes) => {
                let line = file_line(rt.alloc(), &file.text, Some(bytes.as_slice()));
                drop(bytes);
                Ok(Some(line?))
            }
            None => Ok(Some(file_line(rt.alloc(), &file.text, None)?)),
        }
    }

    /// Drops the hub, and opens its repository again; where the hub wasn't made yet, it is made.
    fn reopen(&mut self) -> Result<Option<String>, LineFault> {
        let alloc = self.rt.alloc();
        let failing = mem::replace(&mut self.failing, NEVER);
        match mem::replace(&mut self.stage, Stage::Beginning).into_hub(&self.rt, failing) {
            Ok(hub) => {
                self.stage = Stage::Calling(hub);
                Ok(Some(reopening_line(alloc, None)?))
            }
            Err(LineFault::Store(fault)) => Ok(Some(reopening_line(alloc, Some(fault))?)),
            Err(fault) => Err(fault),
        }
    }

    /// Gives the hub that is asked for, before its first call.
    fn plan(&mut self) -> Result<&mut Plan, LineFault> {
        match &mut self.stage {
            Stage::Asked(plan) => Ok(plan),
            Stage::Beginning => Err(LineFault::NoHub),
            Stage::Calling(_) => Err(LineFault::TooLate),
        }
    }

    /// Gives the hub, which is made at its first call.
    fn hub(&mut self) -> Result<&mut PlayedHub<R>, LineFault> {
        self.make_hub()?;
        match &mut self.stage {
            Stage::Calling(hub) => Ok(hub),
            _ => Err(LineFault::NoHub),
        }
    }

    /// Makes the hub that is asked for, if it isn't made yet.
    fn make_hub(&mut self) -> Result<(), LineFault> {
        if !matches!(&self.stage, Stage::Asked(_)) {
            return Ok(());
        }
        let failing = mem::replace(&mut self.failing, NEVER);
        match mem::replace(&mut self.stage, Stage::Beginning).into_hub(&self.rt, failing) {
            Ok(hub) => {
                self.stage = Stage::Calling(hub);
                Ok(())
            }
            Err(fault) => Err(fault),
        }
    }
}

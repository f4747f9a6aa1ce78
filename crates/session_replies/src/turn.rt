//! Where a session at a repository stands, and its end over what is no command.
ghost use Rattle.std.specs.Prelude.{◌≡◌, IsErr, IsOk, MatchResult};
ghost use Rattle.machine.specs.{Answers.malformed, Steps.Answered};

use editor::CommitEditor;
use machine::{OpenEdit, OpenReporting, Phase, Turn};
use refusals::Refusal;
use repo_api::Repository;
use reporter::Grafts;
use std::alloc::AllocError;
use std::mem::drop;
use wire_replies::{ReplySink, tell_refusal};

/// An edit of a session at a repository.
pub type SessionEdit<R> = OpenEdit<CommitEditor<R>>;

/// A report of a session.
pub type SessionReport = OpenReporting<Grafts>;

/// Where a session at a repository stands.
pub type SessionPhase<R> = Phase<CommitEditor<R>, Grafts>;

/// Says where a session stands once its replies were written: at this phase, unless they could not be.
pub fn stands<R: Repository>(
    phase: SessionPhase<R>,
    said: Result<(), AllocError>,
) -> Result<SessionPhase<R>, AllocError>
    ensures { MatchResult result (λ after. (after ≡ phase) × IsOk said) (λ _. IsErr said) }
{
    match said {
        Ok(()) => Ok(phase),
        Err(error) => {
            drop(phase);
            Err(error)
        }
    }
}

/// Ends the session over what is no command.
pub fn end_malformed<R: Repository, S: ReplySink>(
    turn: &mut Turn<S>,
) -> Result<SessionPhase<R>, AllocError>
    ensures { Answered result S.writes turn.old turn.new (malformed turn.old.env) }
{
    tell_refusal(Refusal::MalformedData, &mut turn.out)?;
    Ok(Phase::Ended)
}

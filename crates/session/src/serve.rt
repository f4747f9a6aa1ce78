//! One input of a session.
ghost use Rattle.std.specs.Prelude.{[], if◌then◌else◌};
ghost use Rattle.items.specs.View.{value_of};
ghost use Rattle.access.specs.Points.{content_of};
ghost use Rattle.machine.specs.{Answers.{malformed, says}, Hearing.Input.Whole, Machine.UnreleasedStep, Stages.{is_open, StandsOn}};
ghost use Rattle.machine.specs.Steps.{Answered, SteppedInPart};
ghost use Rattle.session.specs.{Knowing.StepIfKnown, Taking.input_of};

use crate::greeting::greeting_item;
use crate::incoming::Incoming;
use crate::login::{challenge_item, login_item};
use access::RepoAccess;
use items::Item;
use machine::{Options, Phase, Turn};
use repo_api::Repository;
use session_commands::{edit_input, main_item, skipped_item};
use session_replies::{SessionPhase, end_malformed};
use session_reports::{driven_item, report_item};
use std::alloc::AllocError;
use std::mem::drop;
use wire_replies::ReplySink;

/// Serves an item. What it makes of a text delta rests on what was read of the text.
fn serve_item<R: Repository, A: RepoAccess<View = R>, S: ReplySink>(
    options: &Options,
    phase: SessionPhase<R>,
    item: &Item,
    access: &mut A,
    turn: &mut Turn<S>,
) -> Result<SessionPhase<R>, AllocError>
    requires rests { StandsOn phase (content_of (A.point access.old)) }
    ensures { SteppedInPart result S.writes turn.old turn.new A.rules A.point access.old access.new
        (StepIfKnown (S.is_honest turn.new.out) options.now turn.old.env phase (Whole (value_of item.now)))
        (UnreleasedStep turn.old.env phase (Whole (value_of item.now))) }
{
    match phase {
        Phase::Greeted => greeting_item(options, item, turn),
        Phase::LoggingIn(login) => login_item(options, login, item, access, turn),
        Phase::Challenged(pending) => challenge_item(options, pending, item, access, turn),
        Phase::Serving(client) => main_item(options, client, item, access, turn),
        Phase::Editing(edit) => edit_input(edit, item, access, turn),
        Phase::Skipping(client) => skipped_item(client, item, turn),
        Phase::Reporting(reporting) => report_item(options, reporting, item, access, turn),
        Phase::Driven(client) => driven_item(client, item, turn),
        Phase::Ended => Ok(Phase::Ended),
    }
}

/// Ends the session at a byte that goes on to no item.
fn serve_broken<R: Repository, S: ReplySink>(
    phase: SessionPhase<R>,
    turn: &mut Turn<S>,
) -> Result<SessionPhase<R>, AllocError>
    ensures { Answered result S.writes turn.old turn.new
        (if is_open phase then malformed turn.old.env else says turn.old.env Phase.Ended []) }
{
    let was_open = phase.is_open();
    drop(phase);
    if was_open {
        end_malformed(turn)
    } else {
        Ok(Phase::Ended)
    }
}

/// Serves one input: an `Err` means that memory has run out, or comes from the sink. What it makes of a text delta rests
/// on what was read of the text.
pub fn serve<R: Repository, A: RepoAccess<View = R>, S: ReplySink>(
    options: &Options,
    phase: SessionPhase<R>,
    incoming: Incoming,
    access: &mut A,
    turn: &mut Turn<S>,
) -> Result<SessionPhase<R>, AllocError>
    requires rests { StandsOn phase (content_of (A.point access.old)) }
    ensures { SteppedInPart result S.writes turn.old turn.new A.rules A.point access.old access.new
        (StepIfKnown (S.is_honest turn.new.out) options.now turn.old.env phase (input_of incoming))
        (UnreleasedStep turn.old.env phase (input_of incoming)) }
{
    match incoming {
        Incoming::Whole(item) => serve_item(options, phase, &item, access, turn),
        Incoming::Broken => serve_broken(phase, turn),
    }
}

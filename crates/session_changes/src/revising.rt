//! A property of a revision is changed.
ghost use Rattle.machine.specs.{Answers.Behind, Commands.{DatingStep, RevisingStep}, Dates.is_refused_date, Steps.Stepped};
ghost use Rattle.session_replies.specs.Telling.{told_before};

use access::RepoAccess;
use machine::{Client, Turn, is_refused_date};
use refusals::Refusal;
use repo_api::{PropertyAsk, Repository};
use session_replies::{Preface, SessionPhase, refuse, tell, tell_fault};
use std::alloc::AllocError;
use std::mem::drop;
use wire_replies::{Reply, ReplySink};

/// Asks for a change.
fn ask_change<R: Repository, A: RepoAccess<View = R>, S: ReplySink>(
    client: Client,
    ask: PropertyAsk,
    preface: Preface,
    access: &mut A,
    turn: &mut Turn<S>,
) -> Result<SessionPhase<R>, AllocError>
    ensures { Stepped result S.writes turn.old turn.new A.rules A.point access.old access.new
        (Behind (told_before preface) (RevisingStep turn.old.env client ask)) }
{
    match access.set_rev_prop(ask) {
        Ok(()) => tell(client, preface, Ok(Reply::Success), turn),
        Err(fault) => tell_fault(client, None, preface, fault, turn),
    }
}

/// Changes a property of a revision, after what the client is sent before.
fn revise<R: Repository, A: RepoAccess<View = R>, S: ReplySink>(
    client: Client,
    ask: &PropertyAsk,
    preface: Preface,
    access: &mut A,
    turn: &mut Turn<S>,
) -> Result<SessionPhase<R>, AllocError>
    ensures { Stepped result S.writes turn.old turn.new A.rules A.point access.old access.new
        (Behind (told_before preface) (RevisingStep turn.old.env client ask.now)) }
{
    match ask.clone() {
        Ok(ask) => ask_change(client, ask, preface, access, turn),
        Err(error) => {
            drop(client);
            Err(error)
        }
    }
}

/// Changes a property of a revision, after what the client is sent before. A client of today is refused first a date
/// that no client can read.
pub fn set_rev_prop<R: Repository, A: RepoAccess<View = R>, S: ReplySink>(
    client: Client,
    ask: &PropertyAsk,
    preface: Preface,
    access: &mut A,
    turn: &mut Turn<S>,
) -> Result<SessionPhase<R>, AllocError>
    ensures { Stepped result S.writes turn.old turn.new A.rules A.point access.old access.new
        (Behind (told_before preface)
        (DatingStep (is_refused_date client.is_of_today ask.now) turn.old.env client ask.now)) }
{
    if is_refused_date(client.is_of_today, ask) {
        refuse(client, preface, Refusal::NotADate, turn)
    } else {
        revise(client, ask, preface, access, turn)
    }
}

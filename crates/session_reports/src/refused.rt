//! A report that is refused: its commands are read by their names alone.
ghost use Rattle.std.specs.Prelude.{◌≡◌};
ghost use Rattle.items.specs.View.{value_of};
ghost use Rattle.wire_reports.specs.Reporting.{name_of};
ghost use Rattle.reporter.specs.{Reporting.refused_drawn, Reporting.Drawn.Fails};
ghost use Rattle.machine.specs.{Reports.drawn_answer, Steps.Answered};

use items::Item;
use machine::{Client, OpenReporting, Phase, Turn};
use refusals::Refusal;
use repo_api::Repository;
use reporter::Report;
use session_replies::{Preface, SessionPhase, end_malformed, refuse_at};
use std::alloc::AllocError;
use std::mem::drop;
use svnpath::Path;
use wire_replies::{Reply, ReplySink};
use wire_reports::{ReportName, read_name};

/// Tells at the end of a report why there is no drive. The next command is awaited.
pub(crate) fn tell_refused<R: Repository, S: ReplySink>(
    client: Client,
    refusal: Refusal,
    path: Option<Path>,
    turn: &mut Turn<S>,
) -> Result<SessionPhase<R>, AllocError>
    ensures { Answered result S.writes turn.old turn.new
        (drawn_answer turn.old.env client (Fails refusal path)) }
{
    refuse_at(client, Preface::NoLogin, refusal, path, turn)
}

/// Goes on with a report that is refused.
pub(crate) fn refused_phase<R: Repository>(
    client: Client,
    refusal: Refusal,
    path: Option<Path>,
) -> SessionPhase<R>
    ensures { result
        ≡ Phase.Reporting (record { client = client; report = Report.Refused refusal path }) }
{
    let report = Report::Refused(refusal, path);
    Phase::Reporting(OpenReporting { client, report })
}

/// Takes a command of a report that is refused.
pub(crate) fn refused_item<R: Repository, S: ReplySink>(
    client: Client,
    refusal: Refusal,
    path: Option<Path>,
    item: &Item,
    turn: &mut Turn<S>,
) -> Result<SessionPhase<R>, AllocError>
    ensures { Answered result S.writes turn.old turn.new (drawn_answer turn.old.env client
        (refused_drawn refusal path (name_of (value_of item.now)))) }
{
    match read_name(item) {
        None => {
            drop(client);
            drop(path);
            end_malformed(turn)
        }
        Some(Some(ReportName::FinishReport)) => tell_refused(client, refusal, path, turn),
        Some(Some(ReportName::AbortReport)) => {
            drop(path);
            Ok(Phase::Serving(client))
        }
        Some(_) => Ok(refused_phase(client, refusal, path)),
    }
}

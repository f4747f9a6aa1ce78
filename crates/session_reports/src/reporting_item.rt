//! One item within a report.
ghost use Rattle.std.specs.Prelude.{◌≡◌, None};
ghost use Rattle.items.specs.View.{value_of};
ghost use Rattle.repo_api.specs.Soundness.{AreSound};
ghost use Rattle.wire_reports.specs.Reporting.{report_command};
ghost use Rattle.reporter.specs.Reporting.{OpenStep};
ghost use Rattle.access.specs.Points.{content_of};
ghost use Rattle.machine.specs.{Reports.{Draws, ReportingStep}, Steps.Stepped, declared.phase.Phase.TheVariants.Reporting};

use crate::finishing::OpenErrand;
use crate::heeding::take_command;
use crate::refused::{refused_item, refused_phase};
use access::RepoAccess;
use items::Item;
use machine::{Options, Turn};
use refusals::Refusal;
use repo_api::Repository;
use reporter::Report;
use session_replies::{SessionPhase, SessionReport, end_malformed};
use std::alloc::AllocError;
use std::mem::drop;
use wire_forms::CommandFault;
use wire_replies::ReplySink;
use wire_reports::ReportCommand;

/// Refuses a report from now on.
fn refuse_report<R: Repository>(errand: OpenErrand, refusal: Refusal) -> SessionPhase<R>
    ensures { result
        ≡ Reporting (record { client = errand.client; report = Report.Refused refusal None }) }
{
    let OpenErrand { client, report } = errand;
    drop(report);
    refused_phase(client, refusal, None)
}

/// Takes an item within a report that goes on.
fn open_report_item<R: Repository, A: RepoAccess<View = R>, S: ReplySink>(
    options: &Options,
    errand: OpenErrand,
    item: &Item,
    access: &mut A,
    turn: &mut Turn<S>,
) -> Result<SessionPhase<R>, AllocError>
    requires trees { AreSound (content_of (A.point access.old)).revisions }
    ensures { Stepped result S.writes turn.old turn.new A.rules A.point access.old access.new
        (Draws turn.old.env errand.client
        (OpenStep options.now.name errand.report (report_command (value_of item.now)))) }
{
    match ReportCommand::from_item(item) {
        Ok(command) => {
            let phase = take_command(options, errand, &command, access, turn);
            drop(command);
            phase
        }
        Err(CommandFault::UnknownName) => Ok(refuse_report(errand, Refusal::UnknownCommand)),
        Err(CommandFault::BadParameters) => {
            drop(errand);
            end_malformed(turn)
        }
        Err(CommandFault::NoMemory) => {
            drop(errand);
            Err(AllocError)
        }
    }
}

/// Takes an item within a report.
pub fn report_item<R: Repository, A: RepoAccess<View = R>, S: ReplySink>(
    options: &Options,
    reporting: SessionReport,
    item: &Item,
    access: &mut A,
    turn: &mut Turn<S>,
) -> Result<SessionPhase<R>, AllocError>
    requires trees { AreSound (content_of (A.point access.old)).revisions }
    ensures { Stepped result S.writes turn.old turn.new A.rules A.point access.old access.new
        (ReportingStep options.now turn.old.env reporting (value_of item.now)) }
{
    let (client, report) = reporting.into_parts();
    match report {
        Report::Refused(refusal, path) => refused_item(client, refusal, path, item, turn),
        Report::Open(report) => {
            open_report_item(options, OpenErrand { client, report }, item, access, turn)
        }
    }
}

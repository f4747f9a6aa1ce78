//! The commands of a report that goes on.
ghost use Rattle.std.specs.Prelude.{◌≡◌, Ok, option_copied};
ghost use Rattle.repo_api.specs.Soundness.{AreSound};
ghost use Rattle.reporter.specs.{Refusing.{delete_path_report, set_path_report}, Reporting.OpenStep};
ghost use Rattle.access.specs.Points.{content_of};
ghost use Rattle.machine.specs.{Reports.Draws, Steps.{Stepped, Looks}};
ghost use Rattle.wire_replies.specs.Made.{Makes};

use crate::finishing::{OpenErrand, finish};
use access::RepoAccess;
use byte_string::ByteString;
use machine::{OpenReporting, Options, Phase, Turn};
use repo_api::Repository;
use reporter::{Grafts, Link, OpenReport, Report};
use session_replies::SessionPhase;
use std::alloc::{AllocError, Global};
use std::mem::drop;
use wire_replies::ReplySink;
use wire_reports::ReportCommand;

/// Gives what a path that is set, or linked to a URL, makes of a report at the repository as it is now.
fn set_path_now<R: Repository, A: RepoAccess<View = R>>(
    alloc: Global,
    name: &str,
    report: OpenReport<Grafts>,
    link: Link<'_>,
    access: &mut A,
) -> Result<Report<Grafts>, AllocError>
    requires trees { AreSound (content_of (A.point access.old)).revisions }
    ensures { Looks A.rules A.point access.old access.new (λ c. Makes result
        (set_path_report c name.now report link.entry.reported.now
        (option_copied link.entry.url))) }
{
    match access.look() {
        Ok(view) => reporter::set_path(alloc, &view, name, report, link),
        Err(error) => {
            drop(report);
            Err(error)
        }
    }
}

/// Takes a path that is set, or linked to a URL. The report goes on.
fn set_path<R: Repository, A: RepoAccess<View = R>>(
    alloc: Global,
    options: &Options,
    errand: OpenErrand,
    link: Link<'_>,
    access: &mut A,
) -> Result<SessionPhase<R>, AllocError>
    requires trees { AreSound (content_of (A.point access.old)).revisions }
    ensures { Looks A.rules A.point access.old access.new (λ c. Makes result
        (Phase.Reporting (record {
          client = errand.client;
          report = set_path_report c options.now.name errand.report link.entry.reported.now
              (option_copied link.entry.url);
        }))) }
{
    let OpenErrand { client, report } = errand;
    match set_path_now(alloc, options.name(), report, link, access) {
        Ok(report) => Ok(Phase::Reporting(OpenReporting { client, report })),
        Err(error) => {
            drop(client);
            Err(error)
        }
    }
}

/// Takes a path at which nothing is. The report goes on.
fn delete_path<R: Repository>(
    alloc: Global,
    errand: OpenErrand,
    text: &ByteString,
) -> Result<SessionPhase<R>, AllocError>
    ensures { Makes result (Phase.Reporting (record {
      client = errand.client;
      report = delete_path_report errand.report text.now;
    })) }
{
    let OpenErrand { client, report } = errand;
    match reporter::delete_path(alloc, report, text) {
        Ok(report) => Ok(Phase::Reporting(OpenReporting { client, report })),
        Err(error) => {
            drop(client);
            Err(error)
        }
    }
}

/// Gives up a report. The next command is awaited.
fn abort<R: Repository>(errand: OpenErrand) -> SessionPhase<R>
    ensures { result ≡ Phase.Serving errand.client }
{
    let OpenErrand { client, report } = errand;
    drop(report);
    Phase::Serving(client)
}

/// Takes a command of a report.
pub(crate) fn take_command<R: Repository, A: RepoAccess<View = R>, S: ReplySink>(
    options: &Options,
    errand: OpenErrand,
    command: &ReportCommand,
    access: &mut A,
    turn: &mut Turn<S>,
) -> Result<SessionPhase<R>, AllocError>
    requires trees { AreSound (content_of (A.point access.old)).revisions }
    ensures { Stepped result S.writes turn.old turn.new A.rules A.point access.old access.new
        (Draws turn.old.env errand.client
        (OpenStep options.now.name errand.report (Ok command.now))) }
{
    match command {
        ReportCommand::SetPath(reported) => {
            let link = Link {
                reported,
                url: None,
            };
            set_path(turn.alloc, options, errand, link, access)
        }
        ReportCommand::LinkPath(reported, url) => {
            let link = Link {
                reported,
                url: Some(url),
            };
            set_path(turn.alloc, options, errand, link, access)
        }
        ReportCommand::DeletePath(path) => delete_path(turn.alloc, errand, path),
        ReportCommand::FinishReport => finish(errand, access, turn),
        ReportCommand::AbortReport => Ok(abort(errand)),
    }
}

//! The end of a report: a drive, or why there is none.
ghost use Rattle.std.specs.Prelude.{◌≡◌};
ghost use Rattle.repo_api.specs.Soundness.{AreSound, AreTrees};
ghost use Rattle.access.specs.Points.{content_of};
ghost use Rattle.session_reports.specs.Finishing.{EndsReport};
ghost use Rattle.machine.specs.{Reports.Draws, Steps.{Stepped, Looks}};
ghost use Rattle.reporter.specs.Reporting.{EndStep};

use crate::refused::tell_refused;
use access::RepoAccess;
use drive_sending::say_drive;
use machine::{Client, Phase, Turn};
use refusals::NotDone;
use repo_api::Repository;
use reporter::{Grafts, OpenReport};
use session_replies::SessionPhase;
use std::alloc::{AllocError, Global};
use std::mem::drop;
use svnpath::Path;
use wire_replies::ReplySink;

/// A report that goes on, and whose it is.
#[derive(Drop)]
pub(crate) struct OpenErrand {
    pub(crate) client: Client,
    pub(crate) report: OpenReport<Grafts>,
}

/// Writes the drive of a report, if there is one.
fn say_end<R: Repository, S: ReplySink>(
    alloc: Global,
    view: &R,
    report: &OpenReport<Grafts>,
    out: &mut S,
) -> Result<(), NotDone>
    requires trees { AreTrees (R.content view.now).revisions }
    ensures { EndsReport result (R.content view.now) report.now (S.writes out.old out.new) }
{
    match reporter::finish(alloc, view, report) {
        Ok(root) => match say_drive(alloc, view, report, root, out) {
            Ok(()) => Ok(()),
            Err(_) => Err(NotDone::NoMemory),
        },
        Err(fault) => Err(fault),
    }
}

/// Writes the drive of a report at the repository as it is now, if there is one.
fn say_drive_now<R: Repository, A: RepoAccess<View = R>, S: ReplySink>(
    alloc: Global,
    report: &OpenReport<Grafts>,
    access: &mut A,
    out: &mut S,
) -> Result<(), NotDone>
    requires trees { AreSound (content_of (A.point access.old)).revisions }
    ensures { Looks A.rules A.point access.old access.new
        (λ c. EndsReport result c report.now (S.writes out.old out.new)) }
{
    match access.look() {
        Ok(view) => say_end(alloc, &view, report, out),
        Err(_) => Err(NotDone::NoMemory),
    }
}

/// Gives the goal of a report.
fn goal_of(report: OpenReport<Grafts>) -> Path
    ensures { result ≡ report.ask.goal }
{
    let OpenReport {
        ask,
        root: _,
        grafts,
    } = report;
    drop(grafts);
    ask.into_goal()
}

/// Ends a report.
pub(crate) fn finish<R: Repository, A: RepoAccess<View = R>, S: ReplySink>(
    errand: OpenErrand,
    access: &mut A,
    turn: &mut Turn<S>,
) -> Result<SessionPhase<R>, AllocError>
    requires trees { AreSound (content_of (A.point access.old)).revisions }
    ensures { Stepped result S.writes turn.old turn.new A.rules A.point access.old access.new
        (Draws turn.old.env errand.client (EndStep errand.report)) }
{
    let OpenErrand { client, report } = errand;
    match say_drive_now(turn.alloc, &report, access, &mut turn.out) {
        Ok(()) => {
            drop(report);
            Ok(Phase::Driven(client))
        }
        Err(NotDone::Refused(refusal)) => {
            let goal = goal_of(report);
            tell_refused(client, refusal, Some(goal), turn)
        }
        Err(NotDone::NoMemory) => {
            drop(report);
            drop(client);
            Err(AllocError)
        }
    }
}

//! The beginning of a report.
ghost use Rattle.std.specs.Prelude.{◌≡◌, ℕ, Bool, List, [], option_copied};
ghost use Rattle.svnpath.specs.Paths.{PathValue};
ghost use Rattle.repo_api.specs.States.{RepoState};
ghost use Rattle.reporter.specs.Refusing.{ReportState, ask_of, begun_report};
ghost use Rattle.machine.specs.{Answers.{behind, says}, Commands.{diff_purpose, drive_ask}, Steps.{Answered, Looks}};
ghost use Rattle.wire_replies.specs.Made.{Makes};
ghost use Rattle.session_replies.specs.Telling.{told_before};

use access::RepoAccess;
use commands::DriveCommand;
use machine::{Client, OpenReporting, Options, Phase, Turn};
use repo_api::Repository;
use reporter::{Anchor, Errand, Grafts, Purpose, Report, begin};
use session_replies::{Preface, SessionPhase, say_preface, stands};
use std::alloc::{AllocError, Global};
use std::mem::drop;
use wire_replies::ReplySink;

/// Gives the purpose of a diff, with texts or without.
fn diff_purpose(sends_texts: bool) -> Purpose
    ensures { result ≡ diff_purpose sends_texts }
{
    if sends_texts {
        Purpose::Diff
    } else {
        Purpose::Summary
    }
}

/// Says what a command asks a report for.
fn errand_of(command: &DriveCommand) -> Errand<'_>
    ensures { (c : RepoState) (is_of_today : Bool) (name : List ℕ) (path : PathValue)
        → ask_of c is_of_today name path result.purpose result.request.now
        (option_copied result.url) ≡ drive_ask c is_of_today name path command.now }
{
    match command {
        DriveCommand::Update(request) => Errand {
            purpose: Purpose::Update,
            request,
            url: None,
        },
        DriveCommand::Switch(request, url) => Errand {
            purpose: Purpose::Switch,
            request,
            url: Some(url),
        },
        DriveCommand::Status(request) => Errand {
            purpose: Purpose::Status,
            request,
            url: None,
        },
        DriveCommand::Diff(request) => Errand {
            purpose: diff_purpose(request.sends_texts),
            request: &request.drive,
            url: Some(&request.url),
        },
    }
}

/// Begins a report at the repository as it is now, with its refusal if there is one.
pub(crate) fn begun_report<R: Repository, A: RepoAccess<View = R>>(
    alloc: Global,
    options: &Options,
    client: &Client,
    command: &DriveCommand,
    access: &mut A,
) -> Result<Report<Grafts>, AllocError>
    ensures { Looks A.rules A.point access.old access.new (λ c. Makes result
        (begun_report (drive_ask c client.now.is_of_today options.now.name client.now.path
        command.now))) }
{
    let view = access.look()?;
    let anchor = Anchor {
        is_of_today: client.is_of_today,
        name: options.name(),
        path: &client.path,
    };
    begin(alloc, &view, anchor, errand_of(command))
}

/// Leaves a report open, after what its client is sent before.
fn await_report<R: Repository, S: ReplySink>(
    reporting: OpenReporting<Grafts>,
    preface: Preface,
    turn: &mut Turn<S>,
) -> Result<SessionPhase<R>, AllocError>
    ensures { Answered result S.writes turn.old turn.new
        (behind (told_before preface) (says turn.old.env (Phase.Reporting reporting) [])) }
{
    let said = say_preface(preface, &mut turn.out);
    stands(Phase::Reporting(reporting), said)
}

/// Opens a report, after what its client is sent before, if the report could be made. If not, nothing is written.
pub(crate) fn open_report<R: Repository, S: ReplySink>(
    client: Client,
    preface: Preface,
    report: Result<Report<Grafts>, AllocError>,
    turn: &mut Turn<S>,
) -> Result<SessionPhase<R>, AllocError>
    ensures { (told : ReportState) → Makes report told →
        Answered result S.writes turn.old turn.new (behind (told_before preface)
        (says turn.old.env (Phase.Reporting (record { client = client; report = told })) [])) }
{
    match report {
        Ok(report) => await_report(OpenReporting { client, report }, preface, turn),
        Err(error) => {
            drop(client);
            Err(error)
        }
    }
}

//! What an update, a switch or a status asks for.
ghost use Rattle.std.specs.Prelude.{◌≡◌, option_copied, IfOk};
ghost use Rattle.reporter.specs.{Judging.JudgesReport, Refusing.{ask_of, begun_report}};

use crate::ask::{DriveAsk, Purpose};
use crate::grafts::Grafts;
use crate::judging::{depth_asked, path_named, revision_read, url_or};
use crate::named_path::NamedPath;
use crate::report::{OpenReport, Report};
use byte_string::ByteString;
use refusals::NotDone;
use repo_api::Repository;
use std::alloc::{AllocError, Global};
use svnpath::Path;
use wire_reports::DriveRequest;

/// Who asks, and where: whether it is a client of today, the name of the repository, and the path of the session's URL.
#[derive(Clone, Copy)]
pub struct Anchor<'a> {
    pub is_of_today: bool,
    pub name: &'a str,
    pub path: &'a Path,
}

/// An update, a switch to a URL, or a status.
#[derive(Clone, Copy)]
pub struct Errand<'a> {
    pub purpose: Purpose,
    pub request: &'a DriveRequest,
    pub url: Option<&'a ByteString>,
}

/// Finds what is asked of a drive, over the repository as it is now.
pub fn ask_of<R: Repository>(
    alloc: Global,
    view: &R,
    anchor: Anchor<'_>,
    errand: Errand<'_>,
) -> Result<DriveAsk, NotDone>
    ensures { JudgesReport result (ask_of (R.content view.now) anchor.entry.is_of_today
        anchor.entry.name.now anchor.entry.path.now errand.entry.purpose errand.entry.request.now
        (option_copied errand.entry.url)) }
{
    let own = path_named(alloc, anchor.path, &errand.request.target)?;
    let target = own.rebased(alloc, anchor.path, &Path::root(alloc))?;
    let goal = url_or(alloc, anchor.name, own, errand.url)?;
    let revision = revision_read(view, errand.request.revision)?;
    let depth = depth_asked(errand.purpose, errand.request.recurse, errand.request.depth)?;
    Ok(DriveAsk {
        purpose: errand.purpose,
        is_of_today: anchor.is_of_today,
        ignores_ancestry: errand.request.ignores_ancestry,
        anchor: anchor.path.clone()?,
        target: NamedPath::new(target),
        goal,
        revision,
        depth,
    })
}

/// Begins a report, with its refusal if there is one.
pub fn begin<R: Repository>(
    alloc: Global,
    view: &R,
    anchor: Anchor<'_>,
    errand: Errand<'_>,
) -> Result<Report<Grafts>, AllocError>
    ensures { IfOk result (λ report. report ≡ begun_report (ask_of (R.content view.now)
        anchor.entry.is_of_today anchor.entry.name.now anchor.entry.path.now
        errand.entry.purpose errand.entry.request.now (option_copied errand.entry.url))) }
{
    match ask_of(alloc, view, anchor, errand) {
        Ok(ask) => Ok(Report::Open(OpenReport {
            ask,
            root: None,
            grafts: Grafts::new(alloc),
        })),
        Err(NotDone::Refused(refusal)) => Ok(Report::Refused(refusal, None)),
        Err(NotDone::NoMemory) => Err(AllocError),
    }
}

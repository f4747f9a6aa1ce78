//! What the commands of a report make of it.
ghost use Rattle.std.specs.{Prelude.{◌≡◌, option_copied, IfOk, IsOkAnd}, Result.result_ok};
ghost use Rattle.repo_api.specs.Soundness.{AreTrees};
ghost use Rattle.reporter.specs.{Judging.{JudgesReport, JudgesAnd}, Named.IsNamed, Refusing.{is_in_order, is_root_link, may_be_absent, may_exclude}};
ghost use Rattle.reporter.specs.Refusing.{first_root, graft_of, set_path_graft, set_path_place, set_path_report, delete_path_graft, delete_path_report};
ghost use Rattle.reporter.specs.Refusing.{report_with_graft, has_goal, has_anchor, finish_root};

use crate::ask::{DriveAsk, Purpose};
use crate::graft::{Graft, Subtree};
use crate::grafts::Grafts;
use crate::judging::{
    graft_depth, is_directory_there, is_exclude, is_there, judge, revision_read, url_or,
};
use crate::report::{OpenReport, Report, ReportRoot};
use crate::reported::{has_directory, has_place};
use crate::sources::{own_source, report_path, under_anchor};
use byte_string::ByteString;
use drive_rules::Depth;
use refusals::{NotDone, Refusal};
use repo_api::Repository;
use std::alloc::{AllocError, Global};
use std::mem::drop;
use svnpath::Path;
use wire_reports::{DepthWord, ReportedPath};

/// A path that is set, or linked to a URL.
#[derive(Clone, Copy)]
pub struct Link<'a> {
    pub reported: &'a ReportedPath,
    pub url: Option<&'a ByteString>,
}

/// Says whether a path may be set now, or linked to a URL: the first command must set the target.
fn is_in_order(
    alloc: Global,
    report: &OpenReport<Grafts>,
    link: Link<'_>,
) -> Result<bool, AllocError>
    ensures { IfOk result (λ answer. answer ≡ is_in_order report.now link.entry.reported.now.path
        (option_copied link.entry.url)) }
{
    if report.root.is_some() {
        return Ok(true);
    }
    if link.url.is_some() {
        return Ok(false);
    }
    match report_path(alloc, &report.ask, &link.reported.path) {
        Ok(path) => Ok(&path == report.ask.target.as_path()),
        Err(NotDone::Refused(_)) => Ok(false),
        Err(NotDone::NoMemory) => Err(AllocError),
    }
}

/// Says whether a client of today links the session's own path.
fn is_root_link(ask: &DriveAsk, path: &Path, url: Option<&ByteString>) -> bool
    ensures { result ≡ is_root_link ask.now path.now (option_copied url.entry) }
{
    ask.is_of_today && url.is_some() && path.is_root()
}

/// Says whether a client of today may exclude a path that is set: each but for the target.
fn may_exclude(ask: &DriveAsk, path: &Path, url: Option<&ByteString>) -> bool
    ensures { result ≡ may_exclude ask.now path.now (option_copied url.entry) }
{
    ask.is_of_today && url.is_none() && path != ask.target.as_path()
}

/// Says whether nothing need exist at what is reported: it is excluded, or the target, of some name, is reported first.
fn may_be_absent(report: &OpenReport<Grafts>, word: Option<DepthWord>) -> bool
    ensures { result ≡ may_be_absent report.now word }
{
    is_exclude(word) || (report.root.is_none() && !report.ask.target.as_path().is_root())
}

/// Keeps the path that was reported first.
fn first_root(root: Option<ReportRoot>, revision: u64, depth: Depth) -> ReportRoot
    ensures { result ≡ first_root root revision depth }
{
    match root {
        None => ReportRoot { revision, depth },
        Some(root) => root,
    }
}

/// Makes the graft of a path that is set, or linked to a URL.
fn graft_of(
    path: Path,
    from: Path,
    revision: u64,
    depth: Depth,
    link: Link<'_>,
) -> Result<Graft, AllocError>
    ensures { IfOk result (λ graft. graft ≡ graft_of path from revision depth
        link.entry.reported.now (option_copied link.entry.url)) }
{
    let token = link.reported.token.clone()?;
    Ok(Graft {
        path,
        from,
        is_link: link.url.is_some(),
        is_excluded: is_exclude(link.reported.depth),
        subtree: Some(Subtree {
            revision,
            starts_empty: link.reported.starts_empty,
            depth,
            token,
        }),
    })
}

/// Makes the root and the graft of a path that is set, or linked to a URL, over the repository as it is now.
fn set_path_graft<R: Repository>(
    alloc: Global,
    view: &R,
    name: &str,
    report: &OpenReport<Grafts>,
    link: Link<'_>,
) -> Result<(ReportRoot, Graft), NotDone>
    requires { AreTrees (R.content view.now).revisions }
    ensures { JudgesAnd (λ made. IsNamed made.1.path) result (set_path_graft (R.content view.now)
        name.now report.now link.entry.reported.now (option_copied link.entry.url)) }
{
    let ask = &report.ask;
    let top = ask.target.as_path();
    let grafts = &report.grafts;
    judge(is_in_order(alloc, report, link)?, Refusal::MalformedData)?;
    let path = report_path(alloc, ask, &link.reported.path)?;
    let own = own_source(alloc, ask, grafts, &path)?;
    let from = url_or(alloc, name, own, link.url)?;
    let revision = revision_read(view, Some(link.reported.revision))?;
    judge(!is_root_link(ask, &path, link.url), Refusal::MalformedData)?;
    let depth = graft_depth(may_exclude(ask, &path, link.url), link.reported.depth)?;
    let is_placed = has_place(alloc, view, top, grafts, &path)?;
    judge(is_placed, Refusal::NotFound)?;
    judge(
        is_there(view, revision, &from) || may_be_absent(report, link.reported.depth),
        Refusal::NotFound,
    )?;
    let root = first_root(report.root, revision, depth);
    Ok((root, graft_of(path, from, revision, depth, link)?))
}

/// Makes the graft of a path at which nothing is.
fn delete_path_graft(
    alloc: Global,
    report: &OpenReport<Grafts>,
    text: &ByteString,
) -> Result<Graft, NotDone>
    ensures { JudgesAnd (λ g. IsNamed g.path) result (delete_path_graft report.now text.now) }
{
    judge(report.root.is_some(), Refusal::MalformedData)?;
    let path = report_path(alloc, &report.ask, text)?;
    judge(!path.is_root(), Refusal::MalformedData)?;
    let from = own_source(alloc, &report.ask, &report.grafts, &path)?;
    Ok(Graft {
        path,
        from,
        is_link: false,
        is_excluded: false,
        subtree: None,
    })
}

/// Gives the report with one graft more.
fn with_graft(
    alloc: Global,
    mut report: OpenReport<Grafts>,
    root: Option<ReportRoot>,
    graft: Graft,
) -> Result<Report<Grafts>, AllocError>
    requires { IsNamed graft.path }
    ensures { IfOk result (λ next. next ≡ report_with_graft report root graft) }
{
    report.grafts.push(graft)?;
    report.root = root;
    Ok(Report::Open(report))
}

/// Finds the path of the repository at which a path that is set, or linked to a URL, is refused: its own, if its
/// directory is none, and else what it stands for.
fn set_path_place<R: Repository>(
    alloc: Global,
    view: &R,
    name: &str,
    report: &OpenReport<Grafts>,
    link: Link<'_>,
) -> Result<Path, NotDone>
    requires { AreTrees (R.content view.now).revisions }
    ensures { JudgesReport result (set_path_place (R.content view.now) name.now report.now
        link.entry.reported.now (option_copied link.entry.url)) }
{
    let ask = &report.ask;
    let grafts = &report.grafts;
    let path = report_path(alloc, ask, &link.reported.path)?;
    let own = own_source(alloc, ask, grafts, &path)?;
    let from = url_or(alloc, name, own, link.url)?;
    let is_placed = has_place(alloc, view, ask.target.as_path(), grafts, &path)?;
    if is_placed {
        Ok(from)
    } else {
        Ok(under_anchor(alloc, &ask.anchor, &path)?)
    }
}

/// Gives the path of the repository at which a path that is set is refused, if it names one.
fn set_path_refused_at<R: Repository>(
    alloc: Global,
    view: &R,
    name: &str,
    report: &OpenReport<Grafts>,
    link: Link<'_>,
) -> Result<Option<Path>, AllocError>
    requires { AreTrees (R.content view.now).revisions }
    ensures { IfOk result (λ path. path ≡ result_ok (set_path_place (R.content view.now) name.now
        report.now link.entry.reported.now (option_copied link.entry.url))) }
{
    match set_path_place(alloc, view, name, report, link) {
        Ok(path) => Ok(Some(path)),
        Err(NotDone::Refused(_)) => Ok(None),
        Err(NotDone::NoMemory) => Err(AllocError),
    }
}

/// Refuses a report from now on, by this refusal and at this path, if that could be made.
fn refuse(
    report: OpenReport<Grafts>,
    refusal: Refusal,
    path: Result<Option<Path>, AllocError>,
) -> Result<Report<Grafts>, AllocError>
    ensures { IfOk result (λ next. IsOkAnd path (λ p. next ≡ Report.Refused refusal p)) }
{
    drop(report);
    match path {
        Ok(path) => Ok(Report::Refused(refusal, path)),
        Err(error) => Err(error),
    }
}

/// Gives what a path that is set, or linked to a URL, makes of a report. The first refusal is kept.
pub fn set_path<R: Repository>(
    alloc: Global,
    view: &R,
    name: &str,
    report: OpenReport<Grafts>,
    link: Link<'_>,
) -> Result<Report<Grafts>, AllocError>
    requires { AreTrees (R.content view.now).revisions }
    ensures { IfOk result (λ next. next ≡ set_path_report (R.content view.now) name.now
        report link.entry.reported.now (option_copied link.entry.url)) }
{
    match set_path_graft(alloc, view, name, &report, link) {
        Ok((root, graft)) => with_graft(alloc, report, Some(root), graft),
        Err(NotDone::Refused(refusal)) => {
            let path = set_path_refused_at(alloc, view, name, &report, link);
            refuse(report, refusal, path)
        }
        Err(NotDone::NoMemory) => {
            drop(report);
            Err(AllocError)
        }
    }
}

/// Gives what a path at which nothing is makes of a report. The first refusal is kept.
pub fn delete_path(
    alloc: Global,
    report: OpenReport<Grafts>,
    text: &ByteString,
) -> Result<Report<Grafts>, AllocError>
    ensures { IfOk result (λ next. next ≡ delete_path_report report text.now) }
{
    match delete_path_graft(alloc, &report, text) {
        Ok(graft) => {
            let root = report.root;
            with_graft(alloc, report, root, graft)
        }
        Err(NotDone::Refused(refusal)) => {
            drop(report);
            Ok(Report::Refused(refusal, None))
        }
        Err(NotDone::NoMemory) => {
            drop(report);
            Err(AllocError)
        }
    }
}

/// Says whether something exists at the URL of a switch.
fn has_goal<R: Repository>(view: &R, ask: &DriveAsk) -> bool
    ensures { result ≡ has_goal (R.content view.now) ask.now ask.now.purpose }
{
    match ask.purpose {
        Purpose::Switch => is_there(view, ask.revision, &ask.goal),
        Purpose::Update | Purpose::Status | Purpose::Diff | Purpose::Summary => true,
    }
}

/// Says whether the anchor is a directory: with a target, in the repository, where that is asked for; without one, in
/// what the client has and in what it is to have.
fn has_anchor<R: Repository>(
    alloc: Global,
    view: &R,
    report: &OpenReport<Grafts>,
) -> Result<bool, AllocError>
    requires { AreTrees (R.content view.now).revisions }
    ensures { IfOk result (λ answer. answer
        ≡ has_anchor (R.content view.now) report.now.ask report.now.grafts) }
{
    let ask = &report.ask;
    let top = ask.target.as_path();
    if !top.is_root() {
        return Ok(ask.is_of_today || is_directory_there(view, ask.revision, &ask.anchor));
    }
    if !is_directory_there(view, ask.revision, &ask.goal) {
        return Ok(false);
    }
    has_directory(alloc, view, top, &report.grafts, top)
}

/// Gives the path that was reported first, where there is to be a drive, or says why there is none.
pub fn finish<R: Repository>(
    alloc: Global,
    view: &R,
    report: &OpenReport<Grafts>,
) -> Result<ReportRoot, NotDone>
    requires { AreTrees (R.content view.now).revisions }
    ensures { JudgesReport result (finish_root (R.content view.now) report.now) }
{
    let root = report.root.ok_or(NotDone::Refused(Refusal::MalformedData))?;
    judge(has_goal(view, &report.ask), Refusal::NotFound)?;
    judge(has_anchor(alloc, view, report)?, Refusal::NotFound)?;
    Ok(root)
}

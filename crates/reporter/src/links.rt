//! The links of a report, and the paths that it excludes.
ghost use Rattle.std.specs.Prelude.{◌≡◌, Some, is_some, option_copied, IfOk};
ghost use Rattle.reporter.specs.Links.{follows_links, is_excluded_at, is_excluding, is_linked, last_graft, link_at, may_lead, own_graft};

use crate::ask::{DriveAsk, Purpose};
use crate::graft::Graft;
use crate::grafts::Grafts;
use crate::report::OpenReport;
use std::alloc::{AllocError, Global};
use svnpath::Path;

/// Says whether links lead what a client is to have: a switch leads everything to its URL.
fn follows_links(purpose: Purpose) -> bool
    ensures { result ≡ follows_links purpose }
{
    match purpose {
        Purpose::Update | Purpose::Status => true,
        Purpose::Switch | Purpose::Diff | Purpose::Summary => false,
    }
}

/// Says whether a path may be led by a link, where what was reported of it counts or not.
fn may_lead(ask: &DriveAsk, counts: bool, path: &Path) -> bool
    ensures { result ≡ may_lead ask.now counts path.now }
{
    ask.is_of_today && follows_links(ask.purpose) && counts && !path.is_root()
}

/// Gives a graft, if it is a link of this very path.
fn if_link<'a>(graft: &'a Graft, path: &Path) -> Option<&'a Graft>
    ensures { option_copied result ≡ own_graft is_linked path.now (Some graft.now) }
{
    if &graft.path == path && graft.is_link {
        Some(graft)
    } else {
        None
    }
}

/// Finds the last graft at or above a path, if it is a link of this very path.
fn own_link<'a>(
    alloc: Global,
    grafts: &'a Grafts,
    path: &Path,
) -> Result<Option<&'a Graft>, AllocError>
    ensures { IfOk result (λ found. option_copied found
        ≡ own_graft is_linked path.now (last_graft path.now grafts.now)) }
{
    if !grafts.has_link() {
        return Ok(None);
    }
    let all = grafts.as_slice();
    match grafts.last_above(alloc, path, all.len())? {
        None => Ok(None),
        Some(place) => Ok(if_link(&all[place], path)),
    }
}

/// Finds the link that leads a path, if one does. What was reported of the path counts or not.
pub fn link_at<'a>(
    alloc: Global,
    report: &'a OpenReport<Grafts>,
    counts: bool,
    path: &Path,
) -> Result<Option<&'a Graft>, AllocError>
    ensures { IfOk result (λ link. option_copied link
        ≡ link_at report.now.ask report.now.grafts counts path.now) }
{
    if !may_lead(&report.ask, counts, path) {
        return Ok(None);
    }
    own_link(alloc, &report.grafts, path)
}

/// Says whether a graft excludes this very path.
fn excludes(graft: &Graft, path: &Path) -> bool
    ensures { result ≡ is_some (own_graft is_excluding path.now (Some graft.now)) }
{
    &graft.path == path && graft.is_excluded
}

/// Says whether the last graft at or above a path excludes this very path.
pub fn is_excluded_at(alloc: Global, grafts: &Grafts, path: &Path) -> Result<bool, AllocError>
    ensures { IfOk result (λ answer. answer ≡ is_excluded_at grafts.now path.now) }
{
    if !grafts.has_excluded() {
        return Ok(false);
    }
    let all = grafts.as_slice();
    match grafts.last_above(alloc, path, all.len())? {
        None => Ok(false),
        Some(place) => Ok(excludes(&all[place], path)),
    }
}

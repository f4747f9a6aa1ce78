//! What a client has, by its report.
ghost use Rattle.std.specs.Prelude.{◌≡◌, ◌≤◌, ◌+◌, [], List, Option, Some, option_copied, option_map, length, take, IfOk};
ghost use Rattle.repo_api.specs.{Kinds.kind_of, States.trees_in, declared.entry.Entry.Entry};
ghost use Rattle.svnpath.specs.Paths.{Component};
ghost use Rattle.drive_rules.specs.Scopes.{depth_below};
ghost use Rattle.reporter.specs.Places.{AllHoldTogether, part_below, reported_subtree, IsPlacedAt, IsShownBy};
ghost use Rattle.reporter.specs.Reported.{has_directory, has_place, is_surely_placed, left_by, reported, shown_by};

use crate::graft::{Graft, Subtree};
use crate::grafts::Grafts;
use crate::sources::parent_or_root;
use byte_string::ByteString;
use drive_rules::Depth;
use repo_api::{NodeKind, Repository};
use std::alloc::{AllocError, Global};
use svnpath::Path;

/// Says what a depth leaves of an entry so many names beneath the top.
fn left_kind(depth: Depth, names: usize, kind: NodeKind) -> NodeKind
    ensures { (rest : List Component) (e : Option Entry) → names ≡ length rest + 1
        → kind ≡ kind_of e → result ≡ kind_of (left_by depth rest e) }
{
    let is_left = match depth {
        Depth::Empty => false,
        Depth::Files => names == 1 && kind.is_file(),
        Depth::Immediates => names == 1,
        Depth::Infinity => true,
    };
    if is_left { kind } else { NodeKind::Absent }
}

/// Gives the kind of what a graft shows at a path.
pub(crate) fn shown_kind<R: Repository>(
    alloc: Global,
    view: &R,
    graft: &Graft,
    path: &Path,
) -> Result<NodeKind, AllocError>
    ensures { IfOk result (λ kind. kind ≡ kind_of (option_map (λ h. h.entry)
        (shown_by (trees_in (R.content view.now).revisions) path.now (Some graft.now)))) }
{
    let Some(subtree) = &graft.subtree else {
        return Ok(NodeKind::Absent);
    };
    if !path.is_at_or_under(&graft.path) {
        return Ok(NodeKind::Absent);
    }
    let names = path.len() - graft.path.len();
    if names == 0 {
        let from = path.rebased(alloc, &graft.path, &graft.from)?;
        return Ok(view.kind(subtree.revision, &from));
    }
    if subtree.starts_empty {
        return Ok(NodeKind::Absent);
    }
    let from = path.rebased(alloc, &graft.path, &graft.from)?;
    let kind = view.kind(subtree.revision, &from);
    Ok(left_kind(subtree.depth, names, kind))
}

/// Says whether a graft shows a directory at a path.
fn shows_directory<R: Repository>(
    alloc: Global,
    view: &R,
    graft: Option<&Graft>,
    path: &Path,
) -> Result<bool, AllocError>
    ensures { IfOk result (λ answer. answer ≡ has_directory (shown_by
        (trees_in (R.content view.now).revisions) path.now (option_copied graft.entry))) }
{
    match graft {
        None => Ok(false),
        Some(graft) => Ok(shown_kind(alloc, view, graft, path)?.is_directory()),
    }
}

/// Says whether a graft has its place whatever exists there. The top is the target.
fn is_surely_placed(top: &Path, graft: &Graft) -> bool
    ensures { result ≡ is_surely_placed top.now graft.now }
{
    &graft.path == top || (graft.subtree.is_none() && graft.path.is_at_or_under(top))
}

/// The first so many grafts of a report.
#[derive(Clone, Copy)]
struct FirstGrafts<'a> {
    grafts: &'a Grafts,
    count: usize,
}

/// Finds the last of so many grafts that says what the client has at a path, if one does. The top is the target.
fn graft_among<'a, R: Repository>(
    alloc: Global,
    view: &R,
    top: &Path,
    first: FirstGrafts<'a>,
    path: &Path,
) -> Result<Option<&'a Graft>, AllocError>
    requires trees { AllHoldTogether (R.content view.now).revisions }
    requires count { first.count ≤ length first.grafts.now }
    ensures { IfOk result (λ found. IsShownBy (R.content view.now) top.now
        (take first.entry.count first.entry.grafts.now) first.entry.grafts.now path.now
        (option_copied found)) }
{
    let FirstGrafts { grafts, mut count } = first;
    while let Some(place) = grafts.last_above(alloc, path, count)? {
        let graft = &grafts.as_slice()[place];
        if is_surely_placed(top, graft) {
            return Ok(Some(graft));
        }
        let above = parent_or_root(alloc, &graft.path)?;
        let before = FirstGrafts {
            grafts,
            count: place,
        };
        let holder = graft_among(alloc, view, top, before, &above)?;
        if shows_directory(alloc, view, holder, &above)? {
            return Ok(Some(graft));
        }
        count = place;
    }
    Ok(None)
}

/// Finds the last graft that says what the client has at a path, if one does. The top is the target.
fn graft_at<'a, R: Repository>(
    alloc: Global,
    view: &R,
    top: &Path,
    grafts: &'a Grafts,
    path: &Path,
) -> Result<Option<&'a Graft>, AllocError>
    requires { AllHoldTogether (R.content view.now).revisions }
    ensures { IfOk result (λ found. IsShownBy (R.content view.now) top.now grafts.now grafts.now
        path.now (option_copied found)) }
{
    let count = grafts.as_slice().len();
    graft_among(alloc, view, top, FirstGrafts { grafts, count }, path)
}

/// What a client has at a path: what stands at a path of a revision, of this kind, its top alone where
/// it starts empty, so deep, with the token of the lock of its top.
#[derive(Drop)]
pub struct ReportedPlace {
    pub revision: u64,
    pub path: Path,
    pub kind: NodeKind,
    pub starts_empty: bool,
    pub depth: Depth,
    pub token: Option<ByteString>,
}

/// Gives the depth of what is in a directory of a depth.
pub fn depth_below(depth: Depth) -> Depth
    ensures { result ≡ depth_below depth }
{
    match depth {
        Depth::Infinity => Depth::Infinity,
        Depth::Immediates | Depth::Files | Depth::Empty => Depth::Empty,
    }
}

/// Gives what of a subtree is so many names beneath its top, at this path of its revision and of this kind.
fn place_in(
    subtree: &Subtree,
    names: usize,
    path: Path,
    kind: NodeKind,
) -> Result<ReportedPlace, AllocError>
    ensures path { IfOk result (λ place. place.path ≡ path) }
    ensures kind { IfOk result (λ place. place.kind ≡ kind) }
    ensures part { IfOk result (λ place. (rest : List Component) → names ≡ length rest
        → reported_subtree place.revision place.starts_empty place.depth place.token
        ≡ part_below subtree.now rest) }
{
    if names == 0 {
        let token = subtree.token.clone()?;
        Ok(ReportedPlace {
            revision: subtree.revision,
            path,
            kind,
            starts_empty: subtree.starts_empty,
            depth: subtree.depth,
            token,
        })
    } else {
        Ok(ReportedPlace {
            revision: subtree.revision,
            path,
            kind,
            starts_empty: false,
            depth: depth_below(subtree.depth),
            token: None,
        })
    }
}

/// Says where what a graft shows at a path comes from, if it shows something.
fn shown_at<R: Repository>(
    alloc: Global,
    view: &R,
    graft: &Graft,
    path: &Path,
) -> Result<Option<ReportedPlace>, AllocError>
    ensures { IfOk result (IsPlacedAt (R.content view.now)
        (λ q. shown_by (trees_in (R.content view.now).revisions) q (Some graft.now)) [] path.now) }
{
    let Some(subtree) = &graft.subtree else {
        return Ok(None);
    };
    let kind = shown_kind(alloc, view, graft, path)?;
    if !kind.is_present() {
        return Ok(None);
    }
    let names = path.len() - graft.path.len();
    let from = path.rebased(alloc, &graft.path, &graft.from)?;
    let place = place_in(subtree, names, from, kind)?;
    Ok(Some(place))
}

/// Finds what a client has at a path, if it has something. The top is the target.
pub fn reported_at<R: Repository>(
    alloc: Global,
    view: &R,
    top: &Path,
    grafts: &Grafts,
    path: &Path,
) -> Result<Option<ReportedPlace>, AllocError>
    requires { AllHoldTogether (R.content view.now).revisions }
    ensures { IfOk result (IsPlacedAt (R.content view.now)
        (reported (trees_in (R.content view.now).revisions) top.now grafts.now) grafts.now path.now) }
{
    match graft_at(alloc, view, top, grafts, path)? {
        None => Ok(None),
        Some(graft) => shown_at(alloc, view, graft, path),
    }
}

/// Says whether a path has its place at the top of a report, or in a directory that is there.
pub(crate) fn has_place<R: Repository>(
    alloc: Global,
    view: &R,
    top: &Path,
    grafts: &Grafts,
    path: &Path,
) -> Result<bool, AllocError>
    requires { AllHoldTogether (R.content view.now).revisions }
    ensures { IfOk result (λ answer. answer ≡ has_place top.now
        (reported (trees_in (R.content view.now).revisions) top.now grafts.now) path.now) }
{
    if path == top {
        return Ok(true);
    }
    let above = parent_or_root(alloc, path)?;
    let holder = graft_at(alloc, view, top, grafts, &above)?;
    shows_directory(alloc, view, holder, &above)
}

/// Says whether a client has a directory at a path.
pub(crate) fn has_directory<R: Repository>(
    alloc: Global,
    view: &R,
    top: &Path,
    grafts: &Grafts,
    path: &Path,
) -> Result<bool, AllocError>
    requires { AllHoldTogether (R.content view.now).revisions }
    ensures { IfOk result (λ answer. answer ≡ has_directory
        (reported (trees_in (R.content view.now).revisions) top.now grafts.now path.now)) }
{
    let holder = graft_at(alloc, view, top, grafts, path)?;
    shows_directory(alloc, view, holder, path)
}

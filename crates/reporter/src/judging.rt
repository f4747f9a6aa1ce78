//! The rules by which a command of a report is refused, each by itself.
ghost use Rattle.std.specs.Prelude.{◌≡◌, is_some, option_copied};
ghost use Rattle.repo_api.specs.{States.trees_in, Trees.is_directory_there};
ghost use Rattle.svnpath.specs.Texts.{joined};
ghost use Rattle.reporter.specs.{Depths.{graft_depth, depth_asked, is_exclude, shallow}, Judging.{JudgesReport, JudgesAnd}};
ghost use Rattle.reporter.specs.{Refusing.{ok_if, or_refusal, url_or, revision_read}, Named.IsNamedBeneath};

use crate::ask::{DepthAsked, Purpose};
use byte_string::ByteString;
use drive_rules::Depth;
use refusals::{NotDone, Refusal};
use repo_api::Repository;
use std::alloc::Global;
use std::mem::drop;
use svnpath::Path;
use wire_reports::DepthWord;

/// Refuses so what does not hold.
pub(crate) fn judge(holds: bool, refusal: Refusal) -> Result<(), NotDone>
    ensures { JudgesReport result (ok_if holds refusal) }
{
    if holds {
        Ok(())
    } else {
        Err(NotDone::Refused(refusal))
    }
}

/// Finds the path that a text names beneath another.
pub(crate) fn path_named(alloc: Global, base: &Path, text: &ByteString) -> Result<Path, NotDone>
    ensures { JudgesAnd (IsNamedBeneath base.now) result (or_refusal (joined base.now text.now)) }
{
    Ok(base.join(alloc, text.as_slice())?)
}

/// Gives the path of a URL, or another path where there is no URL.
pub(crate) fn url_or(
    alloc: Global,
    name: &str,
    own: Path,
    url: Option<&ByteString>,
) -> Result<Path, NotDone>
    ensures { JudgesReport result (url_or name.now own (option_copied url.entry)) }
{
    match url {
        None => Ok(own),
        Some(url) => {
            drop(own);
            Ok(Path::from_url(alloc, url.as_slice(), name)?)
        }
    }
}

/// Gives the revision that is named, or the youngest; one above it is refused.
pub(crate) fn revision_read<R: Repository>(view: &R, revision: Option<u64>) -> Result<u64, NotDone>
    ensures { JudgesReport result (revision_read (R.content view.now) revision) }
{
    let youngest = view.youngest();
    match revision {
        None => Ok(youngest),
        Some(n) => {
            if youngest < n {
                Err(NotDone::Refused(Refusal::NoSuchRevision))
            } else {
                Ok(n)
            }
        }
    }
}

/// Says whether a word excludes what exists somewhere.
pub(crate) fn is_exclude(word: Option<DepthWord>) -> bool
    ensures { result ≡ is_exclude word }
{
    match word {
        Some(DepthWord::Exclude) => true,
        Some(DepthWord::Known(_) | DepthWord::Unknown) | None => false,
    }
}

/// Says how much of what exists somewhere is reported: everything, where no depth is named, and its top alone, where it
/// is excluded and may be.
pub(crate) fn graft_depth(may_exclude: bool, word: Option<DepthWord>) -> Result<Depth, NotDone>
    ensures { JudgesReport result (graft_depth may_exclude word) }
{
    match word {
        None => Ok(Depth::Infinity),
        Some(DepthWord::Known(depth)) => Ok(depth),
        Some(DepthWord::Exclude) if may_exclude => Ok(Depth::Empty),
        Some(DepthWord::Unknown | DepthWord::Exclude) => {
            Err(NotDone::Refused(Refusal::NotSupported))
        }
    }
}

/// Gives the depth of what is asked for without what is beneath directories.
fn shallow(purpose: Purpose) -> Depth
    ensures { result ≡ shallow purpose }
{
    match purpose {
        Purpose::Update | Purpose::Switch | Purpose::Diff | Purpose::Summary => Depth::Files,
        Purpose::Status => Depth::Empty,
    }
}

/// Says how deep a drive is to go: by its word, or else by whether it is asked for what is beneath directories too.
pub(crate) fn depth_asked(
    purpose: Purpose,
    recurse: bool,
    word: Option<DepthWord>,
) -> Result<DepthAsked, NotDone>
    ensures { JudgesReport result (depth_asked purpose recurse word) }
{
    match word {
        Some(DepthWord::Known(depth)) => Ok(DepthAsked::Given(depth)),
        Some(DepthWord::Unknown) => Ok(DepthAsked::AsReported),
        Some(DepthWord::Exclude) => Err(NotDone::Refused(Refusal::NotSupported)),
        None if recurse => Ok(DepthAsked::Given(Depth::Infinity)),
        None => Ok(DepthAsked::Given(shallow(purpose))),
    }
}

/// Says whether something exists at a path of a revision.
pub(crate) fn is_there<R: Repository>(view: &R, revision: u64, path: &Path) -> bool
    ensures { result ≡ is_some (trees_in (R.content view.now).revisions revision path.now) }
{
    view.kind(revision, path).is_present()
}

/// Says whether a directory exists at a path of a revision.
pub(crate) fn is_directory_there<R: Repository>(view: &R, revision: u64, path: &Path) -> bool
    ensures { result
        ≡ is_directory_there (trees_in (R.content view.now).revisions revision path.now) }
{
    view.kind(revision, path).is_directory()
}

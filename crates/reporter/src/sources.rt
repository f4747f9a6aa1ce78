//! Which paths of the repository the paths of a report stand for.
ghost use Rattle.std.specs.Prelude.{◌≡◌, ◌++◌, IfOk};
ghost use Rattle.reporter.specs.{Named.IsNamed, Refusing.report_path, Reported.{path_above, origin, own_source}, Judging.JudgesAnd};

use crate::ask::DriveAsk;
use crate::grafts::Grafts;
use crate::judging::path_named;
use byte_string::ByteString;
use refusals::NotDone;
use std::alloc::{AllocError, Global};
use svnpath::Path;

/// Gives a path of a report as a path of the repository: beneath the anchor.
pub(crate) fn under_anchor(alloc: Global, anchor: &Path, path: &Path) -> Result<Path, AllocError>
    ensures { IfOk result (λ p. p ≡ anchor.now ++ path.now) }
{
    path.rebased(alloc, &Path::root(alloc), anchor)
}

/// Finds the path that a text names beneath the target, from the anchor on.
pub(crate) fn report_path(alloc: Global, ask: &DriveAsk, text: &ByteString) -> Result<Path, NotDone>
    ensures { JudgesAnd IsNamed result (report_path ask.now text.now) }
{
    let own = under_anchor(alloc, &ask.anchor, ask.target.as_path())?;
    let path = path_named(alloc, &own, text)?;
    Ok(path.rebased(alloc, &ask.anchor, &Path::root(alloc))?)
}

/// Gives the path above; of the root the root.
pub(crate) fn parent_or_root(alloc: Global, path: &Path) -> Result<Path, AllocError>
    ensures { IfOk result (λ p. p ≡ path_above path.now) }
{
    match path.parent(alloc)? {
        Some(parent) => Ok(parent),
        None => Ok(Path::root(alloc)),
    }
}

/// Says what a path stands for: by the last graft at or above it, or else by the anchor.
fn origin(alloc: Global, anchor: &Path, grafts: &Grafts, path: &Path) -> Result<Path, AllocError>
    ensures { IfOk result (λ p. p ≡ origin anchor.now grafts.now path.now) }
{
    let all = grafts.as_slice();
    match grafts.last_above(alloc, path, all.len())? {
        None => under_anchor(alloc, anchor, path),
        Some(place) => {
            let graft = &all[place];
            path.rebased(alloc, &graft.path, &graft.from)
        }
    }
}

/// Says what a path that is set stands for from then on.
pub(crate) fn own_source(
    alloc: Global,
    ask: &DriveAsk,
    grafts: &Grafts,
    path: &Path,
) -> Result<Path, AllocError>
    ensures { IfOk result (λ p. p ≡ own_source ask.now.anchor ask.now.target grafts.now path.now) }
{
    if path == ask.target.as_path() {
        return under_anchor(alloc, &ask.anchor, ask.target.as_path());
    }
    let above = parent_or_root(alloc, path)?;
    let from = origin(alloc, &ask.anchor, grafts, &above)?;
    path.rebased(alloc, &above, &from)
}

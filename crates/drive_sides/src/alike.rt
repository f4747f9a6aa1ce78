//! What a client has whole, and what it has alone.
ghost use Rattle.std.specs.Prelude.{◌≡◌, true, None, IfOk};
ghost use Rattle.repo_api.specs.Readings.{IsSameAt};
ghost use Rattle.drive_sides.specs.{Depths.{IsAlone, IsWhole}, Lines.IsAllKept};

use crate::lines::keeps_lines;
use crate::two_trees::TwoTrees;
use drive_news::Place;
use drive_rules::Depth;
use repo_api::Repository;
use reporter::ReportedPlace;
use std::alloc::{AllocError, Global};
use svnpath::Path;

/// Says whether a client has all that exists at a place and beneath it.
pub(crate) fn is_whole(place: &ReportedPlace) -> bool
    ensures { result ≡ true → IsWhole place.now }
{
    if place.starts_empty {
        return false;
    }
    match place.depth {
        Depth::Infinity => true,
        Depth::Immediates => false,
        Depth::Files => false,
        Depth::Empty => false,
    }
}

/// Says whether a client has nothing of what exists beneath a place.
pub(crate) fn is_alone(place: &ReportedPlace) -> bool
    ensures { result ≡ true → IsAlone place.now }
{
    if place.starts_empty {
        return true;
    }
    match place.depth {
        Depth::Empty => true,
        Depth::Files => false,
        Depth::Immediates => false,
        Depth::Infinity => false,
    }
}

/// Says whether a client has, with no token, all of what is, as the repository can tell, the same as at a path of a
/// revision and beneath it.
fn has_same<R: Repository>(view: &R, place: &ReportedPlace, revision: u64, path: &Path) -> bool
    ensures { result ≡ true → IsWhole place.now × (place.now.token ≡ None)
        × IsSameAt (R.content view.now) place.now.revision place.now.path revision path.now }
{
    is_whole(place)
        && place.token.is_none()
        && view.is_same(place.revision, &place.path, revision, path)
}

impl<'a, R: Repository> TwoTrees<'a, R> {
    /// Says whether a client has all of what is the same as at a goal and beneath it, with no token, and keeps it as far as
    /// lines of history go.
    pub(crate) fn is_all_kept(
        &self,
        alloc: Global,
        place: &ReportedPlace,
        goal: &Path,
    ) -> Result<bool, AllocError>
        ensures { IfOk result (λ all. all ≡ true → IsAllKept (R.content self.now.view.now)
            self.now.report.now.ask place.now goal.now) }
    {
        let ask = &self.report.ask;
        if !has_same(self.view, place, ask.revision, goal) {
            return Ok(false);
        }
        let older = Place {
            revision: place.revision,
            path: &place.path,
        };
        let newer = Place {
            revision: ask.revision,
            path: goal,
        };
        keeps_lines(alloc, self.view, ask, older, newer)
    }
}

//! What of a directory is found to be unlike on both sides by the directory as a whole.
ghost use Rattle.std.specs.Prelude.{◌≡◌, true, IfOk, OnOk};
ghost use Rattle.svnpath.specs.Paths.{Component};
ghost use Rattle.repo_api.specs.Readings.{is_name_among};
ghost use Rattle.drive_visits.specs.Knowing.{IsKnown};
ghost use Rattle.drive_sides.specs.{Known.IsKnownOf, OnTrees.on_trees, Plans.drive_trees, Unlike.{AreUnlikeBy, HoldUnlike}};

use crate::known::DrivePlace;
use crate::lines::keeps_lines_beside;
use crate::names::{children_of, put_all, put_names_beneath};
use crate::pairs::EntryPair;
use crate::two_trees::TwoTrees;
use byte_string::ByteString;
use repo_api::Repository;
use reporter::DriveAsk;
use std::alloc::{AllocError, Global};
use std::collections::BTreeSet;
use svnpath::Path;

/// Puts names among others so that among all are those by which the two directories of a pair are unlike. `false` where the
/// repository cannot tell, or lines of history do not let all else stay.
fn put_unlike<R: Repository>(
    alloc: Global,
    view: &R,
    ask: &DriveAsk,
    pair: EntryPair<'_>,
    names: &mut BTreeSet<ByteString>,
) -> Result<bool, AllocError>
    ensures unlike { IfOk result (λ told. told ≡ true
        → AreUnlikeBy names.new.keys (R.content view.now) ask.now pair.entry) }
    ensures keeps { OnOk result ((x : Component) → is_name_among names.old.keys x ≡ true
        → is_name_among names.new.keys x ≡ true) }
{
    let Some(found) = view.differing_names(pair.revision, pair.old, ask.revision, pair.new)? else {
        return Ok(false);
    };
    put_all(&found, names)?;
    keeps_lines_beside(alloc, view, ask, names, pair)
}

impl<'a, R: Repository> TwoTrees<'a, R> {
    /// Makes paths of a directory among which are all that are unlike on both sides: where it has a pair, those of the names
    /// by which that is unlike, and of grafts beneath it; and else all that either side has.
    pub(crate) fn paths_holding_unlike(
        &self,
        alloc: Global,
        place: &DrivePlace,
    ) -> Result<Vec<Path>, AllocError>
        requires { IsKnown (on_trees self.now IsKnownOf) place.now }
        ensures { IfOk result (λ v. HoldUnlike (on_trees self.now drive_trees) place.now.path v.items) }
    {
        let Some(pair) = self.pair_beside(place) else {
            return self.child_paths(alloc, place);
        };
        let mut names = BTreeSet::new(alloc);
        put_names_beneath(self.report.grafts.as_slice(), &place.path, &mut names)?;
        if !put_unlike(alloc, self.view, &self.report.ask, pair, &mut names)? {
            return self.child_paths(alloc, place);
        }
        children_of(alloc, &place.path, names)
    }
}

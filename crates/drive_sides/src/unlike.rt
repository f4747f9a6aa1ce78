//! What of a directory is not surely alike on both sides.
ghost use Rattle.std.specs.Prelude.{◌≡◌, true, All, IfNone, IfOk, IfSome};
ghost use Rattle.drive_visits.specs.{Knowing.{AreKnown, IsKnown, IsKnownAt, paths_of}, Walks.{AreAlike, IsChild, LeavesUnlike}};
ghost use Rattle.drive_sides.specs.{Known.IsKnownOf, OnTrees.on_trees, Pairs.IsPairAt, Plans.drive_trees};

use crate::known::DrivePlace;
use crate::lines::keeps_lines;
use crate::pairs::EntryPair;
use crate::two_trees::TwoTrees;
use drive_news::Place;
use repo_api::Repository;
use std::alloc::{AllocError, Global};
use std::collections::VecDeque;
use svnpath::Path;

impl<'a, R: Repository> TwoTrees<'a, R> {
    /// Says whether all is the same at a path and under it, with nothing due or apart. A `false` answer is always right.
    fn is_alike(&self, alloc: Global, place: &DrivePlace) -> Result<bool, AllocError>
        requires { IsKnown (on_trees self.now IsKnownOf) place.now }
        ensures { IfOk result (λ alike. alike ≡ true
            → AreAlike (on_trees self.now drive_trees) place.now.path) }
    {
        if !place.known.stays {
            return Ok(false);
        }
        if self.report.grafts.has_beneath(&place.path) {
            return Ok(false);
        }
        match &place.known.had {
            None => Ok(false),
            Some(had) => self.is_all_kept(alloc, had, &place.known.goal),
        }
    }

    /// Says the same of a path in a directory of which this is the pair.
    fn is_alike_in(
        &self,
        alloc: Global,
        place: &DrivePlace,
        pair: EntryPair<'_>,
        path: &Path,
    ) -> Result<bool, AllocError>
        requires known { IsKnown (on_trees self.now IsKnownOf) place.now }
        requires pair { on_trees self.now IsPairAt place.now.path pair }
        requires child { IsChild place.now.path path.now }
        ensures { IfOk result (λ alike. alike ≡ true
            → AreAlike (on_trees self.now drive_trees) path.now) }
    {
        let ask = &self.report.ask;
        let old = path.rebased(alloc, &place.path, pair.old)?;
        let new = path.rebased(alloc, &place.path, pair.new)?;
        if !self.view.is_same(pair.revision, &old, ask.revision, &new) {
            return Ok(false);
        }
        let older = Place {
            revision: pair.revision,
            path: &old,
        };
        let newer = Place {
            revision: ask.revision,
            path: &new,
        };
        keeps_lines(alloc, self.view, ask, older, newer)
    }

    /// Finds what is known of a path in a directory, unless all is alike there and under it, by itself.
    fn unlike_place(
        &self,
        alloc: Global,
        place: &DrivePlace,
        path: Path,
    ) -> Result<Option<DrivePlace>, AllocError>
        requires known { IsKnown (on_trees self.now IsKnownOf) place.now }
        requires child { IsChild place.now.path path }
        ensures place { IfOk result (λ found. IfSome found (IsKnownAt (on_trees self.now IsKnownOf) path)) }
        ensures alike { IfOk result (λ found. IfNone found (AreAlike (on_trees self.now drive_trees) path)) }
    {
        let child = self.child_place(alloc, place, path)?;
        if self.is_alike(alloc, &child)? {
            return Ok(None);
        }
        Ok(Some(child))
    }

    /// Finds what is known of a path in a directory, unless all is alike there and under it. Where the directory has a pair,
    /// what is alike is found out by that alone.
    fn unlike_in(
        &self,
        alloc: Global,
        place: &DrivePlace,
        pair: Option<EntryPair<'_>>,
        path: Path,
    ) -> Result<Option<DrivePlace>, AllocError>
        requires known { IsKnown (on_trees self.now IsKnownOf) place.now }
        requires pair { IfSome pair (on_trees self.now IsPairAt place.now.path) }
        requires child { IsChild place.now.path path }
        ensures place { IfOk result (λ found. IfSome found (IsKnownAt (on_trees self.now IsKnownOf) path)) }
        ensures alike { IfOk result (λ found. IfNone found (AreAlike (on_trees self.now drive_trees) path)) }
    {
        let Some(pair) = pair else {
            return self.unlike_place(alloc, place, path);
        };
        if self.is_alike_in(alloc, place, pair, &path)? {
            return Ok(None);
        }
        let child = self.child_place(alloc, place, path)?;
        Ok(Some(child))
    }

    /// Finds what is known of those of these paths in a directory at and under which not all is surely alike.
    pub(crate) fn unlike_places(
        &self,
        alloc: Global,
        place: &DrivePlace,
        paths: Vec<Path>,
    ) -> Result<Vec<DrivePlace>, AllocError>
        requires known { IsKnown (on_trees self.now IsKnownOf) place.now }
        requires children { All (IsChild place.now.path) paths.items }
        ensures unlike { IfOk result (λ v. LeavesUnlike (on_trees self.now drive_trees) paths.items (paths_of v.items)) }
        ensures known { IfOk result (λ v. AreKnown (on_trees self.now IsKnownOf) v.items) }
    {
        let pair = self.pair_at(place);
        let mut places = Vec::new(alloc);
        let mut left = VecDeque::from_vec(paths);
        while let Some(path) = left.pop_front() {
            if let Some(child) = self.unlike_in(alloc, place, pair, path)? {
                places.push(child)?;
            }
        }
        Ok(places)
    }
}

//! What stands on either side, whether the drive is of it or not.
ghost use Rattle.std.specs.Prelude.{◌≡◌, IfOk};
ghost use Rattle.repo_api.specs.Kinds.{kind_of};
ghost use Rattle.reporter.specs.{Targets.{client_tree, client_entries, target_entries}, Places.IsPlacedAt};
ghost use Rattle.drive_visits.specs.Knowing.{IsKnown};
ghost use Rattle.drive_sides.specs.{Known.IsKnownOf, OnTrees.on_trees};

use crate::known::DrivePlace;
use crate::two_trees::TwoTrees;
use drive_news::{Had, Place};
use repo_api::{NodeKind, Repository};
use reporter::{ReportedPlace, reported_at};
use std::alloc::{AllocError, Global};
use svnpath::Path;

/// Gives what a client has at a place.
pub(crate) fn had_at<'a>(place: &'a ReportedPlace) -> Had<'a>
    ensures { (result.place.revision ≡ place.now.revision) × (result.place.path.now ≡ place.now.path)
        × (result.starts_empty ≡ place.now.starts_empty) }
{
    Had {
        place: Place {
            revision: place.revision,
            path: &place.path,
        },
        starts_empty: place.starts_empty,
    }
}

impl<'a, R: Repository> TwoTrees<'a, R> {
    /// Finds where what the client has at a path comes from, if it has something.
    pub(crate) fn client_place(
        &self,
        alloc: Global,
        path: &Path,
    ) -> Result<Option<ReportedPlace>, AllocError>
        ensures { IfOk result (IsPlacedAt (R.content self.now.view.now)
            (on_trees self.now client_tree) self.now.report.now.grafts path.now) }
    {
        let report = self.report;
        reported_at(
            alloc,
            self.view,
            report.ask.target.as_path(),
            &report.grafts,
            path,
        )
    }

    /// Gives the kind of what the client has at a path.
    pub(crate) fn kind_had(&self, place: &DrivePlace) -> NodeKind
        requires { IsKnown (on_trees self.now IsKnownOf) place.now }
        ensures { result ≡ kind_of (on_trees self.now client_entries place.now.path) }
    {
        self.kind_at(&place.path, &place.known.had)
    }

    /// Gives the kind of what is to exist at a path.
    pub(crate) fn kind_to_be(&self, place: &DrivePlace) -> NodeKind
        requires { IsKnown (on_trees self.now IsKnownOf) place.now }
        ensures { result ≡ kind_of (on_trees self.now target_entries place.now.path) }
    {
        place.known.kind
    }
}

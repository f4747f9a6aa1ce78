//! What is known of the paths of a drive.
ghost use Rattle.std.specs.Prelude.{◌≡◌, IfOk};
ghost use Rattle.drive_visits.specs.{Knowing.{IsKnown, IsKnownAt}, Walks.IsChild};
ghost use Rattle.drive_sides.specs.{Known.{holder_at, IsKnownOf}, OnTrees.on_trees};

use crate::leading::Holder;
use crate::two_trees::TwoTrees;
use drive_visits::{KnownPath, KnownVisit, Visitor};
use repo_api::{NodeKind, Repository};
use reporter::ReportedPlace;
use std::alloc::{AllocError, Global};
use svnpath::Path;

/// What is known of a path at or under the target of a drive: the path of the repository that it is to stand for, and the
/// kind of what is to exist there; where what the client has there comes from, if it has something; and whether that stays.
pub struct DriveKnown {
    pub(crate) goal: Path,
    pub(crate) kind: NodeKind,
    pub(crate) had: Option<ReportedPlace>,
    pub(crate) stays: bool,
}

impl Drop for DriveKnown {
    fn drop(self) {
        let DriveKnown {
            goal: _,
            kind: _,
            had: _,
            stays: _,
        } = self;
    }
}

/// A path of a drive, with what is known of it.
pub type DrivePlace = KnownPath<DriveKnown>;

/// A visit of a drive, with what is known of the path of an entry that it enters.
pub type DriveVisit = KnownVisit<DriveKnown>;

/// The visits of a drive, made as they are asked for.
pub type DriveVisitor = Visitor<DriveKnown>;

/// Copies what a client has at a place.
fn place_copied(place: &ReportedPlace) -> Result<ReportedPlace, AllocError>
    ensures { IfOk result (λ copy. copy ≡ place.now) }
{
    let path = place.path.clone()?;
    let token = place.token.clone()?;
    Ok(ReportedPlace {
        revision: place.revision,
        path,
        kind: place.kind,
        starts_empty: place.starts_empty,
        depth: place.depth,
        token,
    })
}

/// Copies what a client has at a path.
fn had_copied(had: &Option<ReportedPlace>) -> Result<Option<ReportedPlace>, AllocError>
    ensures { IfOk result (λ copy. copy ≡ had.now) }
{
    match had {
        None => Ok(None),
        Some(place) => Ok(Some(place_copied(place)?)),
    }
}

/// Copies a path of a drive, with what is known of it.
pub(crate) fn drive_place_copied(place: &DrivePlace) -> Result<DrivePlace, AllocError>
    ensures { IfOk result (λ copy. copy ≡ place.now) }
{
    let path = place.path.clone()?;
    let goal = place.known.goal.clone()?;
    let had = had_copied(&place.known.had)?;
    Ok(KnownPath {
        path,
        known: DriveKnown {
            goal,
            kind: place.known.kind,
            had,
            stays: place.known.stays,
        },
    })
}

impl<'a, R: Repository> TwoTrees<'a, R> {
    /// Finds what is known of the target.
    pub(crate) fn top_place(&self, alloc: Global) -> Result<DrivePlace, AllocError>
        ensures { IfOk result
            (IsKnownAt (on_trees self.now IsKnownOf) self.now.report.now.ask.target) }
    {
        let path = self.report.ask.target.as_path().clone()?;
        let own = self.report.ask.goal.clone()?;
        let all = Holder {
            counts: true,
            may_stand: true,
        };
        self.place_from(alloc, path, own, all)
    }

    /// Says what the directory at a path says of what is in it. To every other client all counts, and all may exist.
    pub(crate) fn holder_at(&self, place: &DrivePlace) -> Holder
        requires { IsKnown (on_trees self.now IsKnownOf) place.now }
        ensures { result ≡ on_trees self.now holder_at place.now.path }
    {
        if self.report.ask.is_of_today {
            Holder {
                counts: place.known.stays,
                may_stand: place.known.kind.is_directory(),
            }
        } else {
            Holder {
                counts: true,
                may_stand: true,
            }
        }
    }

    /// Finds what is known of a path in a directory of a path of which this is known.
    pub(crate) fn child_place(
        &self,
        alloc: Global,
        place: &DrivePlace,
        path: Path,
    ) -> Result<DrivePlace, AllocError>
        requires known { IsKnown (on_trees self.now IsKnownOf) place.now }
        requires child { IsChild place.now.path path }
        ensures { IfOk result (IsKnownAt (on_trees self.now IsKnownOf) path) }
    {
        let own = path.rebased(alloc, &place.path, &place.known.goal)?;
        self.place_from(alloc, path, own, self.holder_at(place))
    }
}

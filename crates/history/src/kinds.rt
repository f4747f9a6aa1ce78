//! The kinds that a log shows.
ghost use Rattle.std.specs.Prelude.{◌≡◌, IfOk};
ghost use Rattle.history.specs.Locations.{kind_shown, kind_before, kind_in_place};

use repo_api::{Action, Change, NodeKind, Repository};
use std::alloc::{AllocError, Global};
use svnpath::Path;
use traces::{Place, place_before};

/// Gives the kind that a log shows for a change: of what is there now, or of what was deleted, at its place before.
pub fn kind_shown<R: Repository>(
    alloc: Global,
    repository: &R,
    revision: u64,
    path: &Path,
    change: &Change,
) -> Result<NodeKind, AllocError>
    ensures { IfOk result (λ kind. kind ≡ kind_shown (R.content repository.now) revision
        (path.now, change.now)) }
{
    match change.action {
        Action::Add => Ok(repository.kind(revision, path)),
        Action::Delete => kind_before(alloc, repository, revision, path),
        Action::Replace => Ok(repository.kind(revision, path)),
        Action::Modify => Ok(repository.kind(revision, path)),
    }
}

/// Gives the kind of what was at the path's place before the revision.
fn kind_before<R: Repository>(
    alloc: Global,
    repository: &R,
    revision: u64,
    path: &Path,
) -> Result<NodeKind, AllocError>
    ensures { IfOk result (λ kind. kind ≡ kind_before (R.content repository.now) revision
        path.now) }
{
    let at = Place {
        path: path.clone()?,
        revision,
    };
    let before = place_before(alloc, repository.changes(revision), &at)?;
    Ok(kind_in_place(repository, &before))
}

/// Gives the kind of what is at the place in its revision, and `Absent` where there is no place.
fn kind_in_place<R: Repository>(repository: &R, place: &Option<Place>) -> NodeKind
    ensures { result ≡ kind_in_place (R.content repository.now) place.now }
{
    match place {
        None => NodeKind::Absent,
        Some(place) => repository.kind(place.revision, &place.path),
    }
}

//! The merge information of an entry.
ghost use Rattle.std.specs.Prelude.{◌≡◌, ◌≤◌, drop, length, IfOk, List, Some};
ghost use Rattle.repo_api.specs.States.{tree_at};
ghost use Rattle.mergeinfo.specs.Sources.{inherited, IsNormalFormOf, SourceValue};
ghost use Rattle.merge_queries.specs.Queries.{handed_down, IsToldOf, sources_at, sources_for, sources_from, told_for};

use crate::inheritance::Inheritance;
use crate::nearest::{nearest, value_at};
use mergeinfo::{MergeInfo, normal_forms_are_one};
use repo_api::Repository;
use std::alloc::{AllocError, Global};
use svnpath::Path;

/// Reads the merge information that the entry at a path has itself.
fn own<R: Repository>(
    alloc: Global,
    repository: &R,
    revision: u64,
    path: &Path,
) -> Result<Option<MergeInfo>, AllocError>
    ensures { IfOk result (IsToldOf
        (sources_at (tree_at (R.content repository.now) revision) path.now)) }
{
    match value_at(repository, revision, path) {
        Some(value) => MergeInfo::read(alloc, value.as_slice()),
        None => Ok(None),
    }
}

/// Makes what a path inherits of the merge information of a path above it.
fn inherited_from(
    alloc: Global,
    info: &MergeInfo,
    above: &Path,
    path: &Path,
) -> Result<MergeInfo, AllocError>
    requires { length above.now ≤ length path.now }
    ensures { (sources : List SourceValue) → IsNormalFormOf sources info.now
        → IfOk result (IsNormalFormOf (inherited (drop (length above.now) path.now) sources)) }
{
    let rest = path.rebased(alloc, above, &Path::root(alloc))?;
    Ok(info.inherited(alloc, &rest)?)
}

/// Makes what a path has of the merge information of a path at or above it.
fn handed_down(
    alloc: Global,
    info: MergeInfo,
    above: &Path,
    path: &Path,
) -> Result<MergeInfo, AllocError>
    requires { length above.now ≤ length path.now }
    ensures { (sources : List SourceValue) → IsNormalFormOf sources info
        → IfOk result (IsNormalFormOf (handed_down above.now path.now sources)) }
{
    if above == path {
        Ok(info)
    } else {
        inherited_from(alloc, &info, above, path)
    }
}

/// Gives what a path has of the value of a path at or above it.
fn told_from<R: Repository>(
    alloc: Global,
    repository: &R,
    revision: u64,
    above: &Path,
    path: &Path,
) -> Result<Option<MergeInfo>, AllocError>
    requires { length above.now ≤ length path.now }
    ensures { IfOk result (IsToldOf (sources_from
        (tree_at (R.content repository.now) revision) path.now (Some above.now))) }
{
    let found = own(alloc, repository, revision, above)?;
    match found {
        Some(info) => Ok(Some(handed_down(alloc, info, above, path)?)),
        None => Ok(None),
    }
}

/// Gives what a path has of the value of the nearest path that has one.
fn told_nearest<R: Repository>(
    alloc: Global,
    repository: &R,
    revision: u64,
    path: &Path,
    inheritance: Inheritance,
) -> Result<Option<MergeInfo>, AllocError>
    ensures { IfOk result (IsToldOf
        (sources_for (tree_at (R.content repository.now) revision) inheritance path.now)) }
{
    match nearest(alloc, repository, revision, path, inheritance)? {
        Some(above) => told_from(alloc, repository, revision, &above, path),
        None => Ok(None),
    }
}

/// Gives the merge information of the entry at a path of a revision: that of the nearest path whose entry has the property.
/// From above come the ranges that are inheritable, with the rest of the path after each source. It is `None` where no path
/// has the property, and where the value is no merge information.
pub fn merge_info_at<R: Repository>(
    alloc: Global,
    repository: &R,
    revision: u64,
    path: &Path,
    inheritance: Inheritance,
) -> Result<Option<MergeInfo>, AllocError>
    ensures { IfOk result (λ told. told
        ≡ told_for (tree_at (R.content repository.now) revision) inheritance path.now) }
{
    normal_forms_are_one();
    told_nearest(alloc, repository, revision, path, inheritance)
}

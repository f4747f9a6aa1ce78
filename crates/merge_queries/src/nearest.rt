//! The nearest entry with a value of `svn:mergeinfo`.
ghost use Rattle.std.specs.{Prelude.{◌≡◌, IfOk, option_copied}, List.find};
ghost use Rattle.repo_api.specs.States.{tree_at};
ghost use Rattle.merge_queries.specs.{Queries.{has_value, is_merge_name, merge_value, nearest, value_at}, Walks.from_there};

use crate::inheritance::Inheritance;
use byte_string::ByteString;
use repo_api::{Properties, Repository};
use std::alloc::{AllocError, Global};
use svnpath::Path;

/// Says whether the name is `svn:mergeinfo`.
fn is_merge_name(name: &[u8]) -> bool
    ensures { result ≡ is_merge_name name.now }
{
    name == b"svn:mergeinfo".as_slice()
}

/// Finds the value of `svn:mergeinfo`.
fn merge_value(properties: &Properties) -> Option<&ByteString>
    ensures { option_copied result ≡ merge_value properties.now }
{
    for (name, value) in properties.iter() {
        if is_merge_name(name.as_slice()) {
            return Some(value);
        }
    }
    None
}

/// Finds the value of `svn:mergeinfo` that the entry at a path of a revision has.
pub(crate) fn value_at<'a, R: Repository>(
    repository: &'a R,
    revision: u64,
    path: &Path,
) -> Option<&'a ByteString>
    ensures { option_copied result ≡ value_at (tree_at (R.content repository.now) revision) path.now }
{
    match repository.properties(revision, path) {
        Some(properties) => merge_value(properties),
        None => None,
    }
}

/// Says whether the entry at a path of a revision has a value.
pub(crate) fn has_value<R: Repository>(repository: &R, revision: u64, path: &Path) -> bool
    ensures { result ≡ has_value (tree_at (R.content repository.now) revision) path.now }
{
    value_at(repository, revision, path).is_some()
}

/// Finds the first path, from this one upwards, whose entry has a value.
#[tactic(auto, using(crate::proofs::Upwards::found_first, crate::proofs::Upwards::passed_first, crate::proofs::Upwards::fewer_above))]
fn first_upwards<R: Repository>(
    alloc: Global,
    repository: &R,
    revision: u64,
    start: Option<Path>,
) -> Result<Option<Path>, AllocError>
    ensures first { IfOk result (λ found. found
        ≡ find (has_value (tree_at (R.content repository.now) revision)) (from_there start)) }
{
    let mut path = start;
    while let Some(here) = path {
        if has_value(repository, revision, &here) {
            return Ok(Some(here));
        }
        path = here.parent(alloc)?;
    }
    Ok(None)
}

/// Finds the path whose value counts.
#[tactic(auto, using(crate::proofs::Upwards::above_first))]
pub(crate) fn nearest<R: Repository>(
    alloc: Global,
    repository: &R,
    revision: u64,
    path: &Path,
    inheritance: Inheritance,
) -> Result<Option<Path>, AllocError>
    ensures { IfOk result (λ found. found
        ≡ nearest (tree_at (R.content repository.now) revision) inheritance path.now) }
{
    match inheritance {
        Inheritance::Explicit => {
            if has_value(repository, revision, path) {
                Ok(Some(path.clone()?))
            } else {
                Ok(None)
            }
        }
        Inheritance::Inherited => {
            let start = Some(path.clone()?);
            first_upwards(alloc, repository, revision, start)
        }
        Inheritance::NearestAncestor => {
            let start = path.parent(alloc)?;
            first_upwards(alloc, repository, revision, start)
        }
    }
}

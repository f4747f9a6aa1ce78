//! The entries beneath a path that have merge information of their own.
ghost use Rattle.std.specs.{Prelude.{◌≡◌, ◌&&◌, IfOk, OnOk}, List.Sorted.IsStrictlySortedBy};
ghost use Rattle.svnpath.specs.Paths.{path_cmp, same_path};
ghost use Rattle.repo_api.specs.States.{tree_at};
ghost use Rattle.merge_queries.specs.{Beneath.{descendants, is_descendant}, Queries.has_value, Walks.AreNoted};

use crate::nearest::has_value;
use repo_api::Repository;
use std::alloc::{AllocError, Global};
use std::collections::BTreeSet;
use svnpath::Path;

/// Puts a path among others.
fn put(path: &Path, found: &mut BTreeSet<Path>) -> Result<(), AllocError>
    ensures noted { OnOk result (AreNoted (λ q. same_path q path.now) found.old.keys found.new.keys) }
    ensures ordered { OnOk result (IsStrictlySortedBy path_cmp found.new.keys) }
{
    found.insert(path.clone()?)?;
    Ok(())
}

/// Notes a path whose entry has a value.
#[tactic(auto, using(crate::proofs::Noting::noted_here, crate::proofs::Noting::not_noted))]
fn note<R: Repository>(
    repository: &R,
    revision: u64,
    path: &Path,
    found: &mut BTreeSet<Path>,
) -> Result<(), AllocError>
    ensures noted { OnOk result (AreNoted (λ q. same_path q path.now
        && has_value (tree_at (R.content repository.now) revision) q) found.old.keys found.new.keys) }
    ensures ordered { IsStrictlySortedBy path_cmp found.old.keys
        → OnOk result (IsStrictlySortedBy path_cmp found.new.keys) }
{
    if !has_value(repository, revision, path) {
        return Ok(());
    }
    put(path, found)?;
    Ok(())
}

/// Notes the paths beneath a path whose entries have a value.
fn note_beneath<R: Repository>(
    alloc: Global,
    repository: &R,
    revision: u64,
    path: &Path,
    found: &mut BTreeSet<Path>,
) -> Result<(), AllocError>
    ensures noted { OnOk result (AreNoted
        (is_descendant (tree_at (R.content repository.now) revision) path.now)
        found.old.keys found.new.keys) }
    ensures ordered { IsStrictlySortedBy path_cmp found.old.keys
        → OnOk result (IsStrictlySortedBy path_cmp found.new.keys) }
{
    let names = repository.names(revision, path)?;
    for name in names.as_slice() {
        let child = path.child(alloc, (*name).clone()?)?;
        note(repository, revision, &child, found)?;
        note_beneath(alloc, repository, revision, &child, found)?;
    }
    Ok(())
}

/// Finds the paths beneath a path of a revision whose entries have the property, in the order of the paths. It goes no
/// deeper than the tree does, and ends where the repository is given up, as its client has gone.
pub fn descendants<R: Repository>(
    alloc: Global,
    repository: &R,
    revision: u64,
    path: &Path,
) -> Result<BTreeSet<Path>, AllocError>
    ensures { IfOk result (λ found. found.keys
        ≡ descendants (tree_at (R.content repository.now) revision) path.now) }
{
    let mut found = BTreeSet::new(alloc);
    note_beneath(alloc, repository, revision, path, &mut found)?;
    Ok(found)
}

//! The names of a directory that a replay looks at.
ghost use Rattle.std.specs.{Prelude.{◌≡◌, ◌⊎◌, ◌||◌, Some, true, map, slice_get, IfOk, OnOk, option_copied}, Map.Iter.deref};
ghost use Rattle.svnpath.specs.Paths.{Component, same_component};
ghost use Rattle.repo_api.specs.Readings.{is_name_among, names_at, rest_beneath};
ghost use Rattle.replays.specs.Visiting.{HoldsRunNames, IsAlikeAt, IsQuietName};

use crate::replayed::Replayed;
use crate::spots::Spot;
use byte_string::ByteString;
use repo_api::{Change, Repository};
use std::alloc::{AllocError, Global};
use std::collections::BTreeSet;
use svnpath::Path;
use traces::Place;

/// Puts names among others.
fn put_all(found: &[&ByteString], names: &mut BTreeSet<ByteString>) -> Result<(), AllocError>
    ensures { OnOk result ((x : Component) → is_name_among names.new.keys x
        ≡ (is_name_among names.old.keys x || is_name_among (map deref found.now) x)) }
{
    for name in found {
        names.insert((*name).clone()?)?;
    }
    Ok(())
}

/// Gives the name by which a path goes on beneath another, if it is beneath it.
fn name_beneath<'a>(above: &Path, path: &'a Path) -> Option<&'a ByteString>
    ensures { option_copied result ≡ slice_get (rest_beneath above.now path.now) 0 }
{
    if !path.is_at_or_under(above) {
        return None;
    }
    path.components()[above.len()..].first()
}

/// Puts a name among others, where it is not there yet.
fn put_missing(name: &ByteString, names: &mut BTreeSet<ByteString>) -> Result<(), AllocError>
    ensures { OnOk result ((x : Component) → is_name_among names.new.keys x
        ≡ (is_name_among names.old.keys x || same_component x name.now)) }
{
    if names.contains(name) {
        return Ok(());
    }
    names.insert(name.clone()?)?;
    Ok(())
}

/// Puts the names by which a list goes on beneath a path among others.
fn put_run_names(
    run: &[(Path, Change)],
    path: &Path,
    names: &mut BTreeSet<ByteString>,
) -> Result<(), AllocError>
    ensures keeps { OnOk result ((x : Component) → is_name_among names.old.keys x ≡ true
        → is_name_among names.new.keys x ≡ true) }
    ensures holds { OnOk result (HoldsRunNames names.new.keys run.now path.now) }
{
    for entry in run {
        let Some(name) = name_beneath(path, &entry.0) else {
            continue;
        };
        put_missing(name, names)?;
    }
    Ok(())
}

/// Puts the names of a directory of a revision among others.
fn put_names<R: Repository>(
    view: &R,
    revision: u64,
    path: &Path,
    names: &mut BTreeSet<ByteString>,
) -> Result<(), AllocError>
    ensures { OnOk result ((x : Component) → is_name_among names.new.keys x
        ≡ (is_name_among names.old.keys x
        || is_name_among (names_at (R.content view.now) revision path.now) x)) }
{
    let found = view.names(revision, path)?;
    put_all(&found, names)
}

/// Puts names among others so that among all are those by which what is at a path of the revision differs from what the
/// client has there.
fn put_differing<R: Repository>(
    replay: &Replayed<R>,
    path: &Path,
    base: &Place,
    names: &mut BTreeSet<ByteString>,
) -> Result<(), AllocError>
    ensures keeps { OnOk result ((x : Component) → is_name_among names.old.keys x ≡ true
        → is_name_among names.new.keys x ≡ true) }
    ensures differ { OnOk result ((x : Component) → (is_name_among names.new.keys x ≡ true)
        ⊎ IsAlikeAt (R.content replay.now.view.now) base.now.revision base.now.path
        replay.now.revision path.now x) }
{
    let view = replay.view;
    let found = view.differing_names(base.revision, &base.path, replay.revision, path)?;
    match found {
        Some(found) => put_all(&found, names),
        None => {
            put_names(view, base.revision, &base.path, names)?;
            put_names(view, replay.revision, path, names)
        }
    }
}

/// Finds the names of a directory of a revision.
fn names_in<R: Repository>(
    alloc: Global,
    view: &R,
    revision: u64,
    path: &Path,
) -> Result<BTreeSet<ByteString>, AllocError>
    ensures { IfOk result (λ names. (x : Component) → is_name_among names.keys x
        ≡ is_name_among (names_at (R.content view.now) revision path.now) x) }
{
    let mut names = BTreeSet::new(alloc);
    put_names(view, revision, path, &mut names)?;
    Ok(names)
}

/// Finds names of a directory among which are those by which it differs from what the client has there, and those by which
/// the list goes on beneath it.
fn names_changed<R: Repository>(
    alloc: Global,
    replay: &Replayed<R>,
    here: &Spot<'_>,
    base: &Place,
) -> Result<BTreeSet<ByteString>, AllocError>
    ensures { IfOk result (λ names. (x : Component) → (is_name_among names.keys x ≡ true)
        ⊎ IsQuietName (R.content replay.now.view.now) replay.now.revision here.now.path
        (Some base.now) here.now.run.now x) }
{
    let mut names = BTreeSet::new(alloc);
    put_differing(replay, &here.path, base, &mut names)?;
    put_run_names(here.run, &here.path, &mut names)?;
    Ok(names)
}

/// Finds names of a directory among which are all of which something is to be said: all names, where the client has
/// nothing of it, and else those by which it differs from what the client has, and those by which the list goes on beneath
/// it.
pub(crate) fn names_to_visit<R: Repository>(
    alloc: Global,
    replay: &Replayed<R>,
    here: &Spot<'_>,
) -> Result<BTreeSet<ByteString>, AllocError>
    ensures { IfOk result (λ names. (x : Component) → (is_name_among names.keys x ≡ true)
        ⊎ IsQuietName (R.content replay.now.view.now) replay.now.revision here.now.path
        here.now.place here.now.run.now x) }
{
    match &here.place {
        None => names_in(alloc, replay.view, replay.revision, &here.path),
        Some(base) => names_changed(alloc, replay, here, base),
    }
}

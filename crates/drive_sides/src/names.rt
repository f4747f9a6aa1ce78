//! The names of what a directory has on either side.
ghost use Rattle.std.specs.{Prelude.{◌≡◌, ◌∷◌, [], true, false, is_some, map, slice_get, IfOk, OnOk, option_copied}, Map.Iter.deref};
ghost use Rattle.svnpath.specs.Paths.{Component};
ghost use Rattle.repo_api.specs.{Readings.{is_name_among, name_in, names_at, rest_beneath}, States.trees_in};
ghost use Rattle.reporter.specs.Places.{in_place};
ghost use Rattle.drive_sides.specs.{Pairs.HasNoGraft, Names.{children_of, graft_names, AreDistinct, ArePut}};

use crate::alike::is_alone;
use byte_string::ByteString;
use repo_api::Repository;
use reporter::{Graft, ReportedPlace};
use std::alloc::{AllocError, Global};
use std::collections::BTreeSet;
use svnpath::Path;

/// Puts names among others.
pub(crate) fn put_all(
    found: &[&ByteString],
    names: &mut BTreeSet<ByteString>,
) -> Result<(), AllocError>
    ensures { OnOk result (ArePut (map deref found.now) names.old.keys names.new.keys) }
{
    for name in found {
        names.insert((*name).clone()?)?;
    }
    Ok(())
}

/// Puts the names of a directory of a revision among others.
pub(crate) fn put_names<R: Repository>(
    view: &R,
    revision: u64,
    path: &Path,
    names: &mut BTreeSet<ByteString>,
) -> Result<(), AllocError>
    ensures { OnOk result (ArePut (names_at (R.content view.now) revision path.now)
        names.old.keys names.new.keys) }
{
    let found = view.names(revision, path)?;
    put_all(&found, names)
}

/// Puts the names of what a client has straight beneath a place among others.
pub(crate) fn put_place_names<R: Repository>(
    view: &R,
    place: &ReportedPlace,
    names: &mut BTreeSet<ByteString>,
) -> Result<(), AllocError>
    ensures keeps { OnOk result ((c : Component) → is_name_among names.old.keys c ≡ true
        → is_name_among names.new.keys c ≡ true) }
    ensures adds { OnOk result ((c : Component)
        → is_some (in_place (trees_in (R.content view.now).revisions) place.now (c ∷ [])) ≡ true
        → is_name_among names.new.keys c ≡ true) }
{
    if is_alone(place) {
        return Ok(());
    }
    put_names(view, place.revision, &place.path, names)
}

/// Gives the name of a path that is straight beneath another, if it is.
fn name_in<'a>(above: &Path, path: &'a Path) -> Option<&'a ByteString>
    ensures { option_copied result ≡ name_in above.now path.now }
{
    if !path.is_at_or_under(above) {
        return None;
    }
    match &path.components()[above.len()..] {
        [name] => Some(name),
        _ => None,
    }
}

/// Puts the names of the grafts that are straight beneath a path among others.
pub(crate) fn put_graft_names(
    grafts: &[Graft],
    path: &Path,
    names: &mut BTreeSet<ByteString>,
) -> Result<(), AllocError>
    ensures { OnOk result (ArePut (graft_names path.now grafts.now) names.old.keys names.new.keys) }
{
    for graft in grafts {
        let Some(name) = name_in(path, &graft.path) else {
            continue;
        };
        names.insert(name.clone()?)?;
    }
    Ok(())
}

/// Gives the name by which a path goes on beneath another, if it is beneath it.
fn name_beneath<'a>(above: &Path, path: &'a Path) -> Option<&'a ByteString>
    ensures { option_copied result ≡ slice_get (rest_beneath above.now path.now) 0 }
{
    if !path.is_at_or_under(above) {
        return None;
    }
    path.components()[above.len()..].first()
}

/// Puts the names by which grafts are beneath a path among others.
pub(crate) fn put_names_beneath(
    grafts: &[Graft],
    path: &Path,
    names: &mut BTreeSet<ByteString>,
) -> Result<(), AllocError>
    ensures { OnOk result ((c : Component) → is_name_among names.new.keys c ≡ false
        → HasNoGraft grafts.now path.now c) }
{
    for graft in grafts {
        let Some(name) = name_beneath(path, &graft.path) else {
            continue;
        };
        names.insert(name.clone()?)?;
    }
    Ok(())
}

/// Makes the paths of these names beneath a path.
pub(crate) fn children_of(
    alloc: Global,
    path: &Path,
    names: BTreeSet<ByteString>,
) -> Result<Vec<Path>, AllocError>
    ensures paths { IfOk result (λ v. v.items ≡ children_of path.now names.keys) }
    ensures distinct { IfOk result (λ v. AreDistinct names.keys) }
{
    let mut children = Vec::new(alloc);
    for name in names {
        children.push(path.child(alloc, name)?)?;
    }
    Ok(children)
}

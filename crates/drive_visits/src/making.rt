//! The visits of one directory, made one after another.
ghost use Rattle.std.specs.Prelude.{◌≡◌, ◌∷◌, [], false, All, IfOk, List, OnOk};
ghost use Rattle.drive_visits.specs.Knowing.{AreKnown, AreLeftKnown, AreSilentKnown, IsFoundKnown, IsKnown, IsReached, IsVisitTo, paths_of, visit_of};
ghost use Rattle.drive_visits.specs.{Left.{AreVisitsOf, IsEntry, IsFound, IsLeftIn, IsPlanBelow, IsPlanOf, IsNextFound}, Nesting.entry_visit};
ghost use Rattle.drive_visits.specs.{Remembered.IfRemembers, Visits.Visit, Walks.{going, MayEnter}};

use crate::kinds::{goes, is_added};
use crate::known_path::KnownPath;
use crate::memory::Memory;
use crate::searching::has_news;
use crate::sides::Sides;
use crate::unvisited::{Found, Unvisited};
use crate::visit::KnownVisit;
use std::alloc::{AllocError, Global};
use std::collections::VecDeque;
use svnpath::Path;

/// Finds what goes among these paths.
fn going_among<S: Sides>(
    alloc: Global,
    sides: &S,
    places: &[KnownPath<S::Known>],
) -> Result<Vec<Path>, AllocError>
    requires { AreKnown (S.knows sides.now) places.now }
    ensures { IfOk result (λ v. v.items ≡ going (S.trees sides.now).apart (S.trees sides.now).old
        (S.trees sides.now).new (paths_of places.now)) }
{
    let mut paths = Vec::new(alloc);
    for place in places {
        if goes(sides.kinds(alloc, place)?) {
            paths.push(place.path.clone()?)?;
        }
    }
    Ok(paths)
}

/// Gives the paths alone.
fn paths_of<K: Drop>(alloc: Global, places: Vec<KnownPath<K>>) -> Result<VecDeque<Path>, AllocError>
    ensures { IfOk result (λ paths. paths.items ≡ paths_of places.items) }
{
    let mut paths = VecDeque::new(alloc);
    let mut left = VecDeque::from_vec(places);
    while let Some(place) = left.pop_front() {
        paths.push_back(place.into_path())?;
    }
    Ok(paths)
}

/// Finds what is to be visited of these paths, which are this one or in it and stay with it: what goes, and then each entry.
fn unvisited_staying<S: Sides>(
    alloc: Global,
    sides: &S,
    from: &KnownPath<S::Known>,
    places: Vec<KnownPath<S::Known>>,
) -> Result<Unvisited<S::Known>, AllocError>
    requires from { IsKnown (S.knows sides.now) from.now }
    requires near { All (IsReached from.now.path) (paths_of places.items) }
    requires known { AreKnown (S.knows sides.now) places.items }
    ensures left { IfOk result (λ here. (vs : List Visit) → IsLeftIn (S.trees sides.now) here vs
        → AreVisitsOf (S.trees sides.now) false (paths_of places.items) vs) }
    ensures known { IfOk result (AreLeftKnown (S.knows sides.now)) }
{
    let deletes = going_among(alloc, sides, &places)?;
    let entries = paths_of(alloc, places)?;
    let from = sides.copied(from)?;
    Ok(Unvisited {
        from,
        deletes: VecDeque::from_vec(deletes),
        entries,
        is_anew: false,
    })
}

/// Finds what is to be visited below a directory that stays: what goes, and then each entry.
fn unvisited_below_staying<S: Sides>(
    alloc: Global,
    sides: &S,
    place: &KnownPath<S::Known>,
) -> Result<Unvisited<S::Known>, AllocError>
    requires { IsKnown (S.knows sides.now) place.now }
    ensures left { IfOk result (λ below. (vs : List Visit) → IsLeftIn (S.trees sides.now) below vs
        → IsPlanBelow (S.trees sides.now) false place.now.path vs) }
    ensures known { IfOk result (AreLeftKnown (S.knows sides.now)) }
{
    let children = sides.unlike_children(alloc, place)?;
    unvisited_staying(alloc, sides, place, children)
}

/// Finds what is to be visited of the top of a drive alone.
pub(crate) fn unvisited_top<S: Sides>(
    alloc: Global,
    sides: &S,
) -> Result<Unvisited<S::Known>, AllocError>
    ensures left { IfOk result (λ here. (vs : List Visit) → IsLeftIn (S.trees sides.now) here vs
        → AreVisitsOf (S.trees sides.now) false (S.start sides.now ∷ []) vs) }
    ensures known { IfOk result (AreLeftKnown (S.knows sides.now)) }
{
    let top = sides.top(alloc)?;
    let copy = sides.copied(&top)?;
    let mut places = Vec::new(alloc);
    places.push(copy)?;
    unvisited_staying(alloc, sides, &top, places)
}

/// Finds what is to be visited below a directory: what goes, and then each entry.
pub(crate) fn unvisited_below<S: Sides>(
    alloc: Global,
    sides: &S,
    place: &KnownPath<S::Known>,
    is_anew: bool,
) -> Result<Unvisited<S::Known>, AllocError>
    requires { IsKnown (S.knows sides.now) place.now }
    ensures left { IfOk result (λ below. (vs : List Visit) → IsLeftIn (S.trees sides.now) below vs
        → IsPlanBelow (S.trees sides.now) is_anew place.now.path vs) }
    ensures known { IfOk result (AreLeftKnown (S.knows sides.now)) }
{
    if !is_anew {
        return unvisited_below_staying(alloc, sides, place);
    }
    let children = sides.children(alloc, place)?;
    let from = sides.copied(place)?;
    Ok(Unvisited {
        from,
        deletes: VecDeque::new(alloc),
        entries: VecDeque::from_vec(children),
        is_anew,
    })
}

/// Makes the visit that enters an entry: it is opened, or comes anew.
fn entry_visit<K: Drop>(place: KnownPath<K>, is_anew: bool, is_directory: bool) -> KnownVisit<K>
    ensures visit { visit_of result ≡ entry_visit is_anew is_directory place.path }
    ensures place { IsVisitTo place result }
{
    if is_anew {
        KnownVisit::Add {
            place,
            is_directory,
        }
    } else {
        KnownVisit::Open {
            place,
            is_directory,
        }
    }
}

/// Makes the visit that enters an entry, and what is to be visited below it.
fn entered<S: Sides>(
    alloc: Global,
    sides: &S,
    place: KnownPath<S::Known>,
    is_anew: bool,
    is_directory: bool,
) -> Result<Found<S::Known>, AllocError>
    requires enters { MayEnter (S.trees sides.now) is_anew is_directory place.path }
    requires known { IsKnown (S.knows sides.now) place }
    ensures found { IfOk result (λ found. (vs : List Visit) → IsFound (S.trees sides.now) found vs
        → IsEntry (S.trees sides.now) is_anew is_directory place.path vs) }
    ensures known { IfOk result (IsFoundKnown (S.knows sides.now)) }
{
    if !is_directory {
        let visit = entry_visit(place, is_anew, is_directory);
        return Ok(Found::Single(visit));
    }
    let below = unvisited_below(alloc, sides, &place, is_anew)?;
    let visit = entry_visit(place, is_anew, is_directory);
    Ok(Found::Entered(visit, below))
}

/// Finds what is to be visited at a path and under it.
fn found_at<S: Sides>(
    alloc: Global,
    sides: &S,
    memory: &mut Memory<S::Known>,
    place: KnownPath<S::Known>,
    is_anew: bool,
) -> Result<Found<S::Known>, AllocError>
    requires known { IsKnown (S.knows sides.now) place }
    requires held { AreSilentKnown (S.knows sides.now) memory.old }
    ensures found { IfOk result (λ found. IfRemembers (S.trees sides.now) memory.old memory.new
        ((vs : List Visit) → IsFound (S.trees sides.now) found vs
        → IsPlanOf (S.trees sides.now) is_anew place.path vs)) }
    ensures known { IfOk result (IsFoundKnown (S.knows sides.now)) }
    ensures held { OnOk result (AreSilentKnown (S.knows sides.now) memory.new) }
{
    let kinds = sides.kinds(alloc, &place)?;
    if !kinds.new.is_present() {
        return Ok(Found::Nothing);
    }
    let comes = is_anew || is_added(kinds);
    let is_directory = kinds.new.is_directory();
    if comes {
        return entered(alloc, sides, place, true, is_directory);
    }
    if !has_news(alloc, sides, memory, &place, is_directory)? {
        return Ok(Found::Nothing);
    }
    entered(alloc, sides, place, false, is_directory)
}

/// Finds what is visited next in a directory.
pub(crate) fn next_found<S: Sides>(
    alloc: Global,
    sides: &S,
    memory: &mut Memory<S::Known>,
    here: &mut Unvisited<S::Known>,
) -> Result<Found<S::Known>, AllocError>
    requires known { AreLeftKnown (S.knows sides.now) here.old }
    requires held { AreSilentKnown (S.knows sides.now) memory.old }
    ensures next { IfOk result (λ found. IfRemembers (S.trees sides.now) memory.old memory.new
        (IsNextFound (S.trees sides.now) here.old here.new found)) }
    ensures known { IfOk result (IsFoundKnown (S.knows sides.now)) }
    ensures left { OnOk result (AreLeftKnown (S.knows sides.now) here.new) }
    ensures held { OnOk result (AreSilentKnown (S.knows sides.now) memory.new) }
{
    if let Some(path) = here.deletes.pop_front() {
        return Ok(Found::Single(KnownVisit::Delete(path)));
    }
    next_entry(alloc, sides, memory, here)
}

/// Finds what is visited next of the entries of a directory, where nothing is left that goes.
fn next_entry<S: Sides>(
    alloc: Global,
    sides: &S,
    memory: &mut Memory<S::Known>,
    here: &mut Unvisited<S::Known>,
) -> Result<Found<S::Known>, AllocError>
    requires none { here.old.deletes.items ≡ [] }
    requires known { AreLeftKnown (S.knows sides.now) here.old }
    requires held { AreSilentKnown (S.knows sides.now) memory.old }
    ensures next { IfOk result (λ found. IfRemembers (S.trees sides.now) memory.old memory.new
        (IsNextFound (S.trees sides.now) here.old here.new found)) }
    ensures known { IfOk result (IsFoundKnown (S.knows sides.now)) }
    ensures left { OnOk result (AreLeftKnown (S.knows sides.now) here.new) }
    ensures held { OnOk result (AreSilentKnown (S.knows sides.now) memory.new) }
{
    while let Some(path) = here.entries.pop_front() {
        let place = sides.reached(alloc, &here.from, path)?;
        let found = found_at(alloc, sides, memory, place, here.is_anew)?;
        if !found.is_nothing() {
            return Ok(found);
        }
    }
    Ok(Found::Nothing)
}

//! Traces of one path, from several revisions back to a place, that are gone along together: where two meet they are one
//! from there on.
ghost use Rattle.std.specs.{Prelude.{◌≡◌, ◌≤◌, false}, Option.ForSome};
ghost use Rattle.repo_api.specs.Histories.{history_of};
ghost use Rattle.history.specs.Gathered.{GoesOn};

use crate::gathering::{note, path_there};
use crate::locating::{copy_of, only_same, settled_above};
use crate::walk::step_back;
use repo_api::Repository;
use std::alloc::{AllocError, Global};
use std::collections::BTreeMap;
use svnpath::Path;
use traces::Place;

/// Traces of the path of a place, as far as they were gone along.
#[derive(Drop)]
pub struct Meeting {
    /// Where they have come to, each by a revision in which one of them began.
    pub(crate) places: BTreeMap<(u64, Path), u64>,
    /// The revisions whose traces have met those of others, the last ones last.
    pub(crate) met: Vec<(u64, u64)>,
    /// The paths that are known.
    pub(crate) found: BTreeMap<u64, Option<Path>>,
}

impl Meeting {
    ghost use Rattle.std.specs.Prelude.{◌≡◌, ◌≤◌, ◌<◌, ◌++◌, ◌∷◌, [], ℕ, List, true, Option, Some, IfOk, IfSome, OnOk};
    ghost use Rattle.repo_api.specs.Histories.{History, history_of};
    ghost use Rattle.svnpath.specs.Paths.{PathValue};
    ghost use Rattle.history.specs.{Gathered.path_known, Locations.location_on, Meeting.{AreMeeting, IsTraceOf}};
    ghost use Rattle.traces.specs.declared.place.Place.{Place};

    /// Makes one of no traces.
    pub(crate) fn none(alloc: Global) -> Self
        ensures { (h : History) (place : Place) → AreMeeting h place result }
    {
        Meeting {
            places: BTreeMap::new(alloc),
            met: Vec::new(alloc),
            found: BTreeMap::new(alloc),
        }
    }

    /// Goes along all traces down to places that are not above the revision, and then along one more, of the place's path
    /// in the revision.
    pub(crate) fn begin<R: Repository>(
        &mut self,
        alloc: Global,
        repository: &R,
        place: &Place,
        revision: u64,
    ) -> Result<(), AllocError>
        requires above { place.now.revision ≤ revision }
        requires meeting { AreMeeting (history_of (R.content repository.now)) place.now self.old }
        ensures { OnOk result
            (AreMeeting (history_of (R.content repository.now)) place.now self.new) }
    {
        self.go_down(alloc, repository, place, revision)?;
        let later = Place {
            path: place.path.clone()?,
            revision,
        };
        self.go_on(repository, place, revision, Some(later))
    }

    /// Goes along all traces down to places that are not above the revision.
    pub(crate) fn go_down<R: Repository>(
        &mut self,
        alloc: Global,
        repository: &R,
        place: &Place,
        revision: u64,
    ) -> Result<(), AllocError>
        requires above { place.now.revision ≤ revision }
        requires meeting { AreMeeting (history_of (R.content repository.now)) place.now self.old }
        ensures { OnOk result
            (AreMeeting (history_of (R.content repository.now)) place.now self.new) }
    {
        for _ in 0..u64::MAX {
            let Some((at, begun)) = self.take_above(revision) else {
                return Ok(());
            };
            let next = step_back(alloc, repository, false, &at)?;
            self.go_on(repository, place, begun, next)?;
        }
        Ok(())
    }

    /// Takes the place out that is in the newest revision, where that is above this one, and gives it with the revision in
    /// which its trace began.
    fn take_above(&mut self, revision: u64) -> Option<(Place, u64)>
        ensures above { IfSome result (λ taken. revision < taken.0.revision) }
        ensures meeting { (h : History) (place : Place) → AreMeeting h place self.old
            → AreMeeting h place self.new }
        ensures trace { (h : History) (place : Place) → AreMeeting h place self.old
            → IfSome result (λ taken. IsTraceOf h place taken.1 (Some taken.0)) }
    {
        if !self.has_above(revision) {
            return None;
        }
        let Some(entry) = self.places.pop_last() else {
            return None;
        };
        let (at, begun) = entry;
        let (revision, path) = at;
        Some((Place { path, revision }, begun))
    }

    /// Says whether a trace is above the revision.
    fn has_above(&self, revision: u64) -> bool
        ensures { result ≡ true → (rest : List ((ℕ × PathValue) × ℕ)) (last : (ℕ × PathValue) × ℕ)
            → self.now.places.entries ≡ rest ++ last ∷ [] → revision < last.0.0 }
    {
        match self.places.last_key_value() {
            None => false,
            Some((at, _)) => at.0 > revision,
        }
    }

    /// Notes where the trace that began in a revision has come to, or the path that it has, where that is known.
    fn go_on<R: Repository>(
        &mut self,
        repository: &R,
        place: &Place,
        begun: u64,
        at: Option<Place>,
    ) -> Result<(), AllocError>
        requires trace { IsTraceOf (history_of (R.content repository.now)) place.now begun at }
        requires meeting { AreMeeting (history_of (R.content repository.now)) place.now self.old }
        ensures { OnOk result
            (AreMeeting (history_of (R.content repository.now)) place.now self.new) }
    {
        let at = settled_from(repository, at, place.revision);
        if is_above(&at, place.revision) {
            return self.meet(at, begun);
        }
        let path = path_there(&at, place.revision)?;
        note(
            &mut self.found,
            begun,
            only_same(place.path.clone()?, &path),
        )
    }

    /// Notes the place that the trace has come to which began in a revision. Where another is there it has met that one.
    fn meet(&mut self, at: Option<Place>, begun: u64) -> Result<(), AllocError>
        ensures { (h : History) (place : Place) → AreMeeting h place self.old
            → IsTraceOf h place begun at → OnOk result (AreMeeting h place self.new) }
    {
        let Some(Place { path, revision }) = at else {
            return Ok(());
        };
        if let Some(other) = self.places.insert((revision, path), begun)? {
            self.met.push((other, begun))?;
        }
        Ok(())
    }

    /// Gives the paths that are known, and so those of traces that have met them.
    pub(crate) fn paths(self) -> Result<BTreeMap<u64, Option<Path>>, AllocError>
        ensures { (h : History) (place : Place) → AreMeeting h place self
            → IfOk result (λ found. (n : ℕ) (o : Option PathValue) → path_known found.entries n ≡ Some o
            → o ≡ location_on h place n) }
    {
        let Meeting {
            places: _,
            met,
            found,
        } = self;
        let mut left = met;
        let mut paths = found;
        while let Some(pair) = left.pop() {
            if let Some(path) = paths.get(&pair.1) {
                let path = copy_of(path)?;
                note(&mut paths, pair.0, path)?;
            }
        }
        Ok(paths)
    }
}

/// Says whether a trace that may go on is above the revision.
fn is_above(at: &Option<Place>, revision: u64) -> bool
    ensures { result ≡ false → ForSome at.now (λ place. place.revision ≤ revision) }
{
    match at {
        None => false,
        Some(place) => place.revision > revision,
    }
}

/// Goes on along a trace, if it goes on, as far as nothing happens to it, and no further than to the revision.
fn settled_from<R: Repository>(repository: &R, at: Option<Place>, revision: u64) -> Option<Place>
    ensures { GoesOn (history_of (R.content repository.now)) at revision result }
{
    match at {
        None => None,
        Some(place) => {
            if place.revision < revision {
                Some(place)
            } else {
                Some(settled_above(repository, place, revision))
            }
        }
    }
}

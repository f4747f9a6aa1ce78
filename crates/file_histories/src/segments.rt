//! The segments of a trace, found as they are asked for.
ghost use Rattle.std.specs.Prelude.{◌≡◌, ◌≤◌, ◌<◌, ◌∷◌, ℕ, false, IfOk, Some};
ghost use Rattle.repo_api.specs.Histories.{History, history_of};
ghost use Rattle.traces.specs.Traces.{trace, IsBelow};
ghost use Rattle.file_histories.specs.Segments.{cut, left_from, next_then, segments, segments_from, segments_of, stretch, to_come};

use crate::segment::Segment;
use history::step_back;
use repo_api::Repository;
use std::alloc::{AllocError, Global};
use traces::{Place, is_copied};

/// The segments of a trace that are still to come, the newest first, as far as they lie between two revisions.
pub struct Segments {
    pub(crate) low: u64,
    pub(crate) high: u64,
    /// The oldest revision of the segment before.
    pub(crate) above: u64,
    /// The place from which the trace goes on.
    pub(crate) at: Option<Place>,
}

impl Drop for Segments {
    fn drop(self) {
        let Segments {
            low: _,
            high: _,
            above: _,
            at: _,
        } = self;
    }
}

/// The place at which a stretch begins, or one of it that is not above the oldest revision asked for, and the place from
/// which the trace goes on.
#[derive(Drop)]
pub(crate) struct Beginning {
    pub(crate) at: Place,
    pub(crate) next: Option<Place>,
}

/// Gives the place in the revision that it has settled in: nothing leads elsewhere from there to the place.
fn settled_place<R: Repository>(repository: &R, at: Place) -> Place
    ensures within { result.revision ≤ at.revision }
    ensures same { let h = history_of (R.content repository.now) in (last : ℕ)
        → segments_of h last (trace h false at) ≡ segments_of h last (trace h false result) }
{
    let revision = repository.settled(at.revision, &at.path);
    Place {
        path: at.path,
        revision,
    }
}

/// Goes back to where the place's stretch begins, and at the furthest to a place that is not above revision `low`.
fn stretch_back<R: Repository>(
    alloc: Global,
    repository: &R,
    low: u64,
    place: Place,
) -> Result<Beginning, AllocError>
    ensures within { IfOk result (λ found. found.at.revision ≤ place.revision) }
    ensures below { IfOk result (λ found. IsBelow found.at.revision found.next) }
    ensures same { let h = history_of (R.content repository.now) in
        IfOk result (λ found. (last high : ℕ) → cut low high (segments_of h last (trace h false place))
        ≡ cut low high (stretch found.at.revision last found.at.path
        ∷ segments_from h found.at.revision found.next)) }
{
    let mut at = settled_place(repository, place);
    while at.revision > low {
        let is_copy = is_copied(repository.changes(at.revision), &at.path);
        let Some(before) = step_back(alloc, repository, false, &at)? else {
            return Ok(Beginning { at, next: None });
        };
        if is_copy {
            return Ok(Beginning {
                at,
                next: Some(before),
            });
        }
        at = settled_place(repository, before);
    }
    Ok(Beginning { at, next: None })
}

/// A segment, whole, and what comes after it.
#[derive(Drop)]
pub(crate) struct Found {
    pub(crate) segment: Segment,
    pub(crate) above: u64,
    pub(crate) at: Option<Place>,
}

/// Finds the next segment of a trace that goes on at the place, below revision `above`: a gap, or the stretch that ends at
/// the place, which is looked for as far back as `low`.
fn next_segment<R: Repository>(
    alloc: Global,
    repository: &R,
    low: u64,
    above: u64,
    place: Place,
) -> Result<Found, AllocError>
    ensures less { IfOk result (λ found.
        left_from found.above found.at < left_from above (Some place)) }
    ensures same { let h = history_of (R.content repository.now) in
        IfOk result (λ found. (high : ℕ) → cut low high (segments_from h above (Some place))
        ≡ cut low high (found.segment ∷ segments_from h found.above found.at)) }
{
    let last = place.revision;
    let is_apart = above.saturating_sub(last) > 1;
    if is_apart {
        return Ok(Found {
            segment: Segment {
                first: last + 1,
                last: above - 1,
                path: None,
            },
            above: last,
            at: Some(place),
        });
    }
    let found = stretch_back(alloc, repository, low, place)?;
    let first = found.at.revision;
    Ok(Found {
        segment: Segment {
            first,
            last,
            path: Some(found.at.path),
        },
        above: first,
        at: found.next,
    })
}

impl Segments {
    /// Begins with the segments of what is at the place, as far as they lie from `low` to `high`.
    pub fn open(place: Place, low: u64, high: u64) -> Segments
        ensures { (h : History) → to_come h result
            ≡ cut low high (segments h place.revision place.path) }
    {
        Segments {
            low,
            high,
            above: place.revision,
            at: Some(place),
        }
    }

    /// Gives the next segment, as far as it lies between the two revisions. After an `Err` none comes any more.
    pub fn next<R: Repository>(
        &mut self,
        alloc: Global,
        repository: &R,
    ) -> Result<Option<Segment>, AllocError>
        ensures { let h = history_of (R.content repository.now) in
            IfOk result (λ next. to_come h self.old ≡ next_then next (to_come h self.new)) }
    {
        while let Some(place) = self.at.take() {
            let found = next_segment(alloc, repository, self.low, self.above, place)?;
            self.above = found.above;
            self.at = found.at;
            if let Some(part) = found.segment.cut_to(self.low, self.high) {
                return Ok(Some(part));
            }
        }
        Ok(None)
    }
}

//! The pairs of entries of a drive, of which everything is had and asked for.
ghost use Rattle.std.specs.Prelude.{◌≡◌, true, None, IfOk, IfSome};
ghost use Rattle.repo_api.specs.Readings.{IsSameAt};
ghost use Rattle.drive_visits.specs.Knowing.{IsKnown};
ghost use Rattle.drive_sides.specs.{Depths.IsWhole, Known.IsKnownOf, OnTrees.on_trees, Pairs.{AreOnePair, HaveSameLines, IsPairAt, IsPairBeside}};

use crate::alike::is_whole;
use crate::known::DrivePlace;
use crate::lines::keeps_lines;
use crate::two_trees::TwoTrees;
use drive_news::Place;
use repo_api::Repository;
use reporter::{DriveAsk, ReportedPlace};
use std::alloc::{AllocError, Global};
use svnpath::Path;

/// Where the two entries of a path of a drive are, of which everything is had and asked for: one at a path of a revision, the
/// other at a path of the revision that is asked for.
#[derive(Clone, Copy)]
pub struct EntryPair<'p> {
    pub(crate) revision: u64,
    pub(crate) old: &'p Path,
    pub(crate) new: &'p Path,
}

/// Makes the pair of what a client has whole, with no token, and what it is to have at the goal.
fn pair_of<'p>(place: &'p ReportedPlace, goal: &'p Path) -> Option<EntryPair<'p>>
    ensures whole { IfSome result (λ pair. IsWhole place.now
        × (place.now.token ≡ None)) }
    ensures is { IfSome result (λ pair. (pair.revision ≡ place.now.revision)
        × (pair.old.now ≡ place.now.path) × (pair.new.now ≡ goal.now)) }
{
    if !is_whole(place) {
        return None;
    }
    if place.token.is_some() {
        return None;
    }
    Some(EntryPair {
        revision: place.revision,
        old: &place.path,
        new: goal,
    })
}

/// Says whether a repository can tell that two pairs have the same on either side. The new entries are of this revision.
fn are_same<R: Repository>(view: &R, revision: u64, one: EntryPair<'_>, two: EntryPair<'_>) -> bool
    ensures { result ≡ true
        → IsSameAt (R.content view.now) one.entry.revision one.entry.old.now two.entry.revision two.entry.old.now
        × IsSameAt (R.content view.now) revision one.entry.new.now revision two.entry.new.now }
{
    view.is_same(one.revision, one.old, two.revision, two.old)
        && view.is_same(revision, one.new, revision, two.new)
}

/// Says whether lines of history let the same stay beneath two pairs.
fn have_same_lines<R: Repository>(
    alloc: Global,
    view: &R,
    ask: &DriveAsk,
    one: EntryPair<'_>,
    two: EntryPair<'_>,
) -> Result<bool, AllocError>
    ensures { IfOk result (λ same. same ≡ true
        → HaveSameLines (R.content view.now) ask.now one.entry two.entry) }
{
    let old_one = Place {
        revision: one.revision,
        path: one.old,
    };
    let old_two = Place {
        revision: two.revision,
        path: two.old,
    };
    if !keeps_lines(alloc, view, ask, old_one, old_two)? {
        return Ok(false);
    }
    let new_one = Place {
        revision: ask.revision,
        path: one.new,
    };
    let new_two = Place {
        revision: ask.revision,
        path: two.new,
    };
    keeps_lines(alloc, view, ask, new_one, new_two)
}

/// Says whether a repository can tell that two pairs are one: they have the same on either side, and lines of history let
/// the same stay beneath both.
pub(crate) fn are_one_pair<R: Repository>(
    alloc: Global,
    view: &R,
    ask: &DriveAsk,
    one: EntryPair<'_>,
    two: EntryPair<'_>,
) -> Result<bool, AllocError>
    ensures { IfOk result (λ same. same ≡ true
        → AreOnePair (R.content view.now) ask.now one.entry two.entry) }
{
    if !are_same(view, ask.revision, one, two) {
        return Ok(false);
    }
    have_same_lines(alloc, view, ask, one, two)
}

/// Mixes a further number into a key.
fn mixed(key: u64, number: u64) -> u64 {
    (key ^ number).wrapping_mul(0x0000_0100_0000_01b3)
}

/// Gives a number by which a pair is looked up, by what is told of its entries: their last changes and their name.
pub(crate) fn key_of<R: Repository>(view: &R, revision: u64, pair: EntryPair<'_>) -> u64 {
    let old = view.created(pair.revision, pair.old).unwrap_or(0);
    let new = view.created(revision, pair.new).unwrap_or(0);
    let mut key = mixed(old, new);
    if let Some(name) = pair.old.components().last() {
        for byte in name.as_slice() {
            key = mixed(key, u64::from(*byte));
        }
    }
    key
}

impl<'a, R: Repository> TwoTrees<'a, R> {
    /// Finds the pair of entries at a path that stays, if everything at and under it, but for what is at and under grafts
    /// beneath it, is had by one graft and asked for, with no token.
    pub(crate) fn pair_beside<'p>(&self, place: &'p DrivePlace) -> Option<EntryPair<'p>>
        requires { IsKnown (on_trees self.now IsKnownOf) place.now }
        ensures { IfSome result (on_trees self.now IsPairBeside place.now.path) }
    {
        if !place.known.stays {
            return None;
        }
        if !self.is_of_all() {
            return None;
        }
        match &place.known.had {
            None => None,
            Some(had) => pair_of(had, &place.known.goal),
        }
    }

    /// Finds the pair of entries at a path that stays, if everything at and under it is had by one graft and asked for, with
    /// no token.
    pub(crate) fn pair_at<'p>(&self, place: &'p DrivePlace) -> Option<EntryPair<'p>>
        requires { IsKnown (on_trees self.now IsKnownOf) place.now }
        ensures { IfSome result (on_trees self.now IsPairAt place.now.path) }
    {
        if !place.known.stays {
            return None;
        }
        if !self.is_of_all() {
            return None;
        }
        if self.report.grafts.has_beneath(&place.path) {
            return None;
        }
        match &place.known.had {
            None => None,
            Some(had) => pair_of(had, &place.known.goal),
        }
    }
}

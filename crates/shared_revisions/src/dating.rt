//! How far down the revisions are dated after a date.
ghost use Rattle.std.specs.Prelude.{◌≡◌, ◌≤◌, ◌<◌, true, length};
ghost use Rattle.repo_api.specs.Dates.{is_dated, IsUndatedSince};
ghost use Rattle.shared_revisions.specs.{Contents.held_state, Rising.{IsNoLater, RisesButAt, RisesFrom, RisesTo}};

use crate::held::Held;
use pvec::PVec;
use repo_api::{Properties, date_of, is_date_text, is_up_to};

impl Held {
    /// Gives a revision, at most this one, after which and up to this one none is dated up to the date: as far as
    /// dates rise the last that is dated so, found by halves. It takes no memory.
    pub fn dated_bound(&self, revision: u64, date: &[u8]) -> u64
        ensures within { result ≤ revision }
        ensures undated { IsUndatedSince (held_state self.now) date.now result revision }
    {
        let mut low = self.rising_from;
        let mut top = revision;
        while low < top {
            let middle = top - (top - low) / 2;
            if self.is_dated(middle, date) {
                low = middle;
            } else {
                top = middle - 1;
            }
        }
        top
    }

    /// Says whether the revision's own date is not after the date.
    fn is_dated(&self, revision: u64, date: &[u8]) -> bool
        ensures { result ≡ is_dated (held_state self.now) date.now revision }
    {
        match self.properties(revision) {
            None => false,
            Some(properties) => is_up_to(date, date_of(properties)),
        }
    }
}

/// Gives from where on dates rise, where they did from this revision on but for what is at the place.
pub(crate) fn rising_from(lists: &PVec<Properties>, place: u64, from: u64) -> u64
    requires place { place < length lists.now }
    requires others { RisesButAt lists.now place from }
    ensures { RisesFrom lists.now result }
{
    let count = lists.len() as u64;
    let next = place + 1;
    if rises_to(lists, place) && (next == count || rises_to(lists, next)) {
        from
    } else {
        from.max(next)
    }
}

/// Says whether the revision before the place is dated no later than the one at it.
fn rises_to(lists: &PVec<Properties>, place: u64) -> bool
    ensures { result ≡ true → RisesTo lists.now place }
{
    if place == 0 {
        return true;
    }
    match (lists.get(place as usize - 1), lists.get(place as usize)) {
        (Some(before), Some(list)) => is_no_later(before, list),
        _ => false,
    }
}

/// Says whether the one is dated up to each date that the other is dated up to.
fn is_no_later(one: &Properties, other: &Properties) -> bool
    ensures { result ≡ true → IsNoLater one.now other.now }
{
    match date_of(other) {
        None => true,
        Some(date) => !is_date_text(date) || is_up_to(date, date_of(one)),
    }
}

//! The revision of a date.
ghost use Rattle.std.specs.Prelude.{◌≡◌};
ghost use Rattle.repo_api.specs.Dates.{is_dated};
ghost use Rattle.history.specs.Dates.{dated_rev};

use repo_api::{Repository, date_of, is_up_to};

/// Says whether the revision's own date is not after the date.
fn is_dated<R: Repository>(repository: &R, date: &[u8], revision: u64) -> bool
    ensures { result ≡ is_dated (R.content repository.now) date.now revision }
{
    match repository.revision_properties(revision) {
        None => false,
        Some(properties) => is_up_to(date, date_of(properties)),
    }
}

/// Gives the greatest revision whose `svn:date` is in the form of a date and is not after the given date, which is in
/// that form; 0 where there is none.
pub fn dated_rev<R: Repository>(repository: &R, date: &[u8]) -> u64
    ensures { result ≡ dated_rev (R.content repository.now) date.now }
{
    let mut revision = repository.dated_bound(repository.youngest(), date);
    while revision > 0 {
        if is_dated(repository, date, revision) {
            return revision;
        }
        revision = repository.dated_bound(revision - 1, date);
    }
    0
}

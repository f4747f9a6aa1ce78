//! Logs that go out revision by revision.
ghost use Rattle.std.specs.Prelude.{◌≡◌, ℕ, List, filter, IfOk, OnErr, []};
ghost use Rattle.repo_api.specs.Histories.{history_of};
ghost use Rattle.history.specs.{Logs.{is_of_log, limited, log, revisions_from}, Walks.{next_then, of_coming, is_spent, one_less, to_come, up_to}};

use crate::coming::Coming;
use crate::log_ask::LogAsk;
use crate::walks::Walks;
use repo_api::Repository;
use std::alloc::{AllocError, Global};
use svnpath::Path;

/// A log that goes out revision by revision.
#[derive(Debug, Drop)]
pub struct Log {
    pub coming: Coming,
    pub left: Option<u64>,
}

impl Log {
    /// Opens the log of these paths, each of which exists in the greater of the two revisions; no path means the root.
    pub fn open<R: Repository>(
        alloc: Global,
        repository: &R,
        paths: &[Path],
        ask: LogAsk,
    ) -> Result<Log, AllocError>
        ensures { let h = history_of (R.content repository.now) in
            IfOk result (λ opened. to_come h opened ≡ log h ask paths.now) }
    {
        Ok(Log {
            coming: open_coming(alloc, repository, paths, ask)?,
            left: limit_of(ask.limit),
        })
    }

    /// Gives the next revision of the log, if there is one, over the repository that it was opened over. After an `Err`
    /// none comes any more.
    pub fn next<R: Repository>(
        &mut self,
        alloc: Global,
        repository: &R,
    ) -> Result<Option<u64>, AllocError>
        ensures ok { let h = history_of (R.content repository.now) in
            IfOk result (λ next. to_come h self.old ≡ next_then next (to_come h self.new)) }
        ensures err { let h = history_of (R.content repository.now) in
            OnErr result (to_come h self.new ≡ []) }
    {
        if is_spent(self.left) {
            return Ok(None);
        }
        self.left = one_less(self.left);
        self.coming.next(alloc, repository)
    }
}

/// Opens the log without its limit.
fn open_coming<R: Repository>(
    alloc: Global,
    repository: &R,
    paths: &[Path],
    ask: LogAsk,
) -> Result<Coming, AllocError>
    ensures { let h = history_of (R.content repository.now) in
        IfOk result (λ coming. of_coming h coming
        ≡ filter (is_of_log h ask paths.now) (revisions_from ask.start ask.end)) }
{
    let walks = Walks::begin(alloc, repository, paths, ask)?;
    if ask.end <= ask.start {
        return Ok(Coming::Falling(walks));
    }
    Ok(Coming::Rising(walks.all(alloc, repository)?))
}

/// Gives the limit: as many as asked for, or all where that is 0.
fn limit_of(limit: u64) -> Option<u64>
    ensures { (ns : List ℕ) → up_to result ns ≡ limited limit ns }
{
    if limit == 0 { None } else { Some(limit) }
}

/// Says whether none may come any more.
fn is_spent(left: Option<u64>) -> bool
    ensures { result ≡ is_spent left }
{
    match left {
        None => false,
        Some(left) => left == 0,
    }
}

/// Takes one from how many revisions may still come: 0 stays 0, and `None`, which is no limit, stays `None`.
fn one_less(left: Option<u64>) -> Option<u64>
    ensures { result ≡ one_less left }
{
    match left {
        None => None,
        Some(left) => Some(left.saturating_sub(1)),
    }
}

//! Walks along several traces at once.
ghost use Rattle.std.specs.Prelude.{◌≡◌, ◌≤◌, suc, max, map, filter, IfOk, OnErr, Some, []};
ghost use Rattle.repo_api.specs.Histories.{history_of};
ghost use Rattle.history.specs.Logs.{AreSameNamed, IsNext, is_of_log, log_places, newest_asked, oldest_asked, place_at, revisions_down};
ghost use Rattle.history.specs.Walks.{one_above, above_head, above_heads, of_walks, next_then, IsPast, ArePast, AreFirst};

use crate::listed::Listed;
use crate::log_ask::LogAsk;
use crate::walk::next_listed;
use repo_api::Repository;
use std::alloc::{AllocError, Global};
use std::collections::BTreeSet;
use std::{mem, slice};
use svnpath::Path;
use traces::Place;

/// A walk along each trace of a log, with what it has found and from where it goes on.
#[derive(Debug, Drop)]
pub struct Walks {
    pub strict: bool,
    pub low: u64,
    pub heads: Vec<Option<Listed>>,
}

/// Gives the newest revision that the walks have found.
fn newest(heads: &[Option<Listed>]) -> Option<u64>
    ensures { one_above result ≡ above_heads heads.now }
{
    let mut newest = None;
    for head in heads {
        newest = max_head(newest, head);
    }
    newest
}

/// Gives the greater of the newest revision so far and the one that a walk has found, and `None` where there is
/// neither.
fn max_head(newest: Option<u64>, head: &Option<Listed>) -> Option<u64>
    ensures { one_above result ≡ max (one_above newest) (above_head head.now) }
{
    match (newest, head) {
        (newest, None) => newest,
        (None, Some(listed)) => Some(listed.revision),
        (Some(newest), Some(listed)) => Some(newest.max(listed.revision)),
    }
}

impl Walks {
    /// Begins the walks of a log of these paths, each with the first revision that it finds.
    pub fn begin<R: Repository>(
        alloc: Global,
        repository: &R,
        paths: &[Path],
        ask: LogAsk,
    ) -> Result<Walks, AllocError>
        ensures { let h = history_of (R.content repository.now) in
            IfOk result (λ walks. of_walks h walks ≡ filter (is_of_log h ask paths.now)
            (revisions_down (oldest_asked ask) (suc (newest_asked ask)))) }
    {
        let named = each_named(alloc, paths)?;
        let heads = all_heads(alloc, repository, &named, ask)?;
        Ok(Walks {
            strict: ask.strict,
            low: ask.start.min(ask.end),
            heads,
        })
    }

    /// Gives the next revision, if there is one. After an `Err` none comes any more.
    pub fn next<R: Repository>(
        &mut self,
        alloc: Global,
        repository: &R,
    ) -> Result<Option<u64>, AllocError>
        ensures ok { let h = history_of (R.content repository.now) in
            IfOk result (λ next. of_walks h self.old ≡ next_then next (of_walks h self.new)) }
        ensures err { let h = history_of (R.content repository.now) in
            OnErr result (of_walks h self.new ≡ []) }
    {
        let Some(newest) = newest(self.heads.as_slice()) else {
            return Ok(None);
        };
        let heads = mem::replace(&mut self.heads, Vec::new(alloc));
        self.heads = self.heads_after(alloc, repository, heads, newest)?;
        Ok(Some(newest))
    }

    /// Gives all revisions that are to come.
    pub fn all<R: Repository>(self, alloc: Global, repository: &R) -> Result<Vec<u64>, AllocError>
        ensures { let h = history_of (R.content repository.now) in
            IfOk result (λ found. found.items ≡ of_walks h self) }
    {
        let mut walks = self;
        let mut found = Vec::new(alloc);
        while let Some(revision) = walks.next(alloc, repository)? {
            found.push(revision)?;
        }
        Ok(found)
    }

    /// Moves the walks on past the newest revision that they have found.
    fn heads_after<R: Repository>(
        &self,
        alloc: Global,
        repository: &R,
        heads: Vec<Option<Listed>>,
        newest: u64,
    ) -> Result<Vec<Option<Listed>>, AllocError>
        requires { above_heads heads.items ≤ suc newest }
        ensures { let h = history_of (R.content repository.now) in
            IfOk result (λ next. ArePast h self.now.strict self.now.low newest heads.items
            next.items) }
    {
        let mut left = heads;
        let mut next = Vec::new(alloc);
        while let Some(head) = left.pop() {
            next.push(self.head_after(alloc, repository, head, newest)?)?;
        }
        Ok(next)
    }

    /// Moves the walk on, where it has found this revision.
    fn head_after<R: Repository>(
        &self,
        alloc: Global,
        repository: &R,
        head: Option<Listed>,
        newest: u64,
    ) -> Result<Option<Listed>, AllocError>
        requires { above_head head ≤ suc newest }
        ensures { let h = history_of (R.content repository.now) in
            IfOk result (λ next. IsPast h self.now.strict self.now.low newest head next) }
    {
        match head {
            None => Ok(None),
            Some(listed) => {
                if listed.revision == newest {
                    next_listed(alloc, repository, self.strict, self.low, listed.next)
                } else {
                    Ok(Some(listed))
                }
            }
        }
    }
}

/// Gives each of the paths once.
fn each_named(alloc: Global, paths: &[Path]) -> Result<Vec<Path>, AllocError>
    ensures { IfOk result (λ named. AreSameNamed named.items paths.now) }
{
    let mut seen = BTreeSet::new(alloc);
    let mut named = Vec::new(alloc);
    for path in paths {
        if seen.insert(path.clone()?)? {
            named.push(path.clone()?)?;
        }
    }
    Ok(named)
}

/// Finds what the walks of a log find first: those of the paths, or that of the root.
fn all_heads<R: Repository>(
    alloc: Global,
    repository: &R,
    paths: &[Path],
    ask: LogAsk,
) -> Result<Vec<Option<Listed>>, AllocError>
    ensures { let h = history_of (R.content repository.now) in
        IfOk result (λ heads. AreFirst h ask.strict (oldest_asked ask) (newest_asked ask)
        (log_places ask paths.now) heads.items) }
{
    if paths.is_empty() {
        let root = Path::root(alloc);
        first_heads(alloc, repository, slice::from_ref(&root), ask)
    } else {
        first_heads(alloc, repository, paths, ask)
    }
}

/// Finds what the walks of these paths find first.
fn first_heads<R: Repository>(
    alloc: Global,
    repository: &R,
    paths: &[Path],
    ask: LogAsk,
) -> Result<Vec<Option<Listed>>, AllocError>
    ensures { let h = history_of (R.content repository.now) in
        IfOk result (λ heads. AreFirst h ask.strict (oldest_asked ask) (newest_asked ask)
        (map (place_at (newest_asked ask)) paths.now) heads.items) }
{
    let mut heads = Vec::new(alloc);
    for path in paths {
        heads.push(first_head(alloc, repository, path, ask)?)?;
    }
    Ok(heads)
}

/// Finds what the walk of this path finds first, from the greater of the two revisions back to the lesser, and `None`
/// where it finds nothing.
fn first_head<R: Repository>(
    alloc: Global,
    repository: &R,
    path: &Path,
    ask: LogAsk,
) -> Result<Option<Listed>, AllocError>
    ensures { let h = history_of (R.content repository.now) in
        IfOk result (λ head. IsNext h ask.strict (oldest_asked ask)
        (Some (place_at (newest_asked ask) path.now)) head) }
{
    let place = Place {
        path: path.clone()?,
        revision: ask.start.max(ask.end),
    };
    next_listed(
        alloc,
        repository,
        ask.strict,
        ask.start.min(ask.end),
        Some(place),
    )
}

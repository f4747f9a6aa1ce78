//! What is still to come of a log.
ghost use Rattle.std.specs.Prelude.{◌≡◌, IfOk, OnErr, []};
ghost use Rattle.repo_api.specs.Histories.{history_of};
ghost use Rattle.history.specs.Walks.{next_then, of_coming};

use crate::walks::Walks;
use repo_api::Repository;
use std::alloc::{AllocError, Global};

/// What is still to come of a log: falling revisions, found as they are asked for, or rising ones, the
/// last one first.
#[derive(Debug, Drop)]
pub enum Coming {
    Falling(Walks),
    Rising(Vec<u64>),
}

impl Coming {
    /// Gives the next revision, if there is one. After an `Err` none comes any more.
    pub fn next<R: Repository>(
        &mut self,
        alloc: Global,
        repository: &R,
    ) -> Result<Option<u64>, AllocError>
        ensures ok { let h = history_of (R.content repository.now) in
            IfOk result (λ next. of_coming h self.old ≡ next_then next (of_coming h self.new)) }
        ensures err { let h = history_of (R.content repository.now) in
            OnErr result (of_coming h self.new ≡ []) }
    {
        match self {
            Coming::Falling(walks) => walks.next(alloc, repository),
            Coming::Rising(revisions) => Ok(revisions.pop()),
        }
    }
}

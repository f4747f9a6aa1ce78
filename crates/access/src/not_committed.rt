//! Why a commit was not made, and at which path it is refused.
ghost use Rattle.std.specs.Prelude.{◌≡◌};
ghost use Rattle.repo_api.specs.{Commits.IsRefusedAt, States.IsBeginning};
ghost use Rattle.access.specs.Refused.{IfRefusal, IsToldAs};

use repo_api::{ChangeFault, CommitAsk, Repository};
use std::alloc::AllocError;
use svnpath::Path;

/// Why a commit was not made, and the path at which it is refused, if it is at one.
pub struct NotCommitted {
    pub fault: ChangeFault,
    pub path: Option<Path>,
}

impl Drop for NotCommitted {
    fn drop(self) {
        let NotCommitted { fault: _, path: _ } = self;
    }
}

impl NotCommitted {
    /// Gives the fault and the path.
    pub fn into_parts(self) -> (ChangeFault, Option<Path>)
        ensures fault { result.0 ≡ self.fault }
        ensures path { result.1 ≡ self.path }
    {
        let NotCommitted { fault, path } = self;
        (fault, path)
    }
}

/// Makes the answer to a commit that this repository has not made, with a path at which it is refused, if it was. If
/// memory runs out for the path, that is the fault.
pub fn refused_commit<R: Repository>(
    repository: &R,
    ask: &CommitAsk,
    txn: &R::Txn,
    fault: ChangeFault,
) -> NotCommitted
    requires { IsBeginning (R.txn_state txn.now).shown (R.content repository.now).revisions }
    ensures fault { IsToldAs fault result.fault }
    ensures path { IfRefusal result.fault (IsRefusedAt (R.content repository.now) ask.now
        (R.txn_state txn.now) result.path) }
{
    match fault {
        ChangeFault::Refused(_) => match repository.refused_at(ask, txn) {
            Ok(path) => NotCommitted { fault, path },
            Err(AllocError) => NotCommitted {
                fault: ChangeFault::NoMemory,
                path: None,
            },
        },
        _ => NotCommitted { fault, path: None },
    }
}

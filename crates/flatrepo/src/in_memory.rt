//! What repositories in memory have beside what every repository has.
ghost use Rattle.std.specs.Prelude.{◌≡◌, ◌≤◌, ℕ, List, IfOk, OnOk, OnErr};
ghost use Rattle.dates.specs.{Dates.IsDateText, declared.TheConstants.LAST_MOMENT};
ghost use Rattle.repo_api.specs.{Locking.with_lock, Opening.new_repository};

use repo_api::{Lock, Repository};
use std::alloc::{AllocError, Global};
use svnpath::Path;

/// A repository that lives in memory, and so begins empty.
pub trait InMemory: Repository {
    /// Makes an empty repository: revision 0, whose date is the moment's, a count of microseconds since the beginning
    /// of 1970.
    fn empty(alloc: Global, uuid: u128, moment: u64) -> Result<Self, AllocError>
        requires { moment ≤ LAST_MOMENT }
        ensures { IfOk result (λ r. (date : List ℕ) × IsDateText moment date
            × (Self.content r ≡ new_repository uuid date)) };

    /// Puts a lock at a path, over what stood there, and whatever refuses a lock: for a repository in
    /// which locks stand that nobody asked for here.
    fn plant_lock(&mut self, path: Path, lock: Lock) -> Result<(), AllocError>
        ensures ok { OnOk result (Self.content self.new ≡ with_lock (Self.content self.old) path lock) }
        ensures err { OnErr result (Self.content self.new ≡ Self.content self.old) };
}

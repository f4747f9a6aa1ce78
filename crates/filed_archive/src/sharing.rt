//! A repository in files that threads share.
ghost use Rattle.std.specs.Prelude.{◌≡◌, true, All, IfOk, IsErrOf};
ghost use Rattle.access.specs.Points.{content_of};
ghost use Rattle.repo_api.specs.Soundness.{AreSound};
ghost use Rattle.keepers.specs.Standing.{HaveSeenOpening};
ghost use Rattle.published.specs.Events.{point_of};

use crate::filed_archive::FiledArchive;
use published::{Files, Naming, NewHistory, Published, Shown};
use seats::Seat;
use sharedrepo::SharedRepo;
use std::alloc::Global;
use std::mem::drop;
use store_files::{Store, StoreFault};
use stored_repository::{Filed, StoredRepository};

/// A repository in files that threads share.
pub type ServedRepo<F, S, J> = SharedRepo<F, FiledArchive<F, S>, J>;

/// A seat of it.
pub type ServedSeat<F, J> = Seat<F, J, Shown<Published<F, J>>>;

/// Shares a repository in files, with so many seats. The files stand for it, and each change is saved before it is
/// seen.
///
/// # Errors
///
/// `Halted` where changes have come to a halt already; `NoMemory`.
pub fn share<F: Filed, S: Store, J: Naming>(
    alloc: Global,
    stored: StoredRepository<F, S>,
    seats: usize,
    history: NewHistory,
) -> Result<(ServedRepo<F, S, J>, Vec<ServedSeat<F, J>>), StoreFault>
    requires book { history.seen.book ≡ J.book }
    requires sound { AreSound (F.content stored.repository).revisions }
    ensures opened { IfOk result (λ r. HaveSeenOpening (F.content stored.repository)
        (S.failed stored.saves.store) r.1.items
        × All (λ s. AreSound (content_of (point_of s)).revisions) r.1.items) }
    ensures halted { IsErrOf result StoreFault.Halted → stored.saves.is_halted ≡ true }
{
    let archive = FiledArchive::new(stored);
    if archive.is_halted() {
        drop((archive, history));
        return Err(StoreFault::Halted);
    }
    match archive.repository().share() {
        Ok(repository) => Ok(SharedRepo::<F, FiledArchive<F, S>, J>::open(
            alloc, repository, archive, seats, history,
        )?),
        Err(error) => {
            drop((archive, history));
            Err(StoreFault::from(error))
        }
    }
}

//! What threads serve sessions at: the seats of a repository in files that they share.
ghost use Rattle.std.specs.Prelude.{◌≡◌, All, IfOk, map};
ghost use Rattle.access.specs.Points.{content_of};
ghost use Rattle.keepers.specs.Standing.{HaveSeenOpening};
ghost use Rattle.published.specs.{Events.point_of, Moments.shared_rules};
ghost use Rattle.repo_api.specs.Soundness.{AreSound};
ghost use Rattle.serving.specs.Handing.{HandsIn};
ghost use Rattle.session_pool.specs.Serving.{ServesInTurn, settings_of, stand};

use crate::envs::SystemEnvs;
use crate::fault::ServingFault;
use crate::settings::Server;
use access::SplitAccess;
use crossbeam_channel::Receiver;
use entrance::{ClientVisit, Halts, Registry};
use filed_archive::{ServedAccess, ServedChanges, ServedRepo, ServedSeat, share};
use published::{Naming, NewHistory};
use rand::rngs::StdRng;
use rand_core::Rng;
use session_pool::SessionPool;
use std::alloc::Global;
use std::mem::drop;
use std::net::Net;
use std::random::RandomSource;
use std::sync::{Arc, Wait};
use std::time::Clock;
use store_files::Store;
use stored_repository::{Filed, StoredRepository};

/// A seat of a repository as a session reaches it.
pub type Access<'r, R, F, S, J> = ServedAccess<'r, F, S, J, R>;

/// What a thread serves sessions at: a seat of a repository in files, and what hands moments and words in.
pub struct Desk<'r, R: Clock, F: Filed, S: Store, J: Naming> {
    repository: Arc<ServedRepo<F, S, J>>,
    pub seat: ServedSeat<F, J>,
    rt: &'r R,
    envs: SystemEnvs<'r, R>,
}

impl<'r, R: Clock, F: Filed, S: Store, J: Naming> Drop for Desk<'r, R, F, S, J> {
    fn drop(self) {
        let Desk {
            repository: _,
            seat: _,
            rt: _,
            envs: _,
        } = self;
    }
}

impl<'r, R: Clock + Wait, F: Filed, S: Store, J: Naming> Desk<'r, R, F, S, J> {
    /// Gives the seat as a session reaches it, and what hands moments and words in.
    pub fn into_parts(self) -> (Access<'r, R, F, S, J>, SystemEnvs<'r, R>)
        ensures seat { result.0.looks ≡ self.entry.seat }
        ensures envs { result.1 ≡ self.entry.envs }
    {
        let Desk {
            repository,
            seat,
            rt,
            envs,
        } = self;
        let access = SplitAccess {
            looks: seat,
            changes: ServedChanges::new(repository, rt),
        };
        (access, envs)
    }
}

/// Serves callers at a desk, one after another, until no more can come, each with the options of the server or those of a
/// later reading of the file of users, from the moment that its seat has seen. It gives back what they were served at.
fn serve_callers<'r, R, F, S, J>(
    server: &Server<'_, R>,
    pool: &SessionPool<'_, Registry<'_, R>, Registry<'_, R>>,
    visits: &Receiver<ClientVisit<'_, R>>,
    desk: Desk<'r, R, F, S, J>,
) -> (Access<'r, R, F, S, J>, SystemEnvs<'r, R>)
where
    R: Clock + Net + RandomSource + Wait,
    F: Filed,
    S: Store,
    J: Naming,
    requires options { settings_of pool.now ≡ server.now.settings.now.options }
    requires sound { AreSound (content_of (point_of desk.seat)).revisions }
    ensures { let options = server.now.settings.now.options in ServesInTurn shared_rules
        (λ old env new. HandsIn (⟦<StdRng as Rng>⟧.stream old.words) env
        (⟦<StdRng as Rng>⟧.stream new.words))
        (stand options (point_of desk.entry.seat) desk.entry.envs)
        (stand options (point_of result.0.looks) result.1) }
{
    pool.serve_at(server.rt, server.alloc, visits, desk.into_parts())
}

/// Serves callers at a desk, one after another, until no more can come.
pub(crate) fn work_at<R, F, S, J>(
    server: &Server<'_, R>,
    pool: &SessionPool<'_, Registry<'_, R>, Registry<'_, R>>,
    visits: &Receiver<ClientVisit<'_, R>>,
    desk: Desk<'_, R, F, S, J>,
)
where
    R: Clock + Net + RandomSource + Wait,
    F: Filed,
    S: Store,
    J: Naming,
    requires options { settings_of pool.now ≡ server.now.settings.now.options }
    requires sound { AreSound (content_of (point_of desk.seat)).revisions }
{
    drop(serve_callers(server, pool, visits, desk));
}

/// A repository in files that sessions share.
pub struct SharedFiles<F: Filed, S: Store, J: Naming> {
    repository: Arc<ServedRepo<F, S, J>>,
}

impl<F: Filed, S: Store, J: Naming> Drop for SharedFiles<F, S, J> {
    fn drop(self) {
        let SharedFiles { repository: _ } = self;
    }
}

impl<F: Filed, S: Store, J: Naming> Halts for SharedFiles<F, S, J> {
    fn takes_no_changes(&self) -> bool {
        self.repository.as_ref().has_halted()
    }
}

/// A repository in files that sessions share, with a desk for each of its seats.
pub type Desks<'r, R, F, S, J> = (SharedFiles<F, S, J>, Vec<Desk<'r, R, F, S, J>>);

/// Makes the desk of a seat.
fn desk_of<'r, R, F, S, J>(
    rt: &'r R,
    shared: &SharedFiles<F, S, J>,
    seat: ServedSeat<F, J>,
) -> Result<Desk<'r, R, F, S, J>, ServingFault>
where
    R: Clock + RandomSource + Wait,
    F: Filed,
    S: Store,
    J: Naming,
    ensures { IfOk result (λ d. d.seat ≡ seat) }
{
    let repository = Arc::try_clone(&shared.repository)?;
    let Ok(envs) = SystemEnvs::new(rt) else {
        return Err(ServingFault::Random);
    };
    Ok(Desk {
        repository,
        seat,
        rt,
        envs,
    })
}

/// Makes a desk for each seat.
fn desks_at<'r, R, F, S, J>(
    rt: &'r R,
    alloc: Global,
    shared: &SharedFiles<F, S, J>,
    seats: Vec<ServedSeat<F, J>>,
) -> Result<Vec<Desk<'r, R, F, S, J>>, ServingFault>
where
    R: Clock + RandomSource + Wait,
    F: Filed,
    S: Store,
    J: Naming,
    ensures { IfOk result (λ desks. map (λ d. d.seat) desks.items ≡ seats.items) }
{
    let mut desks = Vec::new(alloc);
    for seat in seats {
        desks.push(desk_of(rt, shared, seat)?)?;
    }
    Ok(desks)
}

/// Lets so many sessions share a repository at a time, and makes a desk for each. Its seat has seen the repository as it
/// was opened.
///
/// # Errors
///
/// `Store` where changes have come to a halt already; `Random` where the system gives no random bytes; `NoMemory`.
pub fn desks_of<'r, R, F, S, J>(
    rt: &'r R,
    alloc: Global,
    stored: StoredRepository<F, S>,
    history: NewHistory,
    sessions: u64,
) -> Result<Desks<'r, R, F, S, J>, ServingFault>
where
    R: Clock + RandomSource + Wait,
    F: Filed,
    S: Store,
    J: Naming,
    requires book { history.seen.book ≡ J.book }
    requires sound { AreSound (F.content stored.repository).revisions }
    ensures opened { IfOk result (λ desks. HaveSeenOpening (F.content stored.repository)
        (S.failed stored.saves.store) (map (λ d. d.seat) desks.1.items)) }
    ensures sound { IfOk result (λ desks. All (λ d. AreSound (content_of (point_of d.seat)).revisions)
        desks.1.items) }
{
    let (repository, seats) = share::<F, S, J>(alloc, stored, sessions as usize, history)?;
    let shared = SharedFiles {
        repository: Arc::new(alloc, repository)?,
    };
    let desks = desks_at(rt, alloc, &shared, seats)?;
    Ok((shared, desks))
}

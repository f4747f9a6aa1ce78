//! A session is served while another waits.
ghost use Rattle.std.specs.Prelude.{◌≡◌, All};
ghost use Rattle.access.specs.Points.{content_of};
ghost use Rattle.published.specs.Events.{point_of};
ghost use Rattle.repo_api.specs.Soundness.{AreSound};

use crate::connections::{AT_ZERO, Call, Client, LOGIN, MemoryVisit, NEVER, WELCOME, callers};
use crate::repositories::{desks_at, empty_repository};
use conversations::{Awaited, Gate, Unwatched};
use crossbeam_channel::Receiver;
use filed_repository::FiledWorld;
use machine::Options;
use published::{Naming, NewHistory};
use serving::Desk;
use session_pool::SessionPool;
use std::alloc::Global;
use std::marker::Brand;
use std::mem::drop;
use std::process::Abort;
use std::random::RandomSource;
use std::sync::Wait;
use std::sync::atomic::{AtomicBool, AtomicU64, Ordering};
use std::thread;
use std::thread::Threads;
use std::time::{Clock, Duration};
use store_files::{MemoryStore, Store};
use stored_repository::Filed;

/// How often the gate looks at the mark at most.
const MOST_TURNS: u64 = 100_000;

/// Holds the second piece of session 1 back until the mark is set, for so many turns at most. Each turn gives the
/// processor up for good, so that the other session's thread is run.
#[derive(Drop)]
struct HoldsBack<'a, C: Clock> {
    clock: &'a C,
    mark: &'a AtomicBool,
    turns: &'a AtomicU64,
}

impl<'a, C: Clock> Gate for HoldsBack<'a, C> {
    fn awaits(&self, _session: u64, _awaited: Awaited) {}

    fn pass(&self, session: u64, piece: u64) {
        if session != 1 || piece != 2 {
            return;
        }
        for turn in 0..MOST_TURNS {
            if self.mark.load(Ordering::SeqCst) {
                self.turns.store(turn, Ordering::SeqCst);
                return;
            }
            thread::yield_now();
            thread::sleep(self.clock, Duration::from_micros(1));
        }
    }
}

/// The first session begins an edit, and is held there.
const OPEN: &[u8] = b"( 2 ( edit-pipeline ) 9:svn://h/r ) ( ANONYMOUS ( 0: ) ) \
      ( commit ( 5:first ( ) false ) ) ( open-root ( ( ) 2:d0 ) ) ";

/// It gives its edit up, and asks for the youngest revision.
const REST: &[u8] = b"( abort-edit ( ) ) ( get-latest-rev ( ) ) ";

/// What it is told behind its login.
const ABORTED: &[u8] = b"( success ( ( ) 0: ) ) ( success ( ) ) ( success ( ) ) \
      ( success ( ( ) 0: ) ) ( success ( 1 ) ) ";

/// The second session commits.
const COMMIT: &[u8] = b"( commit ( 6:second ( ) false ) ) ( open-root ( ( ) 2:d0 ) ) \
      ( add-dir ( 5:trunk 2:d0 2:d1 ( ) ) ) ( close-dir ( 2:d1 ) ) ( close-dir ( 2:d0 ) ) \
      ( close-edit ( ) ) ";

/// What is told before its commit is made.
const SAVED: &[u8] =
    b"( success ( ( ) 0: ) ) ( success ( ) ) ( success ( ) ) ( success ( ( ) 0: ) ) ";

/// How its commit is answered.
const COMMITTED: &[u8] = b"( 1 ( 27:1970-01-01T00:00:00.000000Z ) ( ) ( ) ) ";

/// It asks for the youngest revision, which is its own.
const LATEST: &[u8] = b"( get-latest-rev ( ) ) ";

const YOUNGEST: &[u8] = b"( success ( ( ) 0: ) ) ( success ( 1 ) ) ";

/// Serves callers at a desk, with one moment and one word, until no more can come.
fn work_still<R, F, S, J, G>(
    rt: &R,
    alloc: Global,
    pool: &SessionPool<'_, G, Unwatched>,
    callers: &Receiver<MemoryVisit<'_, R>>,
    desk: Desk<'_, R, F, S, J>,
)
where
    R: Clock + RandomSource + Wait,
    F: Filed,
    S: Store,
    J: Naming,
    G: Gate,
    requires { AreSound (content_of (point_of desk.seat)).revisions }
{
    let (access, _) = desk.into_parts();
    drop(pool.serve_at(rt, alloc, &*callers, (access, AT_ZERO)));
}

/// Serves callers in threads, one for each desk, until no more can come.
fn serve_in_threads<R, J, G>(
    rt: &R,
    alloc: Global,
    pool: &SessionPool<'_, G, Unwatched>,
    callers: &Receiver<MemoryVisit<'_, R>>,
    desks: Vec<Desk<'_, R, FiledWorld, MemoryStore, J>>,
)
where
    J: Naming + Send + Sync + 'static,
    G: Gate + Sync,
    R: Abort + Clock + RandomSource + Threads + Wait + Sync,
    requires { All (λ d. AreSound (content_of (point_of d.seat)).revisions) desks.items }
{
    thread::scope(
        thread::scope_env(),
        rt,
        move |scope|
            requires { All (λ d. AreSound (content_of (point_of d.seat)).revisions) desks.items }
        {
            for desk in desks {
                let worker = scope.spawn(
                    move ||
                        requires { AreSound (content_of (point_of desk.seat)).revisions }
                    { work_still(rt, alloc, pool, callers, desk) },
                );
                assert!(rt; worker.is_ok());
            }
        },
    )
}

/// Serves the two clients, who share an empty repository.
fn serve_two<J, G, R>(
    rt: &R,
    alloc: Global,
    gate: &G,
    clients: (&Client, &Client),
    history: NewHistory,
)
where
    J: Naming + Send + Sync + 'static,
    G: Gate + Sync,
    R: Abort + Clock + RandomSource + Threads + Wait + Sync,
    requires { history.seen.book ≡ J.book }
{
    let options = Options::new(alloc, "r").expect(rt, "memory");
    let pool = SessionPool::new(&options, gate, &Unwatched, 2);
    let calls = [
        Call {
            pieces: &[OPEN, REST],
            client: clients.0,
            room: usize::MAX,
        },
        Call {
            pieces: &[LOGIN, COMMIT, LATEST],
            client: clients.1,
            room: usize::MAX,
        },
    ];
    let from = callers(rt, alloc, &calls);
    let stored = empty_repository(rt, alloc);
    let (_, desks) = desks_at::<R, FiledWorld, MemoryStore, J>(rt, alloc, stored, history, 2);
    serve_in_threads(rt, alloc, &pool, &from, desks);
}

#[test]
fn a_session_is_served_while_another_waits(rt: HostRuntime) {
    let alloc = rt.alloc();
    let (first, second) = (
        Client::new(&rt, alloc, NEVER),
        Client::new(&rt, alloc, COMMITTED),
    );
    let turns = AtomicU64::new(MOST_TURNS);
    let gate = HoldsBack {
        clock: &rt,
        mark: &second.is_told,
        turns: &turns,
    };
    serve_two::<Brand, HoldsBack<'_, HostRuntime>, HostRuntime>(
        &rt,
        alloc,
        &gate,
        (&first, &second),
        NewHistory::new(),
    );
    let is_let_go = turns.load(Ordering::SeqCst) < MOST_TURNS;
    let is_seen = second.has_heard(&rt, &[WELCOME, SAVED, COMMITTED, YOUNGEST]);
    assert!(rt; is_let_go && is_seen && first.has_heard(&rt, &[WELCOME, ABORTED]));
}

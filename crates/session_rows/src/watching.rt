//! What is told of logins, and of the ends of sessions.

use crate::connections::{Call, Client, LOGIN, NEVER, Still, callers};
use crate::repositories::{empty_repository, work_alone};
use conversations::{OpenGate, TalkFault, Watch};
use cram::Users;
use machine::Options;
use session_pool::SessionPool;
use std::sync::atomic::{AtomicU64, Ordering};

/// Counts what it is told: the logins of alice in session 1 and all logins, the logins as alice that session 1 has refused, the
/// sessions that are given up, and those that have ended without a halt.
#[derive(Drop)]
struct Counts {
    of_alice: AtomicU64,
    logins: AtomicU64,
    refused: AtomicU64,
    given_up: AtomicU64,
    ended: AtomicU64,
}

impl Watch for Counts {
    fn logged_in(&self, session: u64, user: &[u8]) {
        self.logins.fetch_add(1, Ordering::SeqCst);
        if session == 1 && user == b"alice".as_slice() {
            self.of_alice.fetch_add(1, Ordering::SeqCst);
        }
    }

    fn refused(&self, session: u64, logins: u64, name: Option<&[u8]>) {
        if session == 1 && name.is_some_and(|name| name == b"alice".as_slice()) {
            self.refused.fetch_add(logins, Ordering::SeqCst);
        }
    }

    fn given_up(&self, _session: u64, _fault: &TalkFault) {
        self.given_up.fetch_add(1, Ordering::SeqCst);
    }

    fn ended(&self, session: u64, is_halted: bool) {
        if !is_halted && (session == 1 || session == 2) {
            self.ended.fetch_add(1, Ordering::SeqCst);
        }
    }
}

/// The client's answer to `<7.1000000@r>` is refused, since its digest is that under another password; then alice logs
/// in. The digests are those of Python's `hmac`, under `Secret` and under `secret`.
static PIECES: [&[u8]; 5] = [
    b"( 2 ( edit-pipeline ) 9:svn://h/r ) ",
    b"( CRAM-MD5 ( ) ) ",
    b"38:alice 17e8937c04f779be38c3f92f4469ca1a ",
    b"( CRAM-MD5 ( ) ) ",
    b"38:alice ad23bd7859dbb026ae4be57869185a5a ",
];

/// What this client is told.
const TOLD: &[u8] =
    b"( success ( 2 2 ( ) ( edit-pipeline absent-entries commit-revprops depth atomic-revprops ) ) ) \
      ( success ( ( ANONYMOUS CRAM-MD5 ) 1:r ) ) ( step ( 13:<7.1000000@r> ) ) \
      ( failure ( 12:login failed ) ) ( step ( 13:<7.1000000@r> ) ) ( success ( ) ) \
      ( success ( 36:00000000-0000-4000-8000-000000000000 9:svn://h/r ( ) ) ) ";

/// Says whether one login of alice and no other, one that was refused, one session that was given up and the ends of
/// the two others were counted.
fn is_counted(counts: &Counts) -> bool {
    counts.of_alice.load(Ordering::SeqCst) == 1
        && counts.logins.load(Ordering::SeqCst) == 1
        && counts.refused.load(Ordering::SeqCst) == 1
        && counts.given_up.load(Ordering::SeqCst) == 1
        && counts.ended.load(Ordering::SeqCst) == 2
}

#[test]
fn logins_and_ends_are_told(rt: HostRuntime) {
    let alloc = rt.alloc();
    let users = Users::read(alloc, b"[users]\nalice = secret\n").expect(&rt, "users");
    let options = Options::new(alloc, "r")
        .expect(&rt, "memory")
        .with_users(users);
    let counts = Counts {
        of_alice: AtomicU64::new(0),
        logins: AtomicU64::new(0),
        refused: AtomicU64::new(0),
        given_up: AtomicU64::new(0),
        ended: AtomicU64::new(0),
    };
    let pool = SessionPool::new(&options, &OpenGate, &counts, 16);
    let (alice, nobody) = (
        Client::new(&rt, alloc, NEVER),
        Client::new(&rt, alloc, NEVER),
    );
    let lost = Client::new(&rt, alloc, NEVER);
    let calls = [
        Call {
            pieces: &PIECES,
            client: &alice,
            room: usize::MAX,
        },
        Call {
            pieces: &[LOGIN],
            client: &nobody,
            room: usize::MAX,
        },
        Call {
            pieces: &[LOGIN],
            client: &lost,
            room: 10,
        },
    ];
    let from = callers(&rt, alloc, &calls);
    let envs = Still {
        moment: 1_000_000,
        nonce: 7,
    };
    work_alone(
        &rt,
        alloc,
        &pool,
        &from,
        (empty_repository(&rt, alloc), envs),
    );
    assert!(rt; alice.has_heard(&rt, &[TOLD]) && is_counted(&counts));
}

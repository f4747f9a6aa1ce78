//! A connection that fails gives its place back, and the next caller is served.

use crate::connections::{AT_ZERO, Call, Client, GREETING, LOGIN, NEVER, WELCOME, callers};
use crate::repositories::{empty_repository, work_alone};
use conversations::{OpenGate, Unwatched};
use machine::Options;
use session_pool::{Admission, SessionPool};
use std::sync::Wait;

const LATEST: &[u8] = b"( get-latest-rev ( ) ) ";

const ZERO: &[u8] = b"( success ( ( ) 0: ) ) ( success ( 0 ) ) ";

/// A pool whose callers go on at once, and of which nobody is told.
type OpenPool<'a> = SessionPool<'a, OpenGate, Unwatched>;

/// Says whether the next connections become the sessions of these numbers, and the one behind them finds no place.
fn is_filled<R: Wait>(rt: &R, pool: &OpenPool<'_>, first: u64, last: u64) -> bool {
    let mut are_admitted = true;
    for number in first..=last {
        are_admitted &= pool.admit(rt) == Admission::Session(number);
    }
    are_admitted && pool.admit(rt) == Admission::Full
}

#[test]
fn a_client_that_takes_no_byte_leaves_its_place_to_the_next(rt: HostRuntime) {
    let alloc = rt.alloc();
    let options = Options::new(alloc, "r").expect(&rt, "memory");
    let pool = SessionPool::new(&options, &OpenGate, &Unwatched, 16);
    let is_full = is_filled(&rt, &pool, 1, 16);
    let (first, second) = (
        Client::new(&rt, alloc, NEVER),
        Client::new(&rt, alloc, NEVER),
    );
    let calls = [
        // no reply behind the greeting is taken
        Call {
            pieces: &[LOGIN, LATEST],
            client: &first,
            room: GREETING.len(),
        },
        Call {
            pieces: &[LOGIN, LATEST],
            client: &second,
            room: usize::MAX,
        },
    ];
    let from = callers(&rt, alloc, &calls);
    work_alone(
        &rt,
        alloc,
        &pool,
        &from,
        (empty_repository(&rt, alloc), AT_ZERO),
    );
    let is_full_again = is_filled(&rt, &pool, 17, 18);
    let are_told = first.has_heard(&rt, &[GREETING]) && second.has_heard(&rt, &[WELCOME, ZERO]);
    assert!(rt; is_full && are_told && is_full_again);
}

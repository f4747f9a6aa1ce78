//! What the system hands in: moments, and words that nobody guesses.

use conversations::EnvSource;
use serving::SystemEnvs;
use std::process::Abort;
use std::time::{Clock, SystemTime, UNIX_EPOCH};

/// Reads the clock, in microseconds since the beginning of 1970.
fn microseconds<C: Abort + Clock>(clock: &C) -> u128 {
    let now = SystemTime::now(clock).expect(clock, "the time");
    let since = now
        .duration_since(UNIX_EPOCH)
        .expect(clock, "a time after 1970");
    since.as_micros()
}

#[test]
fn words_differ_and_moments_are_those_of_the_clock(rt: HostRuntime) {
    let mut envs = SystemEnvs::new(&rt).expect(&rt, "random bytes");
    let before = microseconds(&rt);
    let (first, second) = (envs.next_env(), envs.next_env());
    let after = microseconds(&rt);
    let moments = (u128::from(first.moment), u128::from(second.moment));
    assert!(rt; before <= moments.0 && moments.0 <= moments.1 && moments.1 <= after);
    assert!(rt; first.token != second.token && first.nonce != second.nonce);
}

#[test]
fn words_of_two_sources_differ(rt: HostRuntime) {
    let mut one = SystemEnvs::new(&rt).expect(&rt, "random bytes");
    let mut other = SystemEnvs::new(&rt).expect(&rt, "random bytes");
    let (first, second) = (one.next_env(), other.next_env());
    assert!(rt; first.token != second.token && first.nonce != second.nonce);
}

//! A clock that never goes back.

use std::time::Clock;

/// Gives the moment in milliseconds since an arbitrary one, and 0 where the clock fails.
pub fn millis_now<C: Clock>(clock: &C) -> u64 {
    match clock.monotonic() {
        Ok(time) => u64::try_from(time.as_millis()).unwrap_or(u64::MAX),
        Err(_) => 0,
    }
}

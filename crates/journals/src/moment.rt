//! What the system's clock shows.
ghost use Rattle.std.specs.Prelude.{◌≤◌};
ghost use Rattle.dates.specs.declared.TheConstants.{LAST_MOMENT};

use dates::LAST_MOMENT;
use std::time::{Clock, SystemTime, UNIX_EPOCH};

/// Gives the moment in microseconds since the beginning of 1970: 0 where the clock fails or shows an earlier time, and
/// the last moment where it shows a later one.
pub fn moment_now<C: Clock>(clock: &C) -> u64
    ensures { result ≤ LAST_MOMENT }
{
    let Ok(now) = SystemTime::now(clock) else {
        return 0;
    };
    let Ok(since) = now.duration_since(UNIX_EPOCH) else {
        return 0;
    };
    u64::try_from(since.as_micros())
        .unwrap_or(LAST_MOMENT)
        .min(LAST_MOMENT)
}

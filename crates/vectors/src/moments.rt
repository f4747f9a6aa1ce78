use dates::{LAST_MOMENT, date_text};
use std::alloc::Global;
use std::process::Abort;

/// Says whether a moment has this date.
fn has_date(rt: &impl Abort, alloc: Global, moment: u64, date: &str) -> bool {
    moment <= LAST_MOMENT && date_text(alloc, moment).expect(rt, "memory").as_str() == date
}

static DATES: [(u64, &str); 4] = [
    (0, "1970-01-01T00:00:00.000000Z"),
    (999_999, "1970-01-01T00:00:00.999999Z"),
    (951_827_696_123_456, "2000-02-29T12:34:56.123456Z"),
    (200_000_000_000_000_000, "8307-10-01T19:33:20.000000Z"),
];

#[test]
fn dates_of_moments(rt: HostRuntime) {
    let mut are_right = true;
    for (moment, date) in DATES.iter() {
        are_right &= has_date(&rt, rt.alloc(), *moment, date);
    }
    assert!(rt; are_right);
}

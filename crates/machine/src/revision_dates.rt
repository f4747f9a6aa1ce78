//! Dates of revisions that clients can read.
ghost use Rattle.std.specs.{Prelude.{◌≡◌, length}, List.slice_index};
ghost use Rattle.machine.specs.Dates.{is_month, is_readable_date, is_refused_date, spoils_date};

use byte_string::ByteString;
use repo_api::{PropertyAsk, is_date_text};

/// The first date that clients can read.
const FIRST_DATE: &[u8] = b"1970-01-01T00:00:00.000000Z";

/// Says whether the two digits are those of a month.
fn is_month(tens: u8, ones: u8) -> bool
    ensures { result ≡ is_month tens ones }
{
    if tens == b'0' {
        ones != b'0'
    } else {
        tens == b'1' && ones <= b'2'
    }
}

/// Says whether the month of a text in the form of a date is one.
fn has_month(text: &[u8]) -> bool
    requires { length text.now ≡ 27 }
    ensures { result ≡ is_month (slice_index text.now 5) (slice_index text.now 6) }
{
    is_month(text[5], text[6])
}

/// Says whether clients can read the text as a date.
fn is_readable_date(text: &[u8]) -> bool
    ensures { result ≡ is_readable_date text.now }
{
    is_date_text(text) && has_month(text) && FIRST_DATE.cmp(text).is_le()
}

/// Says whether `svn:date` becomes what no client can read.
fn spoils_date(name: &[u8], value: &Option<ByteString>) -> bool
    ensures { result ≡ spoils_date name.now value.now }
{
    match value {
        None => false,
        Some(value) => { name == b"svn:date".as_slice() && !is_readable_date(value.as_slice()) }
    }
}

/// Says whether a change is refused for the date that it would make: to a client of today alone.
pub fn is_refused_date(is_of_today: bool, ask: &PropertyAsk) -> bool
    ensures { result ≡ is_refused_date is_of_today ask.now }
{
    is_of_today && spoils_date(ask.name.as_slice(), &ask.value)
}

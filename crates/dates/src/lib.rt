//! Dates as the protocol and the revision properties have them.
#![tactic(auto)]

ghost use Rattle.std.specs.Prelude.{◌≤◌, IfOk, string_bytes};
ghost use Rattle.dates.specs.{Dates.IsDateText, declared.TheConstants.LAST_MOMENT};

use byte_string::ByteString;
use jiff::Timestamp;
use jiff::fmt::temporal::DateTimePrinter;
use std::alloc::{AllocError, Global};

/// The last moment that has a date here, in microseconds since the beginning of 1970.
pub const LAST_MOMENT: u64 = 200_000_000_000_000_000;

/// Writes the date of a moment, a count of microseconds since the beginning of 1970: 27 bytes
/// `YYYY-MM-DDThh:mm:ss.uuuuuuZ`.
pub fn date_text(alloc: Global, moment: u64) -> Result<String, AllocError>
    requires { moment ≤ LAST_MOMENT }
    ensures { IfOk result (λ text. IsDateText moment (string_bytes text)) }
{
    let Ok(instant) = Timestamp::from_microsecond(moment as i64) else {
        unreachable!()
    };
    let printer = DateTimePrinter::new().precision(Some(6));
    let text = printer.timestamp_text(instant.to_plain());
    String::from_str(alloc, text.as_str())
}

/// Gives the date of a moment, as `date_text` writes it.
pub fn date_bytes(alloc: Global, moment: u64) -> Result<ByteString, AllocError>
    requires { moment ≤ LAST_MOMENT }
    ensures { IfOk result (λ date. IsDateText moment date) }
{
    Ok(ByteString::new(date_text(alloc, moment)?.into_bytes()))
}

//! Integers: big-endian groups of seven bits, with the high bit set on all bytes but the last.

ghost use Rattle.std.specs.Prelude.{◌<◌, ◌≤◌, ◌^◌, IfOk, IfSome};
ghost use Rattle.svndiff0.specs.{Read.Gives, Integer.{integer_at, bounded_at}};

use crate::fault::DiffFault;

/// The most bytes that an integer may have.
const MAX_BYTES: usize = 9;

/// Reads the integer at the front, and gives the bytes behind it; `None` where it isn't whole.
#[tactic(auto, unfolding(crate::specs::Integer::integer_at))]
pub fn read_integer(bytes: &[u8]) -> Result<Option<(usize, &[u8])>, DiffFault>
    ensures value { Gives (λ x. (x.0, x.1.now)) result (integer_at bytes.now) }
    ensures small { IfOk result (λ found. IfSome found (λ x. x.0 < 2 ^ 63)) }
{
    let mut value = 0;
    let mut rest = bytes;
    for _ in 0..MAX_BYTES {
        let Some((byte, behind)) = rest.split_first() else {
            return Ok(None);
        };
        rest = behind;
        if *byte < 128 {
            return Ok(Some((128 * value + *byte as usize, rest)));
        }
        value = 128 * value + (*byte - 128) as usize;
    }
    if rest.is_empty() {
        Ok(None)
    } else {
        Err(DiffFault::TooLarge)
    }
}

/// Reads an integer that may be at most `most`.
#[tactic(auto, unfolding(crate::specs::Integer::bounded_at))]
pub fn read_bounded(most: usize, bytes: &[u8]) -> Result<Option<(usize, &[u8])>, DiffFault>
    ensures value { Gives (λ x. (x.0, x.1.now)) result (bounded_at most bytes.now) }
    ensures small { IfOk result (λ found. IfSome found (λ x. x.0 ≤ most)) }
{
    match read_integer(bytes)? {
        Some((n, _)) if most < n => Err(DiffFault::TooLarge),
        found => Ok(found),
    }
}

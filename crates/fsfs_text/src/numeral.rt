//! Numbers as text, in decimal and in base 36.
ghost use Rattle.std.specs.{Prelude.{◌≡◌, ◌<◌, ◌≤◌, ◌^◌, ◌-◌, ◌++◌, map, IfSome, OnOk}, Int.Digits.digits_of};
ghost use Rattle.fsfs_text.specs.Numerals.{glyph, numeral, digit_of, with_digit, number_of, decimal_of};

use std::alloc::AllocError;

/// Gives the digit in base 36 that stands for a number.
fn glyph(digit: u8) -> u8
    requires { digit < 36 }
    ensures { result ≡ glyph digit }
{
    if digit < 10 {
        b'0' + digit
    } else {
        b'a' - 10 + digit
    }
}

/// Appends the digits of a number of 64 bits in base 36, none for 0.
fn append_short_digits(out: &mut Vec<u8>, n: u64) -> Result<(), AllocError>
    ensures { OnOk result (out.new.items ≡ out.old.items ++ map glyph (digits_of 36 n)) }
{
    if n == 0 {
        return Ok(());
    }
    append_short_digits(out, n / 36)?;
    out.push(glyph((n % 36) as u8))?;
    Ok(())
}

/// Appends the digits of a number in base 36, none for 0. What fits 64 bits is divided as such,
/// which takes less time.
fn append_digits(out: &mut Vec<u8>, n: u128) -> Result<(), AllocError>
    ensures { OnOk result (out.new.items ≡ out.old.items ++ map glyph (digits_of 36 n)) }
{
    if n <= u64::MAX as u128 {
        return append_short_digits(out, n as u64);
    }
    append_digits(out, n / 36)?;
    out.push(glyph((n % 36) as u8))?;
    Ok(())
}

/// Appends a number in base 36.
#[tactic(auto, unfolding(crate::specs::Numerals::numeral))]
pub fn append_base_36(out: &mut Vec<u8>, n: u128) -> Result<(), AllocError>
    ensures { OnOk result (out.new.items ≡ out.old.items ++ numeral 36 n) }
{
    if n == 0 {
        out.push(b'0')?;
        return Ok(());
    }
    append_digits(out, n)
}

/// Appends a number in decimal.
pub fn append_number(out: &mut Vec<u8>, n: u64) -> Result<(), AllocError>
    ensures { OnOk result (out.new.items ≡ out.old.items ++ numeral 10 n) }
{
    let mut buffer = itoa::Buffer::new();
    out.extend_from_slice(buffer.format(n).as_bytes())
}

/// Gives what a digit stands for.
fn digit_of(byte: u8) -> Option<u8>
    ensures { result ≡ digit_of byte }
{
    match byte {
        b'0'..=b'9' => Some(byte - b'0'),
        b'a'..=b'z' => Some(byte - b'a' + 10),
        _ => None,
    }
}

/// Adds one digit behind the others of a number, where the digit is one of the base and the number
/// stays within the limit.
fn with_digit(base: u8, limit: u128, n: u128, digit: u8) -> Option<u128>
    ensures value { result ≡ with_digit base limit n digit }
    ensures small { IfSome result (λ more. more ≤ limit) }
{
    if digit >= base {
        return None;
    }
    let more = n.checked_mul(base as u128)?.checked_add(digit as u128)?;
    if more <= limit { Some(more) } else { None }
}

/// Reads the number that all of the bytes spell in a base, where it is at most the limit. Zeros may
/// stand in front.
#[tactic(auto, unfolding(crate::specs::Numerals::number_of))]
pub fn parse_number(bytes: &[u8], base: u8, limit: u128) -> Option<u128>
    ensures value { result ≡ number_of base limit bytes.now }
    ensures small { IfSome result (λ n. n ≤ limit) }
{
    if bytes.is_empty() {
        return None;
    }
    let mut n = 0;
    for byte in bytes {
        n = with_digit(base, limit, n, digit_of(*byte)?)?;
    }
    Some(n)
}

/// Reads the number that the bytes spell in decimal, where it is below 2^64.
pub fn parse_decimal(bytes: &[u8]) -> Option<u64>
    ensures { result ≡ decimal_of (2 ^ 64 - 1) bytes.now }
{
    let n = parse_number(bytes, 10, 18_446_744_073_709_551_615)?;
    Some(n as u64)
}

/// Reads the number that the bytes spell in decimal, where it is below 2^32.
pub fn parse_decimal_32(bytes: &[u8]) -> Option<u32>
    ensures { result ≡ decimal_of (2 ^ 32 - 1) bytes.now }
{
    let n = parse_number(bytes, 10, 4_294_967_295)?;
    Some(n as u32)
}

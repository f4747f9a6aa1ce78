// The answer to a challenge.
ghost use Rattle.std.specs.{Prelude.{◌≡◌, ◌↔◌, List, ℕ, length, IsTrue, MatchOption}, List.list_all};
ghost use Rattle.cram.specs.Answer.{IsAnswer, is_lower_digit};

use crate::line::is_user_name;

/// The digits of a digest.
pub const DIGITS_LEN: usize = 32;

/// Reads the name and the digits of an answer, if it is a name, one space and as many lower-case hexadecimal digits as
/// a digest has.
pub fn split_answer(answer: &[u8]) -> Option<(&[u8], &[u8])>
    ensures { MatchOption result
        ((name digits : List ℕ) → IsAnswer answer.now name digits → ⊥)
        (λ parts. IsAnswer answer.now parts.0.now parts.1.now) }
{
    if answer.len() <= DIGITS_LEN {
        return None;
    }
    let space = answer.len() - DIGITS_LEN - 1;
    let name = &answer[..space];
    let digits = &answer[space + 1..];
    if answer[space] == b' ' && is_user_name(name) && are_lower_digits(digits) {
        Some((name, digits))
    } else {
        None
    }
}

/// Says whether each of the bytes is a lower-case hexadecimal digit.
fn are_lower_digits(text: &[u8]) -> bool
    ensures { result ≡ list_all is_lower_digit text.now }
{
    text.iter().all(|b| is_lower_digit(*b))
}

/// Says whether the byte is one of `0` to `9` or `a` to `f`.
fn is_lower_digit(byte: u8) -> bool
    ensures { result ≡ is_lower_digit byte }
{
    byte.is_ascii_digit() || (b'a'..=b'f').contains(&byte)
}

/// Says whether the two texts are the same. Each pair of bytes is looked at, wherever the texts differ.
pub fn are_equal(these: &[u8], those: &[u8]) -> bool
    requires { length these.now ≡ length those.now }
    ensures { IsTrue result ↔ (these.now ≡ those.now) }
{
    let mut difference = 0;
    for (this, that) in these.iter().zip(those) {
        difference |= *this ^ *that;
    }
    difference == 0
}

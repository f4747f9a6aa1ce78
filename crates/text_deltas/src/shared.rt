//! What two texts have in common.
ghost use Rattle.std.specs.Prelude.{◌≡◌, ◌≤◌, ◌+◌, ◌↔◌, IsTrue, drop, length, reverse, take};
ghost use Rattle.text_deltas.specs.Alike.{alike, alike_behind, if_worth, is_near, shared_by};

use std::simd::prelude::*;

/// How far a view reaches to either side of its window, in bytes.
pub(crate) const REACH: usize = 17_000;

/// How many bytes have to be shared, so that it is worth reading the text before.
const WORTH: usize = 64;

/// What is copied from the text before: how long both texts are, in bytes, with how many of them both begin, and with
/// how many of the others both end.
#[derive(Clone, Copy)]
pub struct Shared {
    pub before: usize,
    pub text: usize,
    pub front: usize,
    pub back: usize,
}

/// How many bytes are compared at a time.
const GROUP: usize = 32;

/// Says whether both texts begin with the same group of bytes.
#[inline(always)]
fn is_alike(before: &[u8], text: &[u8]) -> bool
    requires { (32 ≤ length before.now) × (32 ≤ length text.now) }
    ensures { IsTrue result ↔ (take 32 before.now ≡ take 32 text.now) }
{
    u8x32::from_slice(before)
        .simd_eq(u8x32::from_slice(text))
        .all()
}

/// Counts the bytes of the groups with which both texts begin.
fn alike_in_groups(before: &[u8], text: &[u8]) -> usize
    ensures { result + alike (drop result before.now) (drop result text.now)
        ≡ alike before.now text.now }
{
    let both = before.len().min(text.len());
    let mut count = 0;
    while GROUP <= both - count && is_alike(&before[count..], &text[count..]) {
        count += GROUP;
    }
    count
}

/// Counts the bytes with which both texts begin.
fn alike(before: &[u8], text: &[u8]) -> usize
    ensures { result ≡ alike before.now text.now }
{
    let mut count = alike_in_groups(before, text);
    while count < before.len() && count < text.len() && before[count] == text[count] {
        count += 1;
    }
    count
}

/// Counts the bytes of the groups with which both texts end.
fn alike_in_groups_at_end(before: &[u8], text: &[u8]) -> usize
    ensures { result + alike (drop result (reverse before.now)) (drop result (reverse text.now))
        ≡ alike (reverse before.now) (reverse text.now) }
{
    let both = before.len().min(text.len());
    let mut count = 0;
    while GROUP <= both - count
        && is_alike(
            &before[before.len() - count - GROUP..],
            &text[text.len() - count - GROUP..],
        )
    {
        count += GROUP;
    }
    count
}

/// Counts the bytes with which both texts end.
fn alike_at_end(before: &[u8], text: &[u8]) -> usize
    ensures { result ≡ alike (reverse before.now) (reverse text.now) }
{
    let mut count = alike_in_groups_at_end(before, text);
    while count < before.len()
        && count < text.len()
        && before[before.len() - 1 - count] == text[text.len() - 1 - count]
    {
        count += 1;
    }
    count
}

/// Says whether the lengths of two texts are near to one another.
fn is_near(before: usize, text: usize) -> bool
    ensures { result ≡ is_near before text }
{
    before <= text.saturating_add(REACH) && text <= before.saturating_add(REACH)
}

/// Counts the bytes with which both texts end, without so many at the front.
fn alike_behind(front: usize, before: &[u8], text: &[u8]) -> usize
    requires { (front ≤ length before.now) × (front ≤ length text.now) }
    ensures { result ≡ alike_behind front before.now text.now }
{
    if is_near(before.len(), text.len()) {
        alike_at_end(&before[front..], &text[front..])
    } else {
        0
    }
}

/// Gives what is shared, if it is worth reading the text before.
fn if_worth(shared: Shared) -> Shared
    ensures { result ≡ if_worth shared }
{
    if shared.front.saturating_add(shared.back) < WORTH {
        Shared {
            before: 0,
            text: shared.text,
            front: 0,
            back: 0,
        }
    } else {
        shared
    }
}

/// Finds what is copied.
pub(crate) fn find_shared(before: &[u8], text: &[u8]) -> Shared
    ensures { result ≡ shared_by before.now text.now }
{
    let front = alike(before, text);
    if_worth(Shared {
        before: before.len(),
        text: text.len(),
        front,
        back: alike_behind(front, before, text),
    })
}

//! Bytes that are the same.
ghost use Rattle.std.specs.Prelude.{◌≡◌, ◌≤◌, ◌↔◌, IsTrue, true, length, take};

use std::simd::prelude::*;

/// How many bytes are compared at a time.
const GROUP: usize = 32;

/// Says whether both begin with the same group of bytes.
#[inline(always)]
fn is_group_same(bytes: &[u8], others: &[u8]) -> bool
    requires { (32 ≤ length bytes.now) × (32 ≤ length others.now) }
    ensures { IsTrue result ↔ (take 32 bytes.now ≡ take 32 others.now) }
{
    u8x32::from_slice(bytes)
        .simd_eq(u8x32::from_slice(others))
        .all()
}

/// Counts bytes of groups with which both begin.
fn same_groups(bytes: &[u8], others: &[u8]) -> usize
    ensures within { (result ≤ length bytes.now) × (result ≤ length others.now) }
    ensures same { take result bytes.now ≡ take result others.now }
{
    let both = bytes.len().min(others.len());
    let mut count = 0;
    while GROUP <= both - count && is_group_same(&bytes[count..], &others[count..]) {
        count += GROUP;
    }
    count
}

/// Counts the bytes with which both begin.
pub(crate) fn same_front(bytes: &[u8], others: &[u8]) -> usize
    ensures within { (result ≤ length bytes.now) × (result ≤ length others.now) }
    ensures same { take result bytes.now ≡ take result others.now }
{
    let mut count = same_groups(bytes, others);
    while count < bytes.len() && count < others.len() && bytes[count] == others[count] {
        count += 1;
    }
    count
}

/// Counts bytes of groups with which both end.
fn same_groups_at_end(bytes: &[u8], others: &[u8]) -> usize
    ensures { (result ≤ length bytes.now) × (result ≤ length others.now) }
{
    let both = bytes.len().min(others.len());
    let mut count = 0;
    while GROUP <= both - count
        && is_group_same(
            &bytes[bytes.len() - count - GROUP..],
            &others[others.len() - count - GROUP..],
        )
    {
        count += GROUP;
    }
    count
}

/// Counts the bytes with which both end.
pub(crate) fn same_back(bytes: &[u8], others: &[u8]) -> usize
    ensures { (result ≤ length bytes.now) × (result ≤ length others.now) }
{
    let mut count = same_groups_at_end(bytes, others);
    while count < bytes.len()
        && count < others.len()
        && bytes[bytes.len() - 1 - count] == others[others.len() - 1 - count]
    {
        count += 1;
    }
    count
}

/// Says whether these are the same bytes.
pub(crate) fn is_same(bytes: &[u8], others: &[u8]) -> bool
    ensures { result ≡ true → bytes.now ≡ others.now }
{
    bytes.len() == others.len() && same_front(bytes, others) == bytes.len()
}

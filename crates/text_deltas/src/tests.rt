//! Bytes of deltas that were worked out by hand, and deltas of long texts that are applied.

use crate::Delta;
use std::alloc::Global;
use std::process::Abort;
use std::sync::Arc;
use svndiff0::{Applier, HEADER};

/// Makes the windows of a delta, one after another.
fn windows_of(rt: &impl Abort, alloc: Global, before: &[u8], text: &[u8]) -> Vec<u8> {
    let mut all = Vec::new(alloc);
    let delta = Delta::new(before, text);
    for place in 0..delta.count() {
        let window = delta.window(alloc, place).expect(rt, "memory");
        all.extend_from_slice(window.as_slice())
            .expect(rt, "memory");
    }
    all
}

/// Appends the first `front` bytes of a text, new bytes, and its bytes from the place `back` on.
fn splice(
    rt: &impl Abort,
    alloc: Global,
    text: &[u8],
    front: usize,
    new: &[u8],
    back: usize,
) -> Vec<u8> {
    let mut all = Vec::new(alloc);
    let (first, _) = text.split_at(text.len().min(front));
    let (_, last) = text.split_at(text.len().min(back));
    all.extend_from_slice(first).expect(rt, "memory");
    all.extend_from_slice(new).expect(rt, "memory");
    all.extend_from_slice(last).expect(rt, "memory");
    all
}

/// Makes so many bytes, which follow from a seed.
fn bytes_from(rt: &impl Abort, alloc: Global, seed: u64, count: usize) -> Vec<u8> {
    let mut bytes = Vec::new(alloc);
    let mut state = seed;
    for _ in 0..count {
        state = state
            .wrapping_mul(6_364_136_223_846_793_005)
            .wrapping_add(1_442_695_040_888_963_407);
        bytes.push((state >> 56) as u8).expect(rt, "memory");
    }
    bytes
}

/// Says whether the windows of a delta, and how many they are, and the text that they are applied to give.
fn is_applied(rt: &impl Abort, alloc: Global, before: &[u8], text: &[u8]) -> bool {
    let base = Arc::new(alloc, Vec::from_slice(alloc, before).expect(rt, "memory")).expect(
        rt, "memory",
    );
    let mut applier = Applier::new(alloc, base);
    let is_fed = applier.feed(&HEADER).is_ok()
        && applier
            .feed(windows_of(rt, alloc, before, text).as_slice())
            .is_ok();
    is_fed && applier.text() == Ok(text)
}

/// Says whether a delta has these windows.
fn has_windows(rt: &impl Abort, alloc: Global, before: &[u8], text: &[u8], want: &[u8]) -> bool {
    windows_of(rt, alloc, before, text).as_slice() == want
}

/// Says whether these deltas have the bytes that were worked out by hand: a short text, a byte changed and one
/// inserted in the middle, and a text of two windows that stays the same.
fn are_as_by_hand(rt: &impl Abort, alloc: Global) -> bool {
    let same = [b'a'; 200];
    let mut changed = same;
    changed[100] = b'b';
    let inserted = splice(rt, alloc, &changed, 100, b"c", 100);
    let long = [b'a'; 100_000];
    has_windows(
        rt,
        alloc,
        b"two\n",
        b"three\n",
        b"\0\0\x06\x01\x06\x86three\n",
    ) && has_windows(
        rt,
        alloc,
        &same,
        &changed,
        b"\0\x81\x48\x81\x48\x07\x01\0\x64\0\x81\0\x63\x65b",
    ) && has_windows(
        rt,
        alloc,
        &changed,
        inserted.as_slice(),
        b"\0\x81\x48\x81\x49\x07\x01\0\x64\0\x81\0\x64\x64c",
    ) && has_windows(
        rt,
        alloc,
        &long,
        &long,
        b"\0\x85\x84\x68\x84\x80\0\x05\0\0\x84\x80\0\0\
              \x82\xfb\x18\x83\x92\x08\x82\x8d\x20\x07\0\0\x82\x8d\x20\x81\x84\x68",
    )
}

/// Says whether deltas to texts made of a long one give them.
fn are_applied(rt: &impl Abort, alloc: Global) -> bool {
    let long = bytes_from(rt, alloc, 1, 200_000);
    let other = bytes_from(rt, alloc, 2, 5_000);
    let mut are_right = is_applied(rt, alloc, b"", long.as_slice())
        && is_applied(rt, alloc, long.as_slice(), b"");
    for (front, back) in [
        (200_000, 200_000),
        (0, 0),
        (70_000, 90_000),
        (70_000, 100_000),
        (65_500, 65_500),
    ] {
        let text = splice(rt, alloc, long.as_slice(), front, other.as_slice(), back);
        are_right &= is_applied(rt, alloc, long.as_slice(), text.as_slice());
        are_right &= is_applied(rt, alloc, text.as_slice(), long.as_slice());
    }
    are_right
}

#[test]
fn by_hand(rt: HostRuntime) {
    assert!(rt; are_as_by_hand(&rt, rt.alloc()));
}

#[test]
fn applied(rt: HostRuntime) {
    assert!(rt; are_applied(&rt, rt.alloc()));
}

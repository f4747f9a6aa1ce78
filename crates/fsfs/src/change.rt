//! What is new in the text of a directory, compared with one whose entries are known.
ghost use Rattle.std.specs.Prelude.{◌≡◌, ◌≤◌, ◌+◌, ◌-◌, ◌++◌, OnOk, IfOk, IfSome, length, take, drop};
ghost use Rattle.fsfs.specs.Known.{IsKnown, total};

use crate::listed::{Listed, listed_between};
use crate::same::{is_same, same_back, same_front};
use std::alloc::{AllocError, Global};

/// How many bytes the end of a text has.
const END: usize = 4;

/// Says which entries are those of a text before: so many first ones, and those from a place on; and how many bytes they have,
/// the last ones with the end of the text.
#[derive(Clone, Copy)]
struct Cut {
    front: usize,
    end: usize,
    begin: usize,
    tail: usize,
}

/// Holds entries that replace those from a place up to another.
#[derive(Drop)]
pub(crate) struct Change {
    pub front: usize,
    pub end: usize,
    pub listed: Listed,
}

/// Counts the first entries that have at most so many bytes, and their bytes.
#[tactic(auto, using(crate::proofs::KnownTexts::total_more))]
fn front_within(lengths: &[usize], most: usize) -> (usize, usize)
    ensures within { result.0 ≤ length lengths.now }
    ensures most { result.1 ≤ most }
    ensures bytes { result.1 ≡ total (take result.0 lengths.now) }
{
    let mut front = 0;
    let mut begin = 0;
    while front < lengths.len() {
        let length = lengths[front];
        if length > most - begin {
            return (front, begin);
        }
        begin += length;
        front += 1;
    }
    (front, begin)
}

/// Gives the place, from a place on, from which all entries have at most so many bytes, and their bytes.
#[tactic(auto, using(crate::proofs::KnownTexts::total_back))]
fn back_within(lengths: &[usize], front: usize, most: usize) -> (usize, usize)
    requires { front ≤ length lengths.now }
    ensures within { (front ≤ result.0) × (result.0 ≤ length lengths.now) }
    ensures most { result.1 ≤ most }
    ensures bytes { result.1 ≡ total (drop result.0 lengths.now) }
{
    let mut end = lengths.len();
    let mut tail = 0;
    while end > front {
        let length = lengths[end - 1];
        if length > most - tail {
            return (end, tail);
        }
        tail += length;
        end -= 1;
    }
    (end, tail)
}

/// Finds which entries of a text may be those of a text before.
fn find_cut(old: &[u8], lengths: &[usize], text: &[u8]) -> Option<Cut>
    ensures { IfSome result (λ cut. (cut.front ≤ cut.end) × (cut.end ≤ length lengths.now)
        × (cut.begin ≡ total (take cut.front lengths.now))
        × (cut.tail ≡ total (drop cut.end lengths.now) + 4)) }
{
    let (front, begin) = front_within(lengths, same_front(old, text));
    let same = same_back(&old[begin..], &text[begin..]);
    if same < END {
        return None;
    }
    let (end, tail) = back_within(lengths, front, same - END);
    Some(Cut {
        front,
        end,
        begin,
        tail: tail + END,
    })
}

/// Cuts so many bytes off at the front and at the back.
#[tactic(auto, using(crate::proofs::KnownTexts::cut_front, crate::proofs::KnownTexts::cut_whole))]
fn cut_at(bytes: &[u8], begin: usize, tail: usize) -> Option<(&[u8], &[u8], &[u8])>
    ensures whole { IfSome result (λ cut. bytes.now ≡ cut.0.now ++ cut.1.now ++ cut.2.now) }
    ensures front { IfSome result (λ cut. cut.0.now ≡ take begin bytes.now) }
    ensures back { IfSome result (λ cut. cut.2.now ≡ drop (length bytes.now - tail) bytes.now) }
{
    let most = bytes.len();
    if tail > most || begin > most - tail {
        return None;
    }
    let (rest, back) = bytes.split_at(most - tail);
    let (front, part) = rest.split_at(begin);
    Some((front, part, back))
}

/// Gives what is between so many bytes at the front and at the back, if they are those of a text before.
fn between<'a>(old: &[u8], text: &'a [u8], begin: usize, tail: usize) -> Option<&'a [u8]>
    ensures { IfSome result (λ part. text.now
        ≡ take begin old.now ++ part.now ++ drop (length old.now - tail) old.now) }
{
    let (front, part, back) = cut_at(text, begin, tail)?;
    let (old_front, _, old_back) = cut_at(old, begin, tail)?;
    if is_same(front, old_front) && is_same(back, old_back) {
        Some(part)
    } else {
        None
    }
}

/// Finds what is new in a text, compared with one whose entries are known, if both are those which are written for their
/// entries.
#[tactic(auto, using(crate::proofs::KnownTexts::spliced))]
pub(crate) fn change_of(
    alloc: Global,
    old: &[u8],
    listed: &Listed,
    text: &[u8],
) -> Result<Option<Change>, AllocError>
    requires { IsKnown old.now listed.now.lengths.items listed.now.entries.items }
    ensures within { IfOk result (λ found. IfSome found (λ change. (change.front ≤ change.end)
        × (change.end ≤ length listed.now.entries.items)
        × (change.end ≤ length listed.now.lengths.items))) }
    ensures known { IfOk result (λ found. IfSome found (λ change. IsKnown text.now
        (take change.front listed.now.lengths.items ++ change.listed.lengths.items
        ++ drop change.end listed.now.lengths.items)
        (take change.front listed.now.entries.items ++ change.listed.entries.items
        ++ drop change.end listed.now.entries.items))) }
{
    let Some(cut) = find_cut(old, listed.lengths.as_slice(), text) else {
        return Ok(None);
    };
    let Some(part) = between(old, text, cut.begin, cut.tail) else {
        return Ok(None);
    };
    match listed_between(alloc, part)? {
        Some(listed) => Ok(Some(Change {
            front: cut.front,
            end: cut.end,
            listed,
        })),
        None => Ok(None),
    }
}

/// Puts what is in a list in place of what is in another one from a place up to another. An `Err` may leave a part of it.
fn put_between<T: Drop>(
    list: &mut Vec<T>,
    front: usize,
    end: usize,
    part: &mut Vec<T>,
) -> Result<(), AllocError>
    requires order { front ≤ end }
    requires within { end ≤ length list.old.items }
    ensures { OnOk result (list.new.items
        ≡ take front list.old.items ++ part.old.items ++ drop end list.old.items) }
{
    let mut back = list.split_off(end)?;
    list.truncate(front);
    list.append(part)?;
    list.append(&mut back)
}

/// Puts new entries in their places.
pub(crate) fn apply(listed: &mut Listed, change: &mut Change) -> Result<(), AllocError>
    requires order { change.old.front ≤ change.old.end }
    requires entries { change.old.end ≤ length listed.old.entries.items }
    requires lengths { change.old.end ≤ length listed.old.lengths.items }
    ensures entries { OnOk result (listed.new.entries.items
        ≡ take change.old.front listed.old.entries.items ++ change.old.listed.entries.items
        ++ drop change.old.end listed.old.entries.items) }
    ensures lengths { OnOk result (listed.new.lengths.items
        ≡ take change.old.front listed.old.lengths.items ++ change.old.listed.lengths.items
        ++ drop change.old.end listed.old.lengths.items) }
{
    let front = change.front;
    let end = change.end;
    put_between(&mut listed.entries, front, end, &mut change.listed.entries)?;
    put_between(&mut listed.lengths, front, end, &mut change.listed.lengths)
}

//! Ranges of revisions as text.
ghost use Rattle.std.specs.{Prelude.{◌≡◌, ◌<◌, ◌≤◌, ◌++◌, IfOk, OnOk, IfSome, All, option_map}, List.slice_split};
ghost use Rattle.mergeinfo.specs.{Maybe.each, Ranges.IsRightRange};
ghost use Rattle.mergeinfo.specs.Texts.{is_comma, revision_of, span_of, range_of, ranges_of, span_text, range_text, ranges_text};
ghost use Rattle.mergeinfo.specs.declared.range.TheConstants.{LAST_REVISION};

use crate::normal::are_at_odds;
use fsfs_text::{append_number, parse_number, split_once};
use std::alloc::{AllocError, Global};

/// The last revision that a range may have.
pub const LAST_REVISION: u32 = 2_147_483_647;

/// The most digits of a revision.
const MOST_DIGITS: usize = 10;

/// Holds the revisions from the first to the last, both among them. Entries beneath the one that has the range inherit it
/// or not.
#[derive(Clone, Copy, Debug, PartialEq, Eq)]
pub struct Range {
    pub first: u32,
    pub last: u32,
    pub is_inheritable: bool,
}

/// Reads a revision above 0.
#[tactic(auto, unfolding(crate::specs::Texts::revision_of))]
fn parse_revision(digits: &[u8]) -> Option<u32>
    ensures value { result ≡ revision_of digits.now }
    ensures right { IfSome result (λ revision. (0 < revision) × (revision ≤ LAST_REVISION)) }
{
    if digits.len() > MOST_DIGITS {
        return None;
    }
    let revision = parse_number(digits, 10, LAST_REVISION as u128)?;
    if revision == 0 {
        None
    } else {
        Some(revision as u32)
    }
}

/// Reads one revision, or the first and the last of some with `-` between them.
fn parse_span(text: &[u8], is_inheritable: bool) -> Option<Range>
    ensures value { result ≡ span_of is_inheritable text.now }
    ensures right { IfSome result IsRightRange }
{
    match split_once(text, b'-') {
        None => {
            let revision = parse_revision(text)?;
            Some(Range {
                first: revision,
                last: revision,
                is_inheritable,
            })
        }
        Some((first, last)) => {
            let first = parse_revision(first)?;
            let last = parse_revision(last)?;
            if first < last {
                Some(Range {
                    first,
                    last,
                    is_inheritable,
                })
            } else {
                None
            }
        }
    }
}

/// Reads a range, which a `*` at its end makes one that is not inheritable.
#[tactic(auto, unfolding(crate::specs::Texts::range_of))]
fn parse_range(text: &[u8]) -> Option<Range>
    ensures value { result ≡ range_of text.now }
    ensures right { IfSome result IsRightRange }
{
    match text.strip_suffix(b"*".as_slice()) {
        Some(span) => parse_span(span, false),
        None => parse_span(text, true),
    }
}

/// Reads the ranges between commas, if each of the parts is one.
fn parse_each(alloc: Global, text: &[u8]) -> Result<Option<Vec<Range>>, AllocError>
    ensures value { IfOk result (λ ranges. option_map (λ v. v.items) ranges
        ≡ each range_of (slice_split is_comma text.now)) }
    ensures right { IfOk result (λ ranges. IfSome ranges (λ v. All IsRightRange v.items)) }
{
    let mut ranges = Vec::new(alloc);
    for part in text.split(|byte| *byte == b',') {
        match parse_range(part) {
            Some(range) => ranges.push(range)?,
            None => return Ok(None),
        }
    }
    Ok(Some(ranges))
}

/// Reads ranges with commas between them, of which no two are at odds.
#[tactic(auto, unfolding(crate::specs::Texts::ranges_of))]
pub(crate) fn parse_ranges(alloc: Global, text: &[u8]) -> Result<Option<Vec<Range>>, AllocError>
    ensures { IfOk result (λ ranges. option_map (λ v. v.items) ranges ≡ ranges_of text.now) }
{
    let Some(ranges) = parse_each(alloc, text)? else {
        return Ok(None);
    };
    if are_at_odds(alloc, ranges.as_slice())? {
        return Ok(None);
    }
    Ok(Some(ranges))
}

/// Appends the revision, or the first and the last with `-` between them.
fn append_span(out: &mut Vec<u8>, first: u32, last: u32) -> Result<(), AllocError>
    ensures { OnOk result (out.new.items ≡ out.old.items ++ span_text first last) }
{
    append_number(out, first as u64)?;
    if first == last {
        return Ok(());
    }
    out.push(b'-')?;
    append_number(out, last as u64)
}

/// Appends a range.
fn append_range(out: &mut Vec<u8>, range: Range) -> Result<(), AllocError>
    ensures { OnOk result (out.new.items ≡ out.old.items ++ range_text range) }
{
    append_span(out, range.first, range.last)?;
    if !range.is_inheritable {
        out.push(b'*')?;
    }
    Ok(())
}

/// Appends ranges, with commas between them.
pub(crate) fn append_ranges(out: &mut Vec<u8>, ranges: &[Range]) -> Result<(), AllocError>
    ensures { OnOk result (out.new.items ≡ out.old.items ++ ranges_text ranges.now) }
{
    let Some((first, others)) = ranges.split_first() else {
        return Ok(());
    };
    append_range(out, *first)?;
    for range in others {
        out.push(b',')?;
        append_range(out, *range)?;
    }
    Ok(())
}

//! Ranges of revisions in order.
ghost use Rattle.std.specs.{Prelude.{◌≡◌, ℕ, IfOk, All}, List.Sorted.{IsPermutation, IsNonDecreasingBy}};
ghost use Rattle.mergeinfo.specs.{Ranges.{some_are_at_odds, IsRightRange}, Sweeps.IsInOrderOf};

use crate::range::Range;
use crate::sweep::Sweep;
use std::alloc::{AllocError, Global};

/// Copies ranges, and sorts them by their first revisions.
fn by_first(alloc: Global, ranges: &[Range]) -> Result<Vec<Range>, AllocError>
    ensures same { IfOk result (λ sorted. IsPermutation ranges.now sorted.items) }
    ensures sorted { IfOk result (λ sorted. IsNonDecreasingBy (λ range. range.first)
        sorted.items) }
{
    let mut sorted = Vec::from_slice(alloc, ranges)?;
    sorted.sort_by_key(|range| range.first)?;
    Ok(sorted)
}

/// Says whether two of the ranges, one inheritable and the other not, have a revision in common.
pub(crate) fn are_at_odds(alloc: Global, ranges: &[Range]) -> Result<bool, AllocError>
    requires { All IsRightRange ranges.now }
    ensures { IfOk result (λ answer. answer ≡ some_are_at_odds ranges.now) }
{
    let sorted = by_first(alloc, ranges)?;
    let mut inheritable_end = 0_u64;
    let mut other_end = 0_u64;
    for range in sorted.as_slice() {
        let first = range.first as u64;
        let end = range.last as u64 + 1;
        if range.is_inheritable {
            if first < other_end {
                return Ok(true);
            }
            inheritable_end = inheritable_end.max(end);
        } else {
            if first < inheritable_end {
                return Ok(true);
            }
            other_end = other_end.max(end);
        }
    }
    Ok(false)
}

/// Puts ranges in order: those that touch or overlap become one where they are of one kind, and what is in ranges of both
/// kinds is inheritable.
pub(crate) fn in_order(alloc: Global, ranges: &[Range]) -> Result<Vec<Range>, AllocError>
    ensures { IfOk result (λ ordered. IsInOrderOf ranges.now ordered.items) }
{
    let sorted = by_first(alloc, ranges)?;
    let mut sweep = Sweep::new(alloc);
    for range in sorted.as_slice() {
        sweep.take(*range)?;
    }
    sweep.finish()
}

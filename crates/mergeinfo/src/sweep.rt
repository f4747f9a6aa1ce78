//! Ranges that are put in order, from the first revision on.
ghost use Rattle.std.specs.Prelude.{◌≡◌, ℕ, ◌≤◌, ◌<◌, ◌++◌, ◌∷◌, ◌^◌, ◌+◌, [], List, Bool, ◌&&◌, ◌==◌, true, max, IfOk, OnOk};
ghost use Rattle.mergeinfo.specs.Ranges.{has, has_inheritable, AreInOrder, same_kind};
ghost use Rattle.mergeinfo.specs.{Sweeps.{end_of, IsInOrderOf, IsOpenFrom, IsPushed, IsSweptTo, IsWrittenTo}, declared.range.Range.Range};

use crate::range::Range;
use std::alloc::{AllocError, Global};

/// No revision is so high.
const REVISIONS_END: u64 = 4_294_967_296;

/// Goes up along ranges that are sorted by their first revisions.
#[derive(Drop)]
pub(crate) struct Sweep {
    /// What is written, in order: all revisions below the place.
    written: Vec<Range>,
    place: u64,
    /// The ranges so far end before these revisions: those that are inheritable, and the others.
    inheritable_end: u64,
    other_end: u64,
}

/// Says whether the next range, of the same kind, begins where this one ends.
fn goes_on(range: Range, next: Range) -> bool
    ensures { result ≡ (same_kind range.is_inheritable next.is_inheritable
        && (range.last + 1 == next.first)) }
{
    range.is_inheritable == next.is_inheritable && range.last as u64 + 1 == next.first as u64
}

/// Puts a range after the others, of which the last becomes longer if it goes on.
fn push(ranges: &mut Vec<Range>, range: Range) -> Result<(), AllocError>
    ensures { AreInOrder ranges.old.items → end_of ranges.old.items ≤ range.first
        → range.first ≤ range.last
        → OnOk result (IsPushed ranges.old.items range ranges.new.items) }
{
    let Some(last) = ranges.pop() else {
        ranges.push(range)?;
        return Ok(());
    };
    if goes_on(last, range) {
        ranges.push(Range {
            last: range.last,
            ..last
        })?;
        return Ok(());
    }
    ranges.push(last)?;
    ranges.push(range)?;
    Ok(())
}

impl Sweep {
    /// Begins before the first range.
    pub(crate) fn new(alloc: Global) -> Self
        ensures { IsSweptTo 0 [] result }
    {
        Sweep {
            written: Vec::new(alloc),
            place: 0,
            inheritable_end: 0,
            other_end: 0,
        }
    }

    /// Writes the revisions from the place to the end, if there are any, as a range of that kind.
    fn write(&mut self, end: u64, is_inheritable: bool) -> Result<(), AllocError>
        requires { end ≤ 2 ^ 32 }
        ensures place { OnOk result (self.new.place ≡ max self.old.place end) }
        ensures inheritable_end { self.new.inheritable_end ≡ self.old.inheritable_end }
        ensures other_end { self.new.other_end ≡ self.old.other_end }
        ensures written { (ranges : List Range)
            → IsWrittenTo self.old.place ranges self.old.written.items
            → ((revision : ℕ) → self.old.place ≤ revision → revision < end
            → (has revision ranges ≡ true)
            × (has_inheritable revision ranges ≡ is_inheritable))
            → OnOk result (IsWrittenTo self.new.place ranges self.new.written.items) }
    {
        if self.place < end {
            let range = Range {
                first: self.place as u32,
                last: (end - 1) as u32,
                is_inheritable,
            };
            push(&mut self.written, range)?;
            self.place = end;
        }
        Ok(())
    }

    /// Writes what the ranges so far have below that revision, and goes there.
    fn go_to(&mut self, place: u64) -> Result<(), AllocError>
        requires { place ≤ 2 ^ 32 }
        ensures { (ranges : List Range) → self.old.place ≤ place
            → IsSweptTo self.old.place ranges self.old
            → OnOk result (IsSweptTo place ranges self.new) }
    {
        self.write(self.inheritable_end.min(place), true)?;
        self.write(self.other_end.min(place), false)?;
        self.place = place;
        Ok(())
    }

    /// Takes the next range in.
    pub(crate) fn take(&mut self, range: Range) -> Result<(), AllocError>
        ensures { (ranges : List Range) → self.old.place ≤ range.first
            → IsSweptTo self.old.place ranges self.old
            → OnOk result (IsSweptTo range.first (ranges ++ range ∷ []) self.new) }
    {
        self.go_to(range.first as u64)?;
        self.open(range);
        Ok(())
    }

    /// Notes where the range that begins at the place ends.
    fn open(&mut self, range: Range)
        ensures { (ranges : List Range) → IsSweptTo range.first ranges self.old
            → IsSweptTo range.first (ranges ++ range ∷ []) self.new }
    {
        let end = range.last as u64 + 1;
        if range.is_inheritable {
            self.inheritable_end = self.inheritable_end.max(end);
        } else {
            self.other_end = self.other_end.max(end);
        }
    }

    /// Writes the rest, and gives all that is written.
    pub(crate) fn finish(self) -> Result<Vec<Range>, AllocError>
        ensures { (ranges : List Range) → IsSweptTo self.place ranges self
            → IfOk result (λ written. IsInOrderOf ranges written.items) }
    {
        let mut sweep = self;
        sweep.go_to(REVISIONS_END)?;
        let Sweep { written, .. } = sweep;
        Ok(written)
    }
}

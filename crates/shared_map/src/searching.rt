//! Where a name stands: in which part, and at which place of it.
ghost use Rattle.std.specs.Prelude.{◌≡◌, ◌<◌, ◌≤◌, ◌+◌, length, take, drop, slice_get, IfOk, IfErr, IsSomeAnd, option_copied, T};
ghost use Rattle.std.specs.FinMap.Entries.{is_sorted, find};
ghost use Rattle.shared_map.specs.Entries.{by_bytes, values, all_entries, AreParts, is_before, IsBetween};

use crate::parts::{Entry, Part};
use byte_string::ByteString;
use std::cmp::Ordering;
use std::sync::Arc;

/// Says whether the name comes before the first entry of a part.
fn is_before<V>(name: &ByteString, part: &[Arc<Entry<V>>]) -> bool
    ensures { result ≡ is_before name.now (values part.now) }
{
    match part.first() {
        Some(entry) => name.cmp(&entry.0).is_lt(),
        None => true,
    }
}

/// Finds the place of the one part where the name can stand: the last that begins at it or before it, or the first.
pub(crate) fn home<V>(parts: &[Arc<Part<V>>], name: &ByteString) -> usize
    requires { AreParts parts.now }
    ensures there { 0 < length parts.now → result < length parts.now }
    ensures between { IsBetween name.now (all_entries (take result parts.now))
        (all_entries (drop (result + 1) parts.now)) }
{
    let mut low = 0;
    let mut high = parts.len().saturating_sub(1);
    while low < high {
        let middle = high - (high - low) / 2;
        if is_before(name, &parts[middle]) {
            high = middle - 1;
        } else {
            low = middle;
        }
    }
    low
}

/// Finds the place of the name in a part, or else the place where it would go.
pub(crate) fn search<V>(part: &[Arc<Entry<V>>], name: &ByteString) -> Result<usize, usize>
    requires { T (is_sorted by_bytes (values part.now)) }
    ensures found { IfOk result (λ place. IsSomeAnd (slice_get (values part.now) place)
        (λ e. by_bytes name.now e.0 ≡ Ordering.Equal)) }
    ensures around { IfOk result (λ place. IsBetween name.now (take place (values part.now))
        (drop (place + 1) (values part.now))) }
    ensures within { IfErr result (λ place. place ≤ length (values part.now)) }
    ensures absent { IfErr result (λ place. IsBetween name.now (take place (values part.now))
        (drop place (values part.now))) }
{
    let mut low = 0;
    let mut high = part.len();
    while low < high {
        let middle = low + (high - low) / 2;
        match name.cmp(&part[middle].0) {
            Ordering::Equal => return Ok(middle),
            Ordering::Greater => low = middle + 1,
            Ordering::Less => high = middle,
        }
    }
    Err(low)
}

/// Finds the value at the name.
pub(crate) fn find<'a, V>(parts: &'a [Arc<Part<V>>], name: &ByteString) -> Option<&'a V>
    requires { AreParts parts.now }
    ensures { option_copied result ≡ find by_bytes name.now (all_entries parts.now) }
{
    if parts.is_empty() {
        return None;
    }
    let part: &Part<V> = &parts[home(parts, name)];
    match search(part, name) {
        Ok(place) => Some(&part[place].1),
        Err(_) => None,
    }
}

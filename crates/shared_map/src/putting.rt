//! A value at a name.
ghost use Rattle.std.specs.Prelude.{◌≡◌, ◌<◌, ◌≤◌, ◌+◌, ◌++◌, ◌∷◌, [], length, take, drop, OnOk, OnErr, IfOk, IsSomeAnd, slice_get, T};
ghost use Rattle.std.specs.FinMap.Entries.{is_sorted, put};
ghost use Rattle.shared_map.specs.Entries.{by_bytes, values, part_entries, all_entries, AreParts, IsBetween, IsFilled};

use crate::parts::{Entry, Part, limit_among, shared};
use crate::searching::{home, search};
use byte_string::ByteString;
use std::alloc::{AllocError, Global};
use std::sync::Arc;

/// Puts the entry into a list of entries.
fn put_in<V: Drop>(list: &mut Part<V>, entry: Arc<Entry<V>>) -> Result<(), AllocError>
    requires { T (is_sorted by_bytes (part_entries list.old)) }
    ensures ok { OnOk result (part_entries list.new
        ≡ put by_bytes entry.value.0 entry.value.1 (part_entries list.old)) }
    ensures err { OnErr result (part_entries list.new ≡ part_entries list.old) }
{
    match search(list, &entry.0) {
        Ok(place) => list[place] = entry,
        Err(place) => {
            list.reserve_exact(1)?;
            list.insert(place, entry)?;
        }
    }
    Ok(())
}

/// Puts the entry into a part. Others that share the part keep it.
fn put_in_part<V: Drop>(part: &mut Arc<Part<V>>, entry: Arc<Entry<V>>) -> Result<(), AllocError>
    requires { T (is_sorted by_bytes (part_entries part.old.value)) }
    ensures ok { OnOk result (part_entries part.new.value
        ≡ put by_bytes entry.value.0 entry.value.1 (part_entries part.old.value)) }
    ensures err { OnErr result (part_entries part.new.value ≡ part_entries part.old.value) }
{
    let list = Arc::make_mut(part)?;
    put_in(list, entry)
}

/// Puts the entry into the part where it belongs, which has room.
fn put_with_room<V: Drop>(
    parts: &mut Vec<Arc<Part<V>>>,
    place: usize,
    entry: Arc<Entry<V>>,
) -> Result<(), AllocError>
    requires parts { AreParts parts.old.items }
    requires room { IsSomeAnd (slice_get parts.old.items place)
        (λ part. length (part_entries part.value) < 128) }
    requires between { IsBetween entry.value.0 (all_entries (take place parts.old.items))
        (all_entries (drop (place + 1) parts.old.items)) }
    ensures ok { OnOk result (all_entries parts.new.items
        ≡ put by_bytes entry.value.0 entry.value.1 (all_entries parts.old.items)) }
    ensures err { OnErr result (all_entries parts.new.items ≡ all_entries parts.old.items) }
    ensures parts { AreParts parts.new.items }
{
    put_in_part(&mut parts[place], entry)
}

/// Splits the part in two, with one more entry.
fn halves<V: Drop>(
    alloc: Global,
    part: &[Arc<Entry<V>>],
    entry: Arc<Entry<V>>,
) -> Result<(Arc<Part<V>>, Arc<Part<V>>), AllocError>
    requires sorted { T (is_sorted by_bytes (values part.now)) }
    requires more { 1 < length (values part.now) }
    requires most { length (values part.now) ≤ 128 }
    ensures ok { IfOk result (λ two. part_entries two.0.value ++ part_entries two.1.value
        ≡ put by_bytes entry.value.0 entry.value.1 (values part.now)) }
    ensures filled { IfOk result (λ two. IsFilled two.0.value × IsFilled two.1.value) }
{
    let mut list = shared(alloc, part)?;
    put_in(&mut list, entry)?;
    let (first, second) = list.as_slice().split_at(list.len() / 2);
    let first = Arc::new(alloc, shared(alloc, first)?)?;
    let second = Arc::new(alloc, shared(alloc, second)?)?;
    Ok((first, second))
}

/// Puts the entry into the part where it belongs, which has more than one, and makes two of it.
fn put_in_two<V: Drop>(
    parts: &mut Vec<Arc<Part<V>>>,
    alloc: Global,
    place: usize,
    entry: Arc<Entry<V>>,
) -> Result<(), AllocError>
    requires parts { AreParts parts.old.items }
    requires more { IsSomeAnd (slice_get parts.old.items place)
        (λ part. 1 < length (part_entries part.value)) }
    requires between { IsBetween entry.value.0 (all_entries (take place parts.old.items))
        (all_entries (drop (place + 1) parts.old.items)) }
    ensures ok { OnOk result (all_entries parts.new.items
        ≡ put by_bytes entry.value.0 entry.value.1 (all_entries parts.old.items)) }
    ensures err { OnErr result (all_entries parts.new.items ≡ all_entries parts.old.items) }
    ensures parts { AreParts parts.new.items }
{
    let (first, second) = halves(alloc, &parts[place], entry)?;
    parts.insert(place + 1, second)?;
    parts[place] = first;
    Ok(())
}

/// Puts the first entry.
fn put_first<V: Drop>(
    parts: &mut Vec<Arc<Part<V>>>,
    alloc: Global,
    entry: Arc<Entry<V>>,
) -> Result<(), AllocError>
    requires { parts.old.items ≡ [] }
    ensures ok { OnOk result (all_entries parts.new.items ≡ entry.value ∷ []) }
    ensures err { OnErr result (parts.new.items ≡ []) }
    ensures parts { AreParts parts.new.items }
{
    let mut list = Vec::with_capacity(alloc, 1)?;
    list.push(entry)?;
    parts.push(Arc::new(alloc, list)?)?;
    Ok(())
}

/// Puts the entry among those of all parts.
pub(crate) fn put_entry<V: Drop>(
    parts: &mut Vec<Arc<Part<V>>>,
    alloc: Global,
    entry: Arc<Entry<V>>,
) -> Result<(), AllocError>
    requires { AreParts parts.old.items }
    ensures ok { OnOk result (all_entries parts.new.items
        ≡ put by_bytes entry.value.0 entry.value.1 (all_entries parts.old.items)) }
    ensures err { OnErr result (all_entries parts.new.items ≡ all_entries parts.old.items) }
    ensures parts { AreParts parts.new.items }
{
    if parts.is_empty() {
        return put_first(parts, alloc, entry);
    }
    let place = home(parts, &entry.0);
    if parts[place].len() < limit_among(parts.len()) {
        put_with_room(parts, place, entry)
    } else {
        put_in_two(parts, alloc, place, entry)
    }
}

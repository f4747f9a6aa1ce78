//! A map of rows that are mostly those of another map.
ghost use Rattle.std.specs.{Prelude.{◌≡◌, ◌<◌, ◌≤◌, ◌++◌, true, length, take, drop, IfOk, OnOk, Decides, T}, FinMap.Entries.is_sorted, List.AllByRecursion};
ghost use Rattle.shared_map.specs.{Entries.{by_bytes, values, part_entries, all_entries, AreParts, IsFilled}, Rows.row_entries};

use crate::parts::{Entry, PART_LIMIT, Part, limit_among};
use crate::same::{Same, is_entry};
use byte_string::ByteString;
use std::alloc::{AllocError, Global};
use std::sync::Arc;

/// Says whether a part has these rows and no other entries.
fn has_rows<V: Same>(part: &[Arc<Entry<V>>], rows: &[(&ByteString, V)]) -> bool
    ensures { Decides result (values part.now ≡ row_entries rows.now) }
{
    if part.len() != rows.len() {
        return false;
    }
    for k in 0..rows.len() {
        let row = &rows[k];
        if !is_entry(&part[k], row.0, &row.1) {
            return false;
        }
    }
    true
}

/// Says whether a part has these rows, and they can be a part.
fn stands_for<V: Same>(part: &Part<V>, rows: &[(&ByteString, V)]) -> bool
    ensures rows { result ≡ true → part_entries part.now ≡ row_entries rows.now }
    ensures filled { result ≡ true → IsFilled part.now }
{
    if rows.is_empty() || rows.len() > PART_LIMIT {
        return false;
    }
    has_rows(part, rows)
}

/// Finds the first place, from this one on, at which the part has the name or a later one.
fn place_from<V>(part: &[Arc<Entry<V>>], from: usize, name: &ByteString) -> usize {
    let mut at = from;
    while at < part.len() && part[at].0 < *name {
        at += 1;
    }
    at
}

/// Makes the entry of a row, or shares the one at the place, if it has the same name and value.
fn entry_like<V: Same + Drop>(
    alloc: Global,
    part: &[Arc<Entry<V>>],
    place: usize,
    name: &ByteString,
    value: &V,
) -> Result<Arc<Entry<V>>, AllocError>
    ensures { IfOk result (λ made. made.value ≡ (name.now, value.now)) }
{
    if let Some(entry) = part.get(place) {
        if is_entry(entry, name, value) {
            return Arc::try_clone(entry);
        }
    }
    Ok(Arc::new(alloc, (name.clone()?, *value))?)
}

/// Makes the entries of rows, and shares those that the part has.
fn entries_like<V: Same + Drop>(
    alloc: Global,
    part: &[Arc<Entry<V>>],
    rows: &[(&ByteString, V)],
) -> Result<Vec<Arc<Entry<V>>>, AllocError>
    ensures { IfOk result (λ list. values list.items ≡ row_entries rows.now) }
{
    let mut list = Vec::with_capacity(alloc, rows.len())?;
    let mut at = 0;
    for row in rows {
        at = place_from(part, at, row.0);
        list.push(entry_like(alloc, part, at, row.0, &row.1)?)?;
    }
    Ok(list)
}

/// Gives how many entries each part of so many rows has at most, where a part has at most so many, and parts are alike.
fn even_count(rows: usize, limit: usize) -> usize
    requires { 0 < limit }
    ensures some { 0 < result }
    ensures most { result ≤ 128 }
{
    let parts = rows.div_ceil(limit).max(1);
    rows.div_ceil(parts).max(1).min(PART_LIMIT)
}

/// Puts a part behind the others.
fn push_part<V: Drop>(parts: &mut Vec<Arc<Part<V>>>, part: Arc<Part<V>>) -> Result<(), AllocError>
    requires filled { AllByRecursion IsFilled (values parts.old.items) }
    requires part { IsFilled part.value }
    ensures entries { OnOk result (all_entries parts.new.items
        ≡ all_entries parts.old.items ++ part_entries part.value) }
    ensures filled { OnOk result (AllByRecursion IsFilled (values parts.new.items)) }
{
    parts.push(part)?;
    Ok(())
}

/// Puts a part of these rows behind the others. It shares the entries of another part.
fn put_part<V: Same + Drop>(
    parts: &mut Vec<Arc<Part<V>>>,
    alloc: Global,
    part: &[Arc<Entry<V>>],
    rows: &[(&ByteString, V)],
) -> Result<(), AllocError>
    requires filled { AllByRecursion IsFilled (values parts.old.items) }
    requires some { 0 < length rows.now }
    requires most { length rows.now ≤ 128 }
    ensures entries { OnOk result (all_entries parts.new.items
        ≡ all_entries parts.old.items ++ row_entries rows.now) }
    ensures filled { OnOk result (AllByRecursion IsFilled (values parts.new.items)) }
{
    let list = entries_like(alloc, part, rows)?;
    let made = Arc::new(alloc, list)?;
    push_part(parts, made)
}

/// Puts parts of these rows behind the others, of at most so many entries each. They share the entries of another part.
fn put_parts_of<V: Same + Drop>(
    parts: &mut Vec<Arc<Part<V>>>,
    alloc: Global,
    part: &[Arc<Entry<V>>],
    rows: &[(&ByteString, V)],
    count: usize,
) -> Result<(), AllocError>
    requires filled { AllByRecursion IsFilled (values parts.old.items) }
    requires some { 0 < count }
    requires most { count ≤ 128 }
    ensures entries { OnOk result (all_entries parts.new.items
        ≡ all_entries parts.old.items ++ row_entries rows.now) }
    ensures filled { OnOk result (AllByRecursion IsFilled (values parts.new.items)) }
{
    let mut at = 0;
    while at < rows.len() {
        let (_, rest) = rows.split_at(at);
        let (front, _) = rest.split_at(rest.len().min(count));
        put_part(parts, alloc, part, front)?;
        at += front.len();
    }
    Ok(())
}

/// Puts parts of these rows behind the others. They share the entries of another part.
fn put_parts<V: Same + Drop>(
    parts: &mut Vec<Arc<Part<V>>>,
    alloc: Global,
    part: &[Arc<Entry<V>>],
    rows: &[(&ByteString, V)],
) -> Result<(), AllocError>
    requires filled { AllByRecursion IsFilled (values parts.old.items) }
    ensures entries { OnOk result (all_entries parts.new.items
        ≡ all_entries parts.old.items ++ row_entries rows.now) }
    ensures filled { OnOk result (AllByRecursion IsFilled (values parts.new.items)) }
{
    let limit = limit_among(rows.len().isqrt());
    put_parts_of(parts, alloc, part, rows, even_count(rows.len(), limit))
}

/// Puts rows behind the entries of parts: the part itself where it has these rows, else parts that share its entries.
fn put_like<V: Same + Drop>(
    parts: &mut Vec<Arc<Part<V>>>,
    alloc: Global,
    part: &Arc<Part<V>>,
    rows: &[(&ByteString, V)],
) -> Result<(), AllocError>
    requires filled { AllByRecursion IsFilled (values parts.old.items) }
    ensures entries { OnOk result (all_entries parts.new.items
        ≡ all_entries parts.old.items ++ row_entries rows.now) }
    ensures filled { OnOk result (AllByRecursion IsFilled (values parts.new.items)) }
{
    if stands_for(part, rows) {
        let shared = Arc::try_clone(part)?;
        return push_part(parts, shared);
    }
    put_parts(parts, alloc, part, rows)
}

/// Counts the rows that come before the name, where rows are in the order of their names.
fn rows_before<V>(rows: &[(&ByteString, V)], name: &ByteString) -> usize
    ensures { result ≤ length rows.now }
{
    let mut low = 0;
    let mut high = rows.len();
    while low < high {
        let middle = low + (high - low) / 2;
        if *rows[middle].0 < *name {
            low = middle + 1;
        } else {
            high = middle;
        }
    }
    high
}

/// Counts the rows that stand in front of a part.
fn rows_in_front<V>(rows: &[(&ByteString, V)], next: Option<&Arc<Part<V>>>) -> usize
    ensures { result ≤ length rows.now }
{
    match next {
        Some(part) => match part.first() {
            Some(entry) => rows_before(rows, &entry.0),
            None => rows.len(),
        },
        None => rows.len(),
    }
}

/// Puts the rows in front of the next part behind the entries of parts, and says how many they are. They share what a part
/// has.
fn put_next<V: Same + Drop>(
    parts: &mut Vec<Arc<Part<V>>>,
    alloc: Global,
    part: &Arc<Part<V>>,
    next: Option<&Arc<Part<V>>>,
    rows: &[(&ByteString, V)],
) -> Result<usize, AllocError>
    requires filled { AllByRecursion IsFilled (values parts.old.items) }
    ensures within { IfOk result (λ count. count ≤ length rows.now) }
    ensures entries { IfOk result (λ count. all_entries parts.new.items
        ≡ all_entries parts.old.items ++ row_entries (take count rows.now)) }
    ensures filled { IfOk result (λ _. AllByRecursion IsFilled (values parts.new.items)) }
{
    let count = rows_in_front(rows, next);
    let (front, _) = rows.split_at(count);
    put_like(parts, alloc, part, front)?;
    Ok(count)
}

/// Puts the rows from this one on behind the entries of parts.
fn put_rest<V: Same + Drop>(
    parts: &mut Vec<Arc<Part<V>>>,
    alloc: Global,
    rows: &[(&ByteString, V)],
    from: usize,
) -> Result<(), AllocError>
    requires filled { AllByRecursion IsFilled (values parts.old.items) }
    requires within { from ≤ length rows.now }
    ensures entries { OnOk result (all_entries parts.new.items
        ≡ all_entries parts.old.items ++ row_entries (drop from rows.now)) }
    ensures filled { OnOk result (AllByRecursion IsFilled (values parts.new.items)) }
{
    let none = Vec::new(alloc);
    let (_, rest) = rows.split_at(from);
    put_parts(parts, alloc, none.as_slice(), rest)
}

/// Makes parts of rows. They share what the parts of another map have.
pub(crate) fn remade<V: Same + Drop>(
    alloc: Global,
    parts: &[Arc<Part<V>>],
    rows: &[(&ByteString, V)],
) -> Result<Vec<Arc<Part<V>>>, AllocError>
    requires { T (is_sorted by_bytes (row_entries rows.now)) }
    ensures entries { IfOk result (λ made. all_entries made.items ≡ row_entries rows.now) }
    ensures parts { IfOk result (λ made. AreParts made.items) }
{
    let mut made = Vec::with_capacity(alloc, parts.len())?;
    let mut at = 0;
    for place in 0..parts.len() {
        let (_, rest) = rows.split_at(at);
        let part = &parts[place];
        let count = put_next(&mut made, alloc, part, parts.get(place + 1), rest)?;
        at += count;
    }
    put_rest(&mut made, alloc, rows, at)?;
    Ok(made)
}

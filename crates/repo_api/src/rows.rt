//! Pairs of a name and a value, in the order of the names.
ghost use Rattle.std.specs.{Prelude.{◌≡◌, ◌≤◌, ◌+◌, length, take, drop, slice_get, IfOk, IfErr, IsSomeAnd, OnOk, OnErr, option_copied}, List.insert};
ghost use Rattle.std.specs.{Cmp.Lexicographic.slice_cmp, Ordering.nat_cmp};
ghost use Rattle.repo_api.specs.{Properties.{property_value, with_property, without_property}, Rows.{AreInOrder, IsBetween}};

use crate::values::PropertyValue;
use byte_string::ByteString;
use std::alloc::{AllocError, Global};
use std::cmp::Ordering;
use std::collections::BTreeMap;

/// Finds the place of the row of this name, or else the place where it would go.
pub(crate) fn search(
    rows: &[(ByteString, PropertyValue)],
    name: &ByteString,
) -> Result<usize, usize>
    requires { AreInOrder rows.now }
    ensures found { IfOk result (λ place. IsSomeAnd (slice_get rows.now place)
        (λ row. slice_cmp nat_cmp name.now row.0 ≡ Ordering.Equal)) }
    ensures around { IfOk result (λ place. IsBetween name.now (take place rows.now)
        (drop (place + 1) rows.now)) }
    ensures within { IfErr result (λ place. place ≤ length rows.now) }
    ensures absent { IfErr result (λ place. IsBetween name.now (take place rows.now)
        (drop place rows.now)) }
{
    let mut low = 0;
    let mut high = rows.len();
    while low < high {
        let middle = low + (high - low) / 2;
        match name.cmp(&rows[middle].0) {
            Ordering::Equal => return Ok(middle),
            Ordering::Greater => low = middle + 1,
            Ordering::Less => high = middle,
        }
    }
    Err(low)
}

/// Finds the value of the row of this name, if there is one.
pub(crate) fn value_in<'a>(
    rows: &'a [(ByteString, PropertyValue)],
    name: &ByteString,
) -> Option<&'a PropertyValue>
    requires { AreInOrder rows.now }
    ensures { option_copied result ≡ property_value rows.now name.now }
{
    match search(rows, name) {
        Ok(place) => Some(&rows[place].1),
        Err(_) => None,
    }
}

/// Adds a row at the place, with memory for that one more.
fn add(
    rows: &mut Vec<(ByteString, PropertyValue)>,
    place: usize,
    row: (ByteString, PropertyValue),
) -> Result<(), AllocError>
    requires { place ≤ length rows.old.items }
    ensures ok { OnOk result (rows.new.items ≡ insert rows.old.items place row) }
    ensures err { OnErr result (rows.new.items ≡ rows.old.items) }
{
    rows.reserve_exact(1)?;
    rows.insert(place, row)?;
    Ok(())
}

/// Adds a row, or puts it in the place of that of the same name.
pub(crate) fn put(
    rows: &mut Vec<(ByteString, PropertyValue)>,
    name: ByteString,
    value: PropertyValue,
) -> Result<(), AllocError>
    requires { AreInOrder rows.old.items }
    ensures ok { OnOk result (rows.new.items ≡ with_property rows.old.items name value) }
    ensures err { OnErr result (rows.new.items ≡ rows.old.items) }
    ensures order { AreInOrder rows.new.items }
{
    match search(rows, &name) {
        Ok(place) => rows[place] = (name, value),
        Err(place) => add(rows, place, (name, value))?,
    }
    Ok(())
}

/// Takes the row of this name out, if there is one.
pub(crate) fn take_out(rows: &mut Vec<(ByteString, PropertyValue)>, name: &ByteString)
    requires { AreInOrder rows.old.items }
    ensures taken { rows.new.items ≡ without_property rows.old.items name.now }
    ensures order { AreInOrder rows.new.items }
{
    if let Ok(place) = search(rows, name) {
        rows.remove(place);
    }
}

/// Copies rows into a tree.
pub(crate) fn tree_of(
    alloc: Global,
    rows: &[(ByteString, PropertyValue)],
) -> Result<BTreeMap<ByteString, PropertyValue>, AllocError>
    requires { AreInOrder rows.now }
    ensures { IfOk result (λ tree. tree.entries ≡ rows.now) }
{
    let mut tree = BTreeMap::new(alloc);
    for (name, value) in rows {
        tree.insert(name.clone()?, value.clone()?)?;
    }
    Ok(tree)
}

//! The entries of parts, one after another.
ghost use Rattle.std.specs.{Prelude.{◌≡◌, ◌++◌, map, OnOk, IfOk}, Map.keys_of, Map.Iter.deref};
ghost use Rattle.shared_map.specs.Entries.{values, all_entries};

use crate::parts::{Entry, Part};
use byte_string::ByteString;
use std::alloc::{AllocError, Global};
use std::sync::Arc;

/// Appends the entries of a part.
fn append_entries<'a, V>(
    list: &mut Vec<&'a Entry<V>>,
    part: &'a [Arc<Entry<V>>],
) -> Result<(), AllocError>
    ensures { OnOk result (map deref list.new.items ≡ map deref list.old.items ++ values part.now) }
{
    for entry in part {
        list.push(entry)?;
    }
    Ok(())
}

/// Appends the names of a part.
fn append_names<'a, V>(
    list: &mut Vec<&'a ByteString>,
    part: &'a [Arc<Entry<V>>],
) -> Result<(), AllocError>
    ensures { OnOk result (map deref list.new.items
        ≡ map deref list.old.items ++ keys_of (values part.now)) }
{
    for entry in part {
        list.push(&entry.0)?;
    }
    Ok(())
}

/// Gives the entries of all parts.
pub(crate) fn entries_of<V>(
    alloc: Global,
    parts: &[Arc<Part<V>>],
) -> Result<Vec<&Entry<V>>, AllocError>
    ensures { IfOk result (λ list. map deref list.items ≡ all_entries parts.now) }
{
    let mut list = Vec::new(alloc);
    for part in parts {
        append_entries(&mut list, part)?;
    }
    Ok(list)
}

/// Gives the names of all parts.
pub(crate) fn names_of<V>(
    alloc: Global,
    parts: &[Arc<Part<V>>],
) -> Result<Vec<&ByteString>, AllocError>
    ensures { IfOk result (λ list. map deref list.items ≡ keys_of (all_entries parts.now)) }
{
    let mut list = Vec::new(alloc);
    for part in parts {
        append_names(&mut list, part)?;
    }
    Ok(list)
}

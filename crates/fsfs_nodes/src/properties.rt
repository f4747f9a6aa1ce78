//! The files of properties of revisions.
ghost use Rattle.std.specs.{Prelude.{◌≡◌, IfOk}, List.list_all};
ghost use Rattle.fsfs_text.specs.Reading.{Answers};
ghost use Rattle.fsfs_nodes.specs.Properties.{properties_bytes, is_property, properties_of};

use crate::rows::read_rows;
use fsfs_text::{FileFault, append_end, append_pair};
use repo_api::{Properties, TEXT_LIMIT, is_property_name};
use std::alloc::{AllocError, Global};

/// Makes the file of a revision's properties: a dump of them, by the bytes of their names.
pub fn write_properties(alloc: Global, properties: &Properties) -> Result<Vec<u8>, AllocError>
    ensures { IfOk result (λ v. v.items ≡ properties_bytes properties.now) }
{
    let mut out = Vec::new(alloc);
    for (name, value) in properties.iter() {
        append_pair(&mut out, name.as_slice(), value.as_slice())?;
    }
    append_end(&mut out)?;
    Ok(out)
}

/// Says whether a name and a value are within their limits.
fn is_property(name: &[u8], value: &[u8]) -> bool
    ensures { result ≡ is_property (name.now, value.now) }
{
    is_property_name(name) && value.len() <= TEXT_LIMIT
}

/// Says whether all names and all values are within their limits.
pub fn are_properties(rows: &Properties) -> bool
    ensures { result ≡ list_all is_property rows.now }
{
    for (name, value) in rows.iter() {
        if !is_property(name.as_slice(), value.as_slice()) {
            return false;
        }
    }
    true
}

/// Reads the file of a revision's properties, in whatever order they stand.
///
/// # Errors
///
/// `Truncated` or `BadLine` where the bytes are no dump, where a name comes twice, or where a name or
/// a value passes its limit; or `NoMemory`.
#[tactic(auto, unfolding(crate::specs::Properties::properties_of))]
pub fn read_properties(alloc: Global, bytes: &[u8]) -> Result<Properties, FileFault>
    ensures { Answers (λ properties. properties) result (properties_of bytes.now) }
{
    let rows = read_rows(alloc, bytes)?;
    if are_properties(&rows) {
        Ok(rows)
    } else {
        Err(FileFault::BadLine)
    }
}

//! A path in a revision, as lines name it.
ghost use Rattle.std.specs.Prelude.{◌≡◌, ◌++◌, OnOk};
ghost use Rattle.fsfs_text.specs.{Reading.{Answers, or_bad}, Places.{place_text, place_of}};

use crate::fault::FileFault;
use crate::numeral::{append_number, parse_decimal_32};
use crate::split::split_once;
use byte_string::ByteString;
use std::alloc::{AllocError, Global};

/// Names a path in a revision.
#[derive(Debug, Drop)]
pub struct Place {
    pub revision: u32,
    pub path: ByteString,
}

/// Appends `<revision> <path>`.
pub fn append_place(out: &mut Vec<u8>, place: &Place) -> Result<(), AllocError>
    ensures { OnOk result (out.new.items ≡ out.old.items ++ place_text place.now) }
{
    append_number(out, place.revision as u64)?;
    out.push(b' ')?;
    out.extend_from_slice(place.path.as_slice())
}

/// Reads the place that the bytes spell.
///
/// # Errors
///
/// `BadLine` where they spell none, or `NoMemory`.
#[tactic(auto, unfolding(crate::specs::Places::place_of))]
pub fn parse_place(alloc: Global, bytes: &[u8]) -> Result<Place, FileFault>
    ensures { Answers (λ place. place) result (or_bad (place_of bytes.now)) }
{
    let Some((digits, path)) = split_once(bytes, b' ') else {
        return Err(FileFault::BadLine);
    };
    let Some(revision) = parse_decimal_32(digits) else {
        return Err(FileFault::BadLine);
    };
    let path = ByteString::from_slice(alloc, path)?;
    Ok(Place { revision, path })
}

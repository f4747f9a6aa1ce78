//! The entries of a directory, with how many bytes each has in its text.
ghost use Rattle.std.specs.Prelude.{◌≡◌, ◌++◌, codes, OnOk, IfOk, IfSome};
ghost use Rattle.fsfs.specs.Known.{IsKnown, all_bytes, lengths_of};

use crate::same::is_same;
use fsfs_nodes::{DirectoryEntry, append_entry, read_entries};
use fsfs_text::append_end;
use std::alloc::{AllocError, Global};

/// Holds entries in their order, and how many bytes each has.
#[derive(Drop)]
pub(crate) struct Listed {
    pub entries: Vec<DirectoryEntry>,
    pub lengths: Vec<usize>,
}

/// Appends the bytes of entries, and gives how many bytes each has.
fn append_all(
    alloc: Global,
    out: &mut Vec<u8>,
    entries: &[DirectoryEntry],
) -> Result<Vec<usize>, AllocError>
    ensures out { IfOk result (λ _. out.new.items ≡ out.old.items ++ all_bytes entries.now) }
    ensures lengths { IfOk result (λ lengths. lengths.items ≡ lengths_of entries.now) }
{
    let mut lengths = Vec::with_capacity(alloc, entries.len())?;
    for entry in entries {
        let before = out.len();
        append_entry(alloc, out, entry)?;
        lengths.push(out.len() - before)?;
    }
    Ok(lengths)
}

/// Gives how many bytes each entry has, if the text is that which is written for them.
fn lengths_in(
    alloc: Global,
    entries: &[DirectoryEntry],
    text: &[u8],
) -> Result<Option<Vec<usize>>, AllocError>
    ensures { IfOk result (λ found. IfSome found (λ lengths.
        (text.now ≡ all_bytes entries.now ++ codes "END\n")
        × (lengths.items ≡ lengths_of entries.now))) }
{
    let mut out = Vec::with_capacity(alloc, text.len())?;
    let lengths = append_all(alloc, &mut out, entries)?;
    append_end(&mut out)?;
    if is_same(text, out.as_slice()) {
        Ok(Some(lengths))
    } else {
        Ok(None)
    }
}

/// Reads the entries that a text says, if it is that which is written for them.
#[tactic(auto, using(crate::proofs::KnownTexts::known_again))]
pub(crate) fn listed_in(alloc: Global, text: &[u8]) -> Result<Option<Listed>, AllocError>
    ensures { IfOk result (λ found. IfSome found (λ listed.
        IsKnown text.now listed.lengths.items listed.entries.items)) }
{
    let _length = text.len();
    let Ok(entries) = read_entries(alloc, text) else {
        return Ok(None);
    };
    match lengths_in(alloc, entries.as_slice(), text)? {
        Some(lengths) => Ok(Some(Listed { entries, lengths })),
        None => Ok(None),
    }
}

/// Reads the entries that a part of a text says, as `listed_in` does.
#[tactic(auto, using(crate::proofs::KnownTexts::known_same))]
pub(crate) fn listed_between(alloc: Global, part: &[u8]) -> Result<Option<Listed>, AllocError>
    ensures { IfOk result (λ found. IfSome found (λ listed.
        IsKnown (part.now ++ codes "END\n") listed.lengths.items listed.entries.items)) }
{
    let mut text = Vec::new(alloc);
    text.extend_from_slice(part)?;
    append_end(&mut text)?;
    listed_in(alloc, text.as_slice())
}

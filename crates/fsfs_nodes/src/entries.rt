//! The entries of a directory.
ghost use Rattle.std.specs.Prelude.{◌≡◌, ◌++◌, OnOk, IfOk};
ghost use Rattle.fsfs_text.specs.{Dumps.{dump, pair_bytes}, Reading.Answers};
ghost use Rattle.fsfs_nodes.specs.{Nodes.{kind_text, kind_of}, Entries.{entry_text, entry_pair, entry_pairs, kind_and_id, entries_of}};

use byte_string::ByteString;
use fsfs_text::{
    FileFault, FileId, append_end, append_id, append_pair, parse_id, read_dump, split_once,
};
use std::alloc::{AllocError, Global};

/// Says what a node revision is.
#[derive(Clone, Copy, Debug, PartialEq, Eq)]
pub enum EntryKind {
    File,
    Directory,
}

/// Names an entry of a directory, and says what it is.
#[derive(Debug, Drop)]
pub struct DirectoryEntry {
    pub name: ByteString,
    pub kind: EntryKind,
    pub id: FileId,
}

/// Appends `file` or `dir`.
pub fn append_kind(out: &mut Vec<u8>, kind: EntryKind) -> Result<(), AllocError>
    ensures { OnOk result (out.new.items ≡ out.old.items ++ kind_text kind) }
{
    match kind {
        EntryKind::File => out.extend_from_slice(b"file"),
        EntryKind::Directory => out.extend_from_slice(b"dir"),
    }
}

/// Reads the kind that the bytes spell.
#[tactic(auto, unfolding(crate::specs::Nodes::kind_of))]
pub fn parse_kind(bytes: &[u8]) -> Option<EntryKind>
    ensures { result ≡ kind_of bytes.now }
{
    if bytes == b"file".as_slice() {
        Some(EntryKind::File)
    } else if bytes == b"dir".as_slice() {
        Some(EntryKind::Directory)
    } else {
        None
    }
}

/// For so many bytes memory is taken at once for the text of an entry, and for more where it is longer.
const ENTRY_LENGTH: usize = 48;

/// Makes the text of an entry: `<kind> <id>`.
fn entry_text(alloc: Global, entry: &DirectoryEntry) -> Result<Vec<u8>, AllocError>
    ensures { IfOk result (λ v. v.items ≡ entry_text entry.now) }
{
    let mut text = Vec::with_capacity(alloc, ENTRY_LENGTH)?;
    append_kind(&mut text, entry.kind)?;
    text.push(b' ')?;
    append_id(&mut text, entry.id)?;
    Ok(text)
}

/// Appends an entry as the contents of a directory have it. An `Err` may leave a part of it.
pub fn append_entry(
    alloc: Global,
    out: &mut Vec<u8>,
    entry: &DirectoryEntry,
) -> Result<(), AllocError>
    ensures { OnOk result (out.new.items ≡ out.old.items ++ pair_bytes (entry_pair entry.now)) }
{
    let text = entry_text(alloc, entry)?;
    append_pair(out, entry.name.as_slice(), text.as_slice())
}

/// Makes the contents of a directory: a dump of its entries, in their order.
pub fn write_entries(alloc: Global, entries: &[DirectoryEntry]) -> Result<Vec<u8>, AllocError>
    ensures { IfOk result (λ v. v.items ≡ dump (entry_pairs entries.now)) }
{
    let mut out = Vec::new(alloc);
    for entry in entries {
        append_entry(alloc, &mut out, entry)?;
    }
    append_end(&mut out)?;
    Ok(out)
}

/// Reads the kind and the id that an entry's text spells.
#[tactic(auto, unfolding(crate::specs::Entries::kind_and_id))]
fn parse_entry(text: &[u8]) -> Option<(EntryKind, FileId)>
    ensures { result ≡ kind_and_id text.now }
{
    let (kind, id) = split_once(text, b' ')?;
    let kind = parse_kind(kind)?;
    let id = parse_id(id)?;
    Some((kind, id))
}

/// Reads the entries that the contents of a directory say, in the order in which they stand there.
///
/// # Errors
///
/// `Truncated` or `BadLine` where the bytes are no dump of entries, or `NoMemory`.
#[tactic(auto, unfolding(crate::specs::Entries::entries_of))]
pub fn read_entries(alloc: Global, bytes: &[u8]) -> Result<Vec<DirectoryEntry>, FileFault>
    ensures { Answers (λ v. v.items) result (entries_of bytes.now) }
{
    let pairs = read_dump(alloc, bytes)?;
    let mut entries = Vec::new(alloc);
    for pair in &pairs {
        let Some((kind, id)) = parse_entry(pair.value.as_slice()) else {
            return Err(FileFault::BadLine);
        };
        let name = pair.key.clone()?;
        entries.push(DirectoryEntry { name, kind, id })?;
    }
    Ok(entries)
}

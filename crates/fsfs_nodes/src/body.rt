//! Plain representations.
ghost use Rattle.std.specs.Prelude.{◌≡◌, ◌++◌, length, IfOk};
ghost use Rattle.fsfs_text.specs.Reading.{Answers, Gives};
ghost use Rattle.fsfs_nodes.specs.Bodies.{body_bytes, rest_at, plain_at, body_of, body_at, representation_at};

use fsfs_text::{FileFault, Representation, line_at, without_prefix};
use repo_api::FileText;
use std::alloc::{AllocError, Global};
use std::sync::Arc;

/// Appends a representation of these bytes to the file of a revision, and gives its line, which has the
/// digest that is kept with them.
pub fn append_body(
    out: &mut Vec<u8>,
    revision: u32,
    body: &FileText,
) -> Result<Representation, AllocError>
    ensures { IfOk result (λ named. (named ≡ representation_at revision (length out.old.items) body.now)
        × (out.new.items ≡ out.old.items ++ body_bytes body.now)) }
{
    let bytes = body.as_slice();
    let representation = Representation {
        revision,
        offset: out.len() as u64,
        length: bytes.len() as u64,
        size: bytes.len() as u64,
        digest: body.digest(),
    };
    out.extend_from_slice(b"PLAIN\n")?;
    out.extend_from_slice(bytes)?;
    out.extend_from_slice(b"ENDREP\n")?;
    Ok(representation)
}

/// Gives the bytes from an offset on.
pub fn rest_at(bytes: &[u8], offset: u64) -> Result<&[u8], FileFault>
    ensures { Gives (λ rest. rest.now) result (rest_at offset bytes.now) }
{
    let offset = offset as usize;
    if bytes.len() < offset {
        return Err(FileFault::Truncated);
    }
    Ok(&bytes[offset..])
}

/// Gives what stands behind the first line of a plain representation.
#[tactic(auto, unfolding(crate::specs::Bodies::plain_at))]
fn plain_at(bytes: &[u8]) -> Result<&[u8], FileFault>
    ensures { Gives (λ rest. rest.now) result (plain_at bytes.now) }
{
    let (line, rest) = line_at(bytes)?;
    if line == b"PLAIN".as_slice() {
        return Ok(rest);
    }
    match without_prefix(line, b"DELTA") {
        Some(_) => Err(FileFault::Delta),
        None => Err(FileFault::BadLine),
    }
}

/// Reads so many bytes, which `ENDREP` follows.
#[tactic(auto, unfolding(crate::specs::Bodies::body_of))]
fn body_of(len: u64, bytes: &[u8]) -> Result<&[u8], FileFault>
    ensures { Gives (λ body. body.now) result (body_of len bytes.now) }
{
    let len = len as usize;
    if bytes.len() < len {
        return Err(FileFault::Truncated);
    }
    let (body, rest) = bytes.split_at(len);
    match without_prefix(rest, b"ENDREP\n") {
        Some(_) => Ok(body),
        None if rest.len() < 7 => Err(FileFault::Truncated),
        None => Err(FileFault::BadLine),
    }
}

/// Reads the bytes of the representation that a line of this file names, with their digest, which is
/// computed once and compared.
///
/// # Errors
///
/// `Truncated` where the file ends within it, `Delta` for another representation than a plain one,
/// `BadLine` where its first or last line is another or a size is named that isn't its length, `Digest`,
/// and `NoMemory` for the copy.
#[tactic(auto, unfolding(crate::specs::Bodies::body_at))]
pub fn read_body(
    alloc: Global,
    bytes: &[u8],
    representation: &Representation,
) -> Result<FileText, FileFault>
    ensures { Answers (λ body. body) result (body_at bytes.now representation.now) }
{
    let rest = plain_at(rest_at(bytes, representation.offset)?)?;
    if representation.size != representation.length {
        return Err(FileFault::BadLine);
    }
    let body = body_of(representation.length, rest)?;
    let body = FileText::from_shared(Arc::new(alloc, Vec::from_slice(alloc, body)?)?);
    if body.digest() != representation.digest {
        return Err(FileFault::Digest);
    }
    Ok(body)
}

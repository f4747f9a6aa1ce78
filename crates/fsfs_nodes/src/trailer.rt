//! The last line of a revision file.
ghost use Rattle.std.specs.Prelude.{◌≡◌, ◌++◌, OnOk, option_map};
ghost use Rattle.fsfs_text.specs.Reading.{Gives};
ghost use Rattle.fsfs_nodes.specs.Trailers.{trailer_bytes, offsets_of, trailer_of, split_trailer};

use fsfs_text::{FileFault, append_number, parse_decimal, split_last, split_once};
use std::alloc::AllocError;

/// Says where the root's node revision and the changes begin.
#[derive(Clone, Copy, Debug, PartialEq, Eq)]
pub struct Trailer {
    pub root: u64,
    pub changes: u64,
}

/// Appends an empty line and the last line.
pub fn append_trailer(out: &mut Vec<u8>, trailer: Trailer) -> Result<(), AllocError>
    ensures { OnOk result (out.new.items ≡ out.old.items ++ trailer_bytes trailer) }
{
    out.push(b'\n')?;
    append_number(out, trailer.root)?;
    out.push(b' ')?;
    append_number(out, trailer.changes)?;
    out.push(b'\n')?;
    Ok(())
}

/// Reads the two offsets that a last line says.
#[tactic(auto, unfolding(crate::specs::Trailers::offsets_of))]
fn parse_offsets(line: &[u8]) -> Option<Trailer>
    ensures { result ≡ offsets_of line.now }
{
    let (root, changes) = split_once(line, b' ')?;
    let root = parse_decimal(root)?;
    let changes = parse_decimal(changes)?;
    Some(Trailer { root, changes })
}

/// Gives what stands before the empty line at the end, and the last line.
#[tactic(auto, unfolding(crate::specs::Trailers::split_trailer))]
fn split_trailer(bytes: &[u8]) -> Option<(&[u8], &[u8])>
    ensures { option_map (λ p. (p.0.now, p.1.now)) result ≡ split_trailer bytes.now }
{
    let (front, behind) = split_last(bytes, b'\n')?;
    if !behind.is_empty() {
        return None;
    }
    split_last(front, b'\n')
}

/// Reads what the last line says, and gives what stands before the empty line at the end too.
///
/// # Errors
///
/// `Truncated` where the file doesn't end with a line, `BadLine` where that says no two offsets.
#[tactic(auto, unfolding(crate::specs::Trailers::trailer_of))]
pub fn read_trailer(bytes: &[u8]) -> Result<(&[u8], Trailer), FileFault>
    ensures { Gives (λ p. (p.0.now, p.1)) result (trailer_of bytes.now) }
{
    let Some((body, line)) = split_trailer(bytes) else {
        return Err(FileFault::Truncated);
    };
    match parse_offsets(line) {
        Some(trailer) => Ok((body, trailer)),
        None => Err(FileFault::BadLine),
    }
}

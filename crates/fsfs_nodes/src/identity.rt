//! The file `uuid`.
ghost use Rattle.std.specs.Prelude.{◌≡◌, ◌++◌, OnOk};
ghost use Rattle.fsfs_text.specs.Reading.{Gives};
ghost use Rattle.fsfs_nodes.specs.Identity.{uuid_bytes, uuid_line, uuid_of};

use crate::current::read_line_alone;
use fsfs_text::FileFault;
use std::alloc::AllocError;
use uuid::Uuid;

/// Appends the text of a repository's 128 bits and a line feed.
pub fn append_uuid(out: &mut Vec<u8>, uuid: u128) -> Result<(), AllocError>
    ensures { OnOk result (out.new.items ≡ out.old.items ++ uuid_bytes uuid) }
{
    let mut buffer = Uuid::encode_buffer();
    let text = Uuid::from_u128(uuid).hyphenated().encode_lower(&mut buffer);
    out.extend_from_slice(text.as_bytes())?;
    out.push(b'\n')?;
    Ok(())
}

/// Reads the 128 bits that a line spells.
#[tactic(auto, unfolding(crate::specs::Identity::uuid_line))]
fn parse_uuid(line: &[u8]) -> Option<u128>
    ensures { result ≡ uuid_line line.now }
{
    if line.len() != 36 {
        return None;
    }
    match Uuid::try_parse_ascii(line) {
        Ok(uuid) => Some(uuid.as_u128()),
        Err(_) => None,
    }
}

/// Reads the file `uuid`.
///
/// # Errors
///
/// `Truncated` where its line is cut short, `BadLine` where it says anything else.
#[tactic(auto, unfolding(crate::specs::Identity::uuid_of))]
pub fn read_uuid(bytes: &[u8]) -> Result<u128, FileFault>
    ensures { Gives (λ uuid. uuid) result (uuid_of bytes.now) }
{
    match parse_uuid(read_line_alone(bytes)?) {
        Some(uuid) => Ok(uuid),
        None => Err(FileFault::BadLine),
    }
}

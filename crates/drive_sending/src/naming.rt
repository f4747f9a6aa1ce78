//! Tokens, and the texts of paths.
ghost use Rattle.std.specs.Prelude.{◌∷◌};
ghost use Rattle.drive_visits.specs.Visits.{kind_if};
ghost use Rattle.drive_sending.specs.Tokens.{count_text, relative_text, token_of};
ghost use Rattle.wire_replies.specs.Made.{Makes};

use byte_string::ByteString;
use std::alloc::{AllocError, Global};
use svnpath::Path;

/// Makes the text of a letter and a number.
fn numbered(alloc: Global, letter: u8, count: u64) -> Result<ByteString, AllocError>
    ensures { Makes result (letter ∷ count_text count) }
{
    let mut buffer = itoa::Buffer::new();
    let mut token = Vec::from_slice(alloc, &[letter])?;
    token.extend_from_slice(buffer.format(count).as_bytes())?;
    Ok(ByteString::new(token))
}

/// Makes the token of an entry that is opened or added while so many are open.
pub(crate) fn token(alloc: Global, is_directory: bool, count: u64) -> Result<ByteString, AllocError>
    ensures { Makes result (token_of (kind_if is_directory) count) }
{
    if is_directory {
        numbered(alloc, b'd', count)
    } else {
        numbered(alloc, b'c', count)
    }
}

/// Makes the text of a path from the root of a drive on.
pub(crate) fn relative_text(alloc: Global, path: &Path) -> Result<ByteString, AllocError>
    ensures { Makes result (relative_text path.now) }
{
    let mut text = Vec::new(alloc);
    path.append_text(&mut text)?;
    match text.as_slice().split_first() {
        None => Ok(ByteString::new(Vec::new(alloc))),
        Some((_, rest)) => ByteString::from_slice(alloc, rest),
    }
}

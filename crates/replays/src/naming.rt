//! Tokens, and the texts of paths.
ghost use Rattle.std.specs.Prelude.{◌∷◌, decimal};
ghost use Rattle.wire_replies.specs.{Made.Makes, Replies.bare_text};
ghost use Rattle.svnpath.specs.Texts.{path_text};
ghost use Rattle.replays.specs.Commands.{token_of};

use byte_string::ByteString;
use std::alloc::{AllocError, Global};
use svnpath::Path;
use wire_replies::decimal_text;

/// Makes the text of a letter and a number.
fn numbered(alloc: Global, letter: u8, count: usize) -> Result<ByteString, AllocError>
    ensures { Makes result (letter ∷ decimal count) }
{
    let number = decimal_text(alloc, count as u64)?;
    let mut token = Vec::from_slice(alloc, &[letter])?;
    token.extend_from_slice(number.as_slice())?;
    Ok(ByteString::new(token))
}

/// Makes the token of an entry so many names beneath the root.
pub(crate) fn token(
    alloc: Global,
    is_directory: bool,
    count: usize,
) -> Result<ByteString, AllocError>
    ensures { Makes result (token_of is_directory count) }
{
    if is_directory {
        numbered(alloc, b'd', count)
    } else {
        numbered(alloc, b'c', count)
    }
}

/// Makes the text of a path.
pub(crate) fn text_of_path(alloc: Global, path: &Path) -> Result<ByteString, AllocError>
    ensures { Makes result (path_text path.now) }
{
    let mut text = Vec::new(alloc);
    path.append_text(&mut text)?;
    Ok(ByteString::new(text))
}

/// Makes the text of a path without the slash in front.
pub(crate) fn relative_text(alloc: Global, path: &Path) -> Result<ByteString, AllocError>
    ensures { Makes result (bare_text path.now) }
{
    let mut text = Vec::new(alloc);
    path.append_text(&mut text)?;
    match text.as_slice().split_first() {
        None => Ok(ByteString::new(Vec::new(alloc))),
        Some((_, rest)) => ByteString::from_slice(alloc, rest),
    }
}

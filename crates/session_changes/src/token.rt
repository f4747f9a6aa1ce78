//! The tokens of locks.
ghost use Rattle.machine.specs.Commands.{token_text};
ghost use Rattle.wire_replies.specs.Made.{Makes};

use byte_string::ByteString;
use std::alloc::{AllocError, Global};
use wire_replies::uuid_text;

/// Makes the token from a word.
pub(crate) fn token_of(alloc: Global, word: u128) -> Result<ByteString, AllocError>
    ensures { Makes result (token_text word) }
{
    let text = uuid_text(alloc, word)?;
    let mut token = Vec::from_slice(alloc, b"opaquelocktoken:")?;
    token.extend_from_slice(text.as_slice())?;
    Ok(ByteString::new(token))
}

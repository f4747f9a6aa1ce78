//! Numbers as texts.
ghost use Rattle.std.specs.Prelude.{◌≡◌, IfOk, decimal};
ghost use Rattle.wire_replies.specs.Replies.{uuid_text};

use byte_string::ByteString;
use std::alloc::{AllocError, Global};
use uuid::Uuid;

/// Writes a number in decimal.
pub fn decimal_text(alloc: Global, number: u64) -> Result<ByteString, AllocError>
    ensures { IfOk result (λ text. text ≡ decimal number) }
{
    let mut buffer = itoa::Buffer::new();
    ByteString::from_slice(alloc, buffer.format(number).as_bytes())
}

/// Writes a UUID in lowercase, with its hyphens.
pub fn uuid_text(alloc: Global, uuid: u128) -> Result<ByteString, AllocError>
    ensures { IfOk result (λ text. text ≡ uuid_text uuid) }
{
    let mut buffer = Uuid::encode_buffer();
    let text = Uuid::from_u128(uuid).hyphenated().encode_lower(&mut buffer);
    ByteString::from_slice(alloc, text.as_bytes())
}

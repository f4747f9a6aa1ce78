//! Comments of locks.
ghost use Rattle.std.specs.Prelude.{◌≡◌};
ghost use Rattle.machine.specs.Commands.{is_long_comment};

use byte_string::ByteString;

/// The most bytes of a lock's comment.
pub const COMMENT_LIMIT: usize = 65_536;

/// Says whether a lock's comment is over the limit.
pub fn is_long_comment(comment: &Option<ByteString>) -> bool
    ensures { result ≡ is_long_comment comment.now }
{
    match comment {
        None => false,
        Some(comment) => COMMENT_LIMIT < comment.as_slice().len(),
    }
}

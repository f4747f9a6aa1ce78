//! With which name a client has tried to log in.

use byte_string::ByteString;
use items::{Item, ItemReader};
use std::alloc::Global;

/// How many bytes of an answer stand behind the name: a space, and the digits of a digest.
const BEHIND_NAME: usize = 33;

/// How many bytes of a name are told at most: nobody fills a journal by long ones.
const LONGEST_NAME: usize = 255;

/// Gives the first answer to a challenge in a piece, which is a string and no part of a list. There is none where the piece begins
/// within an item, or ends within the answer.
pub(crate) fn first_answer(alloc: Global, piece: &[u8]) -> Option<ByteString> {
    let mut reader = ItemReader::new(alloc);
    if reader.feed(piece).is_err() {
        return None;
    }
    // an item has a byte at least
    for _ in piece {
        match reader.next() {
            Ok(Some(Item::Str(answer))) => return Some(answer),
            Ok(Some(_)) => {}
            _ => return None,
        }
    }
    None
}

/// Gives the name in an answer, which stands before the digest, if it is not too long.
pub(crate) fn name_in(answer: &ByteString) -> Option<&[u8]> {
    let answer = answer.as_slice();
    if answer.len() < BEHIND_NAME || answer.len() > BEHIND_NAME + LONGEST_NAME {
        return None;
    }
    Some(&answer[..answer.len() - BEHIND_NAME])
}

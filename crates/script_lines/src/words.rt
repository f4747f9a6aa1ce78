//! The words of a line.
ghost use Rattle.std.specs.Prelude.{◌≤◌, IfSome};
ghost use Rattle.dates.specs.declared.TheConstants.{LAST_MOMENT};

use crate::fault::LineFault;
use dates::LAST_MOMENT;
use hex::FromHexError;
use std::alloc::Global;
use store_files::{FileName, Left};
use uuid::Uuid;

/// Says whether a word has nothing but decimal digits, which is so of the empty word too.
fn is_decimal(word: &str) -> bool {
    word.bytes().all(|b| b.is_ascii_digit())
}

/// Says whether a word has nothing but hexadecimal digits in lowercase, which is so of the empty word too.
fn is_lower_hex(word: &str) -> bool {
    word.bytes()
        .all(|b| b.is_ascii_digit() || (b'a' <= b && b <= b'f'))
}

/// Reads a decimal number.
pub fn parse_number(word: &str) -> Option<u64> {
    if !is_decimal(word) {
        return None;
    }
    word.parse::<u64>().ok()
}

/// Reads a decimal number of up to 128 bits.
pub fn parse_wide_number(word: &str) -> Option<u128> {
    if !is_decimal(word) {
        return None;
    }
    word.parse::<u128>().ok()
}

/// Reads a moment that has a date.
pub fn parse_moment(word: &str) -> Option<u64>
    ensures { IfSome result (λ moment. moment ≤ LAST_MOMENT) }
{
    let moment = parse_number(word)?;
    if LAST_MOMENT < moment {
        return None;
    }
    Some(moment)
}

/// Reads a UUID with its hyphens.
pub fn parse_uuid(word: &str) -> Option<u128> {
    if word.len() != 36 {
        return None;
    }
    match Uuid::try_parse(word) {
        Ok(uuid) => Some(uuid.as_u128()),
        Err(_) => None,
    }
}

/// Reads bytes by their digits, or `-` for none.
pub fn parse_bytes(alloc: Global, word: &str) -> Result<Vec<u8>, LineFault> {
    if word == "-" {
        return Ok(Vec::new(alloc));
    }
    if word.is_empty() || !is_lower_hex(word) {
        return Err(LineFault::Unknown);
    }
    match hex::decode(alloc, word) {
        Ok(bytes) => Ok(bytes),
        Err(FromHexError::OutOfMemory) => Err(LineFault::NoMemory),
        Err(_) => Err(LineFault::Unknown),
    }
}

/// Reads what a call that fails leaves.
pub fn parse_fuse(word: &str) -> Option<Left> {
    match word {
        "old" => Some(Left::Old),
        "new" => Some(Left::New),
        "torn" => Some(Left::Torn),
        _ => None,
    }
}

/// Reads the number of a revision.
fn parse_revision(word: &str) -> Option<u32> {
    u32::try_from(parse_number(word)?).ok()
}

/// Reads the shard that a file is in, if it is in one, and the number of its revision.
fn parse_place(word: &str) -> Option<(Option<u32>, u32)> {
    match word.split_once('/') {
        Some((shard, number)) => Some((Some(parse_revision(shard)?), parse_revision(number)?)),
        None => Some((None, parse_revision(word)?)),
    }
}

/// Gives the file of a repository that has this name in its folder. Which shard a revision is in is not judged.
pub fn parse_file(word: &str) -> Option<FileName> {
    if let Some(place) = word.strip_prefix("revs/") {
        let (shard, number) = parse_place(place)?;
        return Some(FileName::Revision(shard, number));
    }
    if let Some(place) = word.strip_prefix("revprops/") {
        let (shard, number) = parse_place(place)?;
        return Some(FileName::Properties(shard, number));
    }
    match word {
        "format" => Some(FileName::Format),
        "fs-type" => Some(FileName::Kind),
        "uuid" => Some(FileName::Uuid),
        "current" => Some(FileName::Current),
        "locks.dump" => Some(FileName::Locks),
        _ => None,
    }
}

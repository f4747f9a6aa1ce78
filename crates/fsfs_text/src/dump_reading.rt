//! Reading a dump.
ghost use Rattle.std.specs.Prelude.{◌≡◌, List, Ok, IfOk};
ghost use Rattle.fsfs_text.specs.{Reading.{Answers, Gives}, Dumps.dump, DumpReading.{length_of, text_of, sized_behind, pair_behind, dump_of}};
ghost use Rattle.fsfs_text.specs.declared.pair.DumpPair.{DumpPair};

use crate::fault::FileFault;
use crate::numeral::parse_decimal;
use crate::pair::DumpPair;
use crate::split::{line_at, split_once};
use byte_string::ByteString;
use std::alloc::{AllocError, Global};

/// Reads the length that a line of this letter says.
#[tactic(auto, unfolding(crate::specs::DumpReading::length_of))]
fn read_length(letter: u8, line: &[u8]) -> Option<u64>
    ensures { result ≡ length_of letter line.now }
{
    let (front, digits) = split_once(line, b' ')?;
    match front {
        [b] if *b == letter => parse_decimal(digits),
        _ => None,
    }
}

/// Reads so many bytes and a line feed, and gives what stands behind them too.
#[tactic(auto, unfolding(crate::specs::DumpReading::text_of))]
fn read_text(len: u64, bytes: &[u8]) -> Result<(&[u8], &[u8]), FileFault>
    ensures { Gives (λ p. (p.0.now, p.1.now)) result (text_of len bytes.now) }
{
    let len = len as usize;
    if bytes.len() <= len {
        return Err(FileFault::Truncated);
    }
    if bytes[len] != b'\n' {
        return Err(FileFault::BadLine);
    }
    Ok((&bytes[..len], &bytes[len + 1..]))
}

/// Reads the text whose length the line says, and gives what stands behind it too.
#[tactic(auto, unfolding(crate::specs::DumpReading::sized_behind))]
fn read_sized<'a>(
    letter: u8,
    line: &[u8],
    rest: &'a [u8],
) -> Result<(&'a [u8], &'a [u8]), FileFault>
    ensures { Gives (λ p. (p.0.now, p.1.now)) result (sized_behind letter line.now rest.now) }
{
    match read_length(letter, line) {
        Some(len) => read_text(len, rest),
        None => Err(FileFault::BadLine),
    }
}

/// Reads the key whose length the line says and its value, and gives what stands behind them too.
#[tactic(auto, unfolding(crate::specs::DumpReading::pair_behind))]
fn read_pair<'a>(line: &[u8], rest: &'a [u8]) -> Result<(&'a [u8], &'a [u8], &'a [u8]), FileFault>
    ensures { Gives (λ p. (p.0.now, p.1.now, p.2.now)) result (pair_behind line.now rest.now) }
{
    let (key, rest) = read_sized(b'K', line, rest)?;
    let (line, rest) = line_at(rest)?;
    let (value, rest) = read_sized(b'V', line, rest)?;
    Ok((key, value, rest))
}

/// Copies a key and its value.
fn pair_of(alloc: Global, key: &[u8], value: &[u8]) -> Result<DumpPair, AllocError>
    ensures { IfOk result (λ pair. pair ≡ record { key = key.now; value = value.now }) }
{
    Ok(DumpPair {
        key: ByteString::from_slice(alloc, key)?,
        value: ByteString::from_slice(alloc, value)?,
    })
}

/// Reads pairs one after another, up to the end of the dump.
fn all_pairs(alloc: Global, bytes: &[u8]) -> Result<Vec<DumpPair>, FileFault>
    ensures { Answers (λ v. v.items) result (dump_of bytes.now) }
{
    let mut pairs = Vec::new(alloc);
    let mut rest = bytes;
    for _ in 0..bytes.len() {
        let (line, behind) = line_at(rest)?;
        if line == b"END".as_slice() {
            return if behind.is_empty() {
                Ok(pairs)
            } else {
                Err(FileFault::BadLine)
            };
        }
        let (key, value, behind) = read_pair(line, behind)?;
        pairs.push(pair_of(alloc, key, value)?)?;
        rest = behind;
    }
    Err(FileFault::Truncated)
}

/// Reads the pairs of a dump, which all of the bytes are, in the order in which they stand there.
///
/// # Errors
///
/// The first fault from the left: `Truncated` where the bytes end within a dump, else `BadLine`; or
/// `NoMemory`.
pub fn read_dump(alloc: Global, bytes: &[u8]) -> Result<Vec<DumpPair>, FileFault>
    ensures exact { Answers (λ v. v.items) result (dump_of bytes.now) }
    // What was written is read again, in whatever order it was written.
    ensures again { (pairs : List DumpPair) → bytes.now ≡ dump pairs
        → Answers (λ v. v.items) result (Ok pairs) }
{
    let _length = bytes.len();
    all_pairs(alloc, bytes)
}

//! Lines that say where a representation stands.
ghost use Rattle.std.specs.Prelude.{◌≡◌, ◌++◌, OnOk, codes};
ghost use Rattle.fsfs_text.specs.{Numerals.numeral, Representations.{representation_text, representation_of, digest_of}};
ghost use Rattle.hex.specs.Hex.{encode_lower};

use crate::numeral::{append_number, parse_decimal, parse_decimal_32};
use crate::split::split_once;
use std::alloc::AllocError;

/// Says where a representation stands: in the file of a revision, at an offset, in so many bytes.
/// What it stands for has this size, in bytes, and this MD5.
#[derive(Clone, Copy, Debug, PartialEq, Eq)]
pub struct Representation {
    pub revision: u32,
    pub offset: u64,
    pub length: u64,
    pub size: u64,
    pub digest: [u8; 16],
}

/// Appends the digits of a digest.
fn append_digest(out: &mut Vec<u8>, digest: [u8; 16]) -> Result<(), AllocError>
    ensures { OnOk result (out.new.items ≡ out.old.items ++ encode_lower digest) }
{
    let mut digits = [0; 32];
    hex::encode_to_slice(&digest, &mut digits).unwrap();
    out.extend_from_slice(&digits)
}

/// Appends a number and a space.
fn append_field(out: &mut Vec<u8>, n: u64) -> Result<(), AllocError>
    ensures { OnOk result (out.new.items ≡ out.old.items ++ (numeral 10 n ++ codes " ")) }
{
    append_number(out, n)?;
    out.extend_from_slice(b" ")
}

/// Appends `<revision> <offset> <length> <size> <digest>`.
pub fn append_representation(
    out: &mut Vec<u8>,
    representation: &Representation,
) -> Result<(), AllocError>
    ensures { OnOk result (out.new.items
        ≡ out.old.items ++ representation_text representation.now) }
{
    append_field(out, representation.revision as u64)?;
    append_field(out, representation.offset)?;
    append_field(out, representation.length)?;
    append_field(out, representation.size)?;
    append_digest(out, representation.digest)
}

/// Reads the digest that 32 hexadecimal digits spell.
fn parse_digest(digits: &[u8]) -> Option<[u8; 16]>
    ensures { result ≡ digest_of digits.now }
{
    let mut digest = [0; 16];
    match hex::decode_to_slice(digits, &mut digest) {
        Ok(()) => Some(digest),
        Err(_) => None,
    }
}

/// Reads the line that the bytes spell.
#[tactic(auto, unfolding(crate::specs::Representations::representation_of))]
pub fn parse_representation(bytes: &[u8]) -> Option<Representation>
    ensures { result ≡ representation_of bytes.now }
{
    let (revision, rest) = split_once(bytes, b' ')?;
    let (offset, rest) = split_once(rest, b' ')?;
    let (length, rest) = split_once(rest, b' ')?;
    let (size, digest) = split_once(rest, b' ')?;
    let revision = parse_decimal_32(revision)?;
    let offset = parse_decimal(offset)?;
    let length = parse_decimal(length)?;
    let size = parse_decimal(size)?;
    let digest = parse_digest(digest)?;
    Some(Representation {
        revision,
        offset,
        length,
        size,
        digest,
    })
}

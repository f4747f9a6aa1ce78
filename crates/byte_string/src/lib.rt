//! Bytes that contracts see as a list.
//!
//! A `ByteString` owns any bytes: a component of a path, a string of the wire protocol, a token, a
//! name, a text. A clause sees the list of its bytes and no buffer, so two that hold the same bytes
//! are equal in clauses too, and a copy is the same value. They are ordered byte by byte; one that
//! begins another is less. Up to 30 bytes take no memory of their own.
#![tactic(auto)]

mod sequence;

ghost use Rattle.std.specs.{Prelude.{◌≡◌, ◌==◌, ◌≤◌, ℕ, List, refl, Some, IfOk, length}, Cmp.partial_equiv_from_equiv};
ghost use Rattle.std.specs.{Cmp.Lexicographic.{slice_cmp, pointwise, texts_ties, texts_po}, Ordering.nat_cmp};
ghost use Rattle.byte_string.specs.Bytes.{list_of, IsWithin};

pub use sequence::Sequence;
use std::alloc::{AllocError, Global};
use std::cmp::Ordering;
use std::marker::Model;

/// The most bytes that have no memory of their own.
const SHORT: usize = 30;

/// Bytes: a few are held in place, with their number; more have memory of their own.
#[derive(Debug, Drop)]
enum Bytes {
    Short(u8, [u8; SHORT]),
    Long(Vec<u8>),
}

/// Any bytes. A clause sees their list and no buffer, so two that hold the same bytes are equal.
#[derive(Debug)]
pub struct ByteString {
    bytes: Bytes,
}

impl Drop for ByteString {
    fn drop(self) {
        let ByteString { bytes: _ } = self;
    }
}

impl Model for ByteString {
    ghost Value = { List ℕ };

    ghost view = { λ b. list_of b.bytes };

    ghost invariant = { λ b. IsWithin b.bytes };
}

/// Holds a few bytes.
fn short(bytes: &[u8]) -> Bytes
    requires { length bytes.now ≤ 30 }
    ensures bytes { list_of result ≡ bytes.now }
    ensures within { IsWithin result }
{
    let mut held = [0_u8; SHORT];
    held[..bytes.len()].copy_from_slice(bytes);
    Bytes::Short(bytes.len() as u8, held)
}

impl ByteString {
    /// Makes the byte string of these bytes, which are moved, and copied only if they are a few.
    pub fn new(items: Vec<u8>) -> Self
        ensures { result ≡ items.items }
    {
        let bytes = if items.len() <= SHORT {
            short(items.as_slice())
        } else {
            Bytes::Long(items)
        };
        ByteString { bytes }
    }

    /// Makes a copy of these bytes.
    ///
    /// # Errors
    ///
    /// `AllocError` where there is no memory for the copy.
    pub fn from_slice(alloc: Global, bytes: &[u8]) -> Result<Self, AllocError>
        ensures { IfOk result (λ copy. copy ≡ bytes.now) }
    {
        let bytes = if bytes.len() <= SHORT {
            short(bytes)
        } else {
            Bytes::Long(Vec::from_slice(alloc, bytes)?)
        };
        Ok(ByteString { bytes })
    }

    /// Gives the bytes, lent out.
    pub fn as_slice(&self) -> &[u8]
        ensures { result.now ≡ self.now }
    {
        match &self.bytes {
            Bytes::Short(count, held) => &held[..*count as usize],
            Bytes::Long(items) => items.as_slice(),
        }
    }
}

impl Clone for ByteString {
    ghost is_clone = { λ bytes copy. copy ≡ bytes };

    fn clone(&self) -> Result<Self, AllocError> {
        let bytes = match &self.bytes {
            Bytes::Short(count, held) => Bytes::Short(*count, *held),
            Bytes::Long(items) => Bytes::Long(items.clone()?),
        };
        Ok(ByteString { bytes })
    }
}

impl PartialEq for ByteString {
    ghost use Rattle.std.proofs.lemmas.Cmp.{nat_list_eq_equiv};

    ghost eq = { pointwise ◌==◌ };

    ghost laws = { partial_equiv_from_equiv nat_list_eq_equiv };

    fn eq(&self, other: &Self) -> bool {
        self.as_slice() == other.as_slice()
    }
}

impl Eq for ByteString {
    ghost use Rattle.std.proofs.lemmas.Cmp.{nat_list_eq_equiv};

    ghost laws = { nat_list_eq_equiv };
}

impl Ord for ByteString {
    ghost use Rattle.std.proofs.lemmas.Cmp.{nat_list_cmp_total};

    ghost cmp = { slice_cmp nat_cmp };

    ghost total = { nat_list_cmp_total };

    ghost matches_partial_cmp = { λ x y. refl };

    ghost matches_eq = { texts_ties };

    fn cmp(&self, other: &Self) -> Ordering {
        self.as_slice().cmp(other.as_slice())
    }
}

impl PartialOrd for ByteString {
    ghost partial_cmp = { λ x y. Some (slice_cmp nat_cmp x y) };

    ghost laws = { texts_po };

    fn partial_cmp(&self, other: &Self) -> Option<Ordering> {
        Some(self.cmp(other))
    }
}

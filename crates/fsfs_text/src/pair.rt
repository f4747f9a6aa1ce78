//! A key and its value.

use byte_string::ByteString;

/// Holds a key and its value.
#[derive(Debug, Drop)]
pub struct DumpPair {
    pub key: ByteString,
    pub value: ByteString,
}

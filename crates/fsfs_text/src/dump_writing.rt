//! Writing a dump.
ghost use Rattle.std.specs.Prelude.{◌≡◌, ◌++◌, OnOk, IfOk, codes};
ghost use Rattle.fsfs_text.specs.Dumps.{sized, pair_bytes, dump};

use crate::numeral::append_number;
use crate::pair::DumpPair;
use std::alloc::{AllocError, Global};

/// Appends a text with its length on a line before it.
fn append_sized(out: &mut Vec<u8>, letter: u8, text: &[u8]) -> Result<(), AllocError>
    ensures { OnOk result (out.new.items ≡ out.old.items ++ sized letter text.now) }
{
    out.push(letter)?;
    out.push(b' ')?;
    append_number(out, text.len() as u64)?;
    out.push(b'\n')?;
    out.extend_from_slice(text)?;
    out.push(b'\n')?;
    Ok(())
}

/// Appends a key and its value. An `Err` may leave a part of them.
pub fn append_pair(out: &mut Vec<u8>, key: &[u8], value: &[u8]) -> Result<(), AllocError>
    ensures { OnOk result (out.new.items ≡ out.old.items
        ++ pair_bytes (record { key = key.now; value = value.now })) }
{
    append_sized(out, b'K', key)?;
    append_sized(out, b'V', value)
}

/// Appends the end of a dump.
pub fn append_end(out: &mut Vec<u8>) -> Result<(), AllocError>
    ensures { OnOk result (out.new.items ≡ out.old.items ++ codes "END\n") }
{
    out.extend_from_slice(b"END\n")
}

/// Makes the dump of these pairs, in their order.
pub fn write_dump(alloc: Global, pairs: &[DumpPair]) -> Result<Vec<u8>, AllocError>
    ensures { IfOk result (λ v. v.items ≡ dump pairs.now) }
{
    let mut out = Vec::new(alloc);
    for pair in pairs {
        append_pair(&mut out, pair.key.as_slice(), pair.value.as_slice())?;
    }
    append_end(&mut out)?;
    Ok(out)
}

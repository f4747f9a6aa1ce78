//! Checksums of texts.
ghost use Rattle.std.specs.{Prelude.{◌≡◌, IfOk}, Str.str_eq_ignore_ascii_case};
ghost use Rattle.hex.specs.Hex.{encode_lower};
ghost use Rattle.md5.specs.Md5.{md5};
ghost use Rattle.edit_rules.specs.{Refusing.checksum_refusal, Judging.Judges};

use crate::judging::judge;
use byte_string::ByteString;
use refusals::{NotDone, Refusal};
use repo_api::FileText;
use std::alloc::{AllocError, Global};

/// Checks that the text has this checksum, if one is named. The digest that the text keeps is compared.
pub fn judge_checksum(
    alloc: Global,
    checksum: &Option<ByteString>,
    text: &FileText,
) -> Result<(), NotDone>
    ensures { Judges result (checksum_refusal checksum.now text.now) }
{
    match checksum {
        None => Ok(()),
        Some(digits) => {
            let same = is_checksum(alloc, digits, text)?;
            judge(same, Refusal::ChecksumMismatch)
        }
    }
}

/// Says whether these are the digits of a text's MD5, each in either case.
fn is_checksum(alloc: Global, digits: &ByteString, text: &FileText) -> Result<bool, AllocError>
    ensures { IfOk result (λ same. same
        ≡ str_eq_ignore_ascii_case digits.now (encode_lower (md5 text.now))) }
{
    let right = text.digest_text(alloc)?;
    Ok(digits.as_slice().eq_ignore_ascii_case(right.as_slice()))
}

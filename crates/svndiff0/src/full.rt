//! Writing a whole text as a document.

ghost use Rattle.std.specs.Prelude.{◌≡◌, ◌<◌, ◌≤◌, ◌^◌, ◌++◌, ℕ, List, Ok, length, IfOk, OnOk};
ghost use Rattle.svndiff0.specs.{Full.{integer_of, new_data_of, full_window, full_document}, Window.limit, Document.document_text};

use crate::reading::HEADER;
use std::alloc::{AllocError, Global};

/// The longest target view that is written, in bytes.
pub const WINDOW: usize = 65_536;

/// Appends the shortest spelling of an integer.
#[tactic(auto, unfolding(crate::specs::Full::integer_of))]
fn put_integer(document: &mut Vec<u8>, n: usize) -> Result<(), AllocError>
    requires { n < 2 ^ 21 }
    ensures { OnOk result (document.new.items ≡ document.old.items ++ integer_of n) }
{
    if n < 128 {
        document.extend_from_slice(&[n as u8])
    } else if n < 16_384 {
        document.extend_from_slice(&[128 + (n / 128) as u8, (n % 128) as u8])
    } else {
        document.extend_from_slice(&[
            128 + (n / 16_384) as u8,
            128 + (n / 128 % 128) as u8,
            (n % 128) as u8,
        ])
    }
}

/// Says how many bytes the instruction has that takes `n` bytes of new data.
#[tactic(auto, unfolding(crate::specs::Full::new_data_of, crate::specs::Full::integer_of))]
fn new_data_len(n: usize) -> usize
    ensures len { result ≡ length (new_data_of n) }
    ensures short { result ≤ 4 }
{
    match n {
        0..64 => 1,
        64..128 => 2,
        128..16_384 => 3,
        _ => 4,
    }
}

/// Appends the instruction that takes `n` bytes of new data.
#[tactic(auto, unfolding(crate::specs::Full::new_data_of))]
fn put_new_data(document: &mut Vec<u8>, n: usize) -> Result<(), AllocError>
    requires { n < 2 ^ 21 }
    ensures { OnOk result (document.new.items ≡ document.old.items ++ new_data_of n) }
{
    if n < 64 {
        document.extend_from_slice(&[128 + n as u8])
    } else {
        document.extend_from_slice(&[128])?;
        put_integer(document, n)
    }
}

/// Appends the window that gives this text.
#[tactic(auto, unfolding(crate::specs::Full::full_window))]
pub fn put_window(document: &mut Vec<u8>, text: &[u8]) -> Result<(), AllocError>
    requires { length text.now < 2 ^ 21 }
    ensures { OnOk result (document.new.items ≡ document.old.items ++ full_window text.now) }
{
    let n = text.len();
    document.extend_from_slice(&[0, 0])?;
    put_integer(document, n)?;
    put_integer(document, new_data_len(n))?;
    put_integer(document, n)?;
    put_new_data(document, n)?;
    document.extend_from_slice(text)
}

/// Makes a document whose text, over any base, is `text`: the header, and a window of new data for each 65,536 bytes,
/// the last shorter. A text of more than 16,777,216 bytes gives one that no applier takes.
pub fn encode_full(alloc: Global, text: &[u8]) -> Result<Vec<u8>, AllocError>
    ensures spelled { IfOk result (λ v. v.items ≡ full_document text.now) }
    ensures text { length text.now ≤ limit → IfOk result (λ v. (base : List ℕ)
        → document_text base v.items ≡ Ok text.now) }
{
    let mut document = Vec::from_slice(alloc, &HEADER)?;
    let mut rest = text;
    for _ in 0..text.len().div_ceil(WINDOW) {
        let (front, behind) = rest.split_at(rest.len().min(WINDOW));
        put_window(&mut document, front)?;
        rest = behind;
    }
    Ok(document)
}

//! How fast documents of svndiff are applied: 10 MiB of new data, and 10 MiB of source copies. With the word
//! `time` it prints the microseconds; without it only what came out.
#![tactic(auto)]

use anyhow::Result;
use std::alloc::{AllocError, Global};
use std::env;
use std::sync::Arc;
use std::time::Instant;
use svndiff0::{Applier, encode_full};

const SIZE: usize = 10_485_760;

/// Appends a number as four bytes of seven bits, the highest first, also where fewer would do: 2^28 does not fit.
fn put(document: &mut Vec<u8>, n: usize) -> Result<(), AllocError> {
    document.extend_from_slice(&[
        128 + (n / 2_097_152 % 128) as u8,
        128 + (n / 16_384 % 128) as u8,
        128 + (n / 128 % 128) as u8,
        (n % 128) as u8,
    ])
}

/// Windows of 16 copies of 4 KiB.
fn copies(alloc: Global) -> Result<Vec<u8>, AllocError> {
    let mut document = Vec::from_slice(alloc, b"SVN\0")?;
    for window in 0..160usize {
        put(&mut document, window * 65_536)?;
        put(&mut document, 65_536)?;
        put(&mut document, 65_536)?;
        put(&mut document, 16 * 9)?;
        put(&mut document, 0)?;
        for copy in 0..16usize {
            document.extend_from_slice(&[0])?;
            put(&mut document, 4096)?;
            put(&mut document, (15 - copy) * 4096)?;
        }
    }
    Ok(document)
}

/// Applies a document to the base, fed in pieces of at most so many bytes, and gives the text. The first fault ends it.
fn apply(alloc: Global, base: Arc<Vec<u8>>, document: &[u8], size: usize) -> Result<Arc<Vec<u8>>> {
    let mut applier = Applier::new(alloc, base);
    let mut rest = document;
    for _ in 0..document.len() {
        if rest.is_empty() {
            break;
        }
        let (piece, behind) = rest.split_at(rest.len().min(size));
        applier.feed(piece)?;
        rest = behind;
    }
    Ok(applier.share_text()?)
}

/// Applies a document in pieces of 64 KiB and of one byte, and says what came out.
fn measure(
    rt: &HostRuntime,
    what: &str,
    base: &Arc<Vec<u8>>,
    document: &[u8],
    timed: bool,
) -> Result<()> {
    for size in [65_536usize, 1] {
        let start = Instant::now(rt)?;
        let text = apply(rt.alloc(), Arc::try_clone(base)?, document, size)?;
        let taken = start.elapsed(rt)?.as_micros();
        if timed {
            println!(rt;
                "{what}, pieces of {size}: {} bytes in {taken} us",
                text.len()
            )?;
        } else {
            println!(rt; "{what}, pieces of {size}: {} bytes", text.len())?;
        }
    }
    Ok(())
}

fn main(rt: HostRuntime) -> Result<()> {
    let timed = env::args(&rt)?.any(|word| word.as_str() == "time");
    let text = vec![in rt.alloc(); 7u8; SIZE]?;
    let document = encode_full(rt.alloc(), text.as_slice())?;
    let nothing = Arc::new(rt.alloc(), Vec::new(rt.alloc()))?;
    measure(&rt, "new data", &nothing, document.as_slice(), timed)?;
    let copied = copies(rt.alloc())?;
    let text = Arc::new(rt.alloc(), text)?;
    measure(&rt, "copies", &text, copied.as_slice(), timed)?;
    Ok(())
}

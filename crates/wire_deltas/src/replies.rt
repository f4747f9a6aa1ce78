//! Texts as deltas. Where one of these fails, a part of what it says was written.
ghost use Rattle.std.specs.{Prelude.{◌<◌, ◌∷◌, [], map, length, option_copied}, Int.div_ceil};
ghost use Rattle.svndiff0.specs.Document.{header};
ghost use Rattle.text_deltas.specs.Deltas.{delta_chunks, nth_window, windows};
ghost use Rattle.wire_deltas.specs.Texts.{text_or_empty};
ghost use Rattle.wire_replies.specs.{Made.Makes, Sinks.Says};

use byte_string::ByteString;
use repo_api::FileText;
use std::alloc::{AllocError, Global};
use std::mem::drop;
use svndiff0::HEADER;
use text_deltas::Delta;
use wire_replies::{Reply, ReplySink, say_made, say_new};

/// Makes the string with the header of a delta.
fn header(alloc: Global) -> Result<Reply, AllocError>
    ensures { Makes result (Reply.Chunk header) }
{
    let bytes = Vec::from_slice(alloc, &HEADER)?;
    Ok(Reply::Chunk(ByteString::new(bytes)))
}

/// Makes the string with a window.
fn window(alloc: Global, delta: Delta<'_>, place: usize) -> Result<Reply, AllocError>
    requires { place < div_ceil (length delta.text.now) 65536 }
    ensures { Makes result (Reply.Chunk (nth_window delta.entry.before.now delta.entry.text.now place)) }
{
    let bytes = delta.window(alloc, place)?;
    Ok(Reply::Chunk(ByteString::new(bytes)))
}

/// Writes the windows of a delta, each as it is made.
fn say_windows<S: ReplySink>(alloc: Global, delta: Delta<'_>, out: &mut S) -> Result<(), AllocError>
    ensures { Says result (S.writes out.old out.new)
        (map Reply.Chunk (windows delta.entry.before.now delta.entry.text.now)) }
{
    for place in 0..delta.count() {
        say_made(window(alloc, delta, place), out)?;
    }
    Ok(())
}

/// Writes a text whose bytes are in memory, over one whose bytes are.
fn say_over<S: ReplySink>(
    alloc: Global,
    before: &[u8],
    text: &[u8],
    out: &mut S,
) -> Result<(), AllocError>
    ensures { Says result (S.writes out.old out.new)
        (map Reply.Chunk (delta_chunks before.now text.now)) }
{
    say_made(header(alloc), out)?;
    say_windows(alloc, Delta::new(before, text), out)
}

/// Writes a text whose bytes are in memory, over one that is read whole before.
fn say_over_text<S: ReplySink>(
    alloc: Global,
    before: &FileText,
    text: &[u8],
    out: &mut S,
) -> Result<(), AllocError>
    ensures { Says result (S.writes out.old out.new)
        (map Reply.Chunk (delta_chunks before.now text.now)) }
{
    let loaded = out.load(alloc, before)?;
    let said = say_over(alloc, loaded.as_slice(), text, out);
    drop(loaded);
    said
}

/// Writes a text whose bytes are in memory, over the text before, if there is one.
fn say_over_any<S: ReplySink>(
    alloc: Global,
    before: Option<&FileText>,
    text: &[u8],
    out: &mut S,
) -> Result<(), AllocError>
    ensures { Says result (S.writes out.old out.new) (map Reply.Chunk
        (delta_chunks (text_or_empty (option_copied before.entry)) text.now)) }
{
    match before {
        None => say_over(alloc, b"", text, out),
        Some(before) => say_over_text(alloc, before, text, out),
    }
}

/// Writes a text as a delta that leads to it from the text before, if there is one. Both are read whole before.
pub fn say_delta<S: ReplySink>(
    alloc: Global,
    before: Option<&FileText>,
    text: &FileText,
    out: &mut S,
) -> Result<(), AllocError>
    ensures { Says result (S.writes out.old out.new) (map Reply.Chunk
        (delta_chunks (text_or_empty (option_copied before.entry)) text.now)) }
{
    let loaded = out.load(alloc, text)?;
    let said = say_over_any(alloc, before, loaded.as_slice(), out);
    drop(loaded);
    said
}

/// Writes the string that ends a delta, which is empty.
pub fn say_delta_end<S: ReplySink>(alloc: Global, out: &mut S) -> Result<(), AllocError>
    ensures { Says result (S.writes out.old out.new) (Reply.Chunk [] ∷ []) }
{
    say_new(Reply::Chunk(ByteString::new(Vec::new(alloc))), out)
}

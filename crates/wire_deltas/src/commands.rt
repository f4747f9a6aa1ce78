//! Texts as commands of an edit. Where one of these fails, a part of what it says was written.
ghost use Rattle.std.specs.{Prelude.{◌<◌, ◌∷◌, ◌++◌, [], None, map, length, option_copied}, Int.div_ceil};
ghost use Rattle.svndiff0.specs.Document.{header};
ghost use Rattle.text_deltas.specs.Deltas.{delta_chunks, nth_window, windows};
ghost use Rattle.wire_deltas.specs.Texts.{text_commands, text_or_empty};
ghost use Rattle.wire_replies.specs.{Made.Makes, Sinks.Says};

use byte_string::ByteString;
use repo_api::FileText;
use std::alloc::{AllocError, Global};
use std::mem::drop;
use svndiff0::HEADER;
use text_deltas::Delta;
use wire_edits::EditorCommand;
use wire_replies::{Reply, ReplySink, say_made};

/// Makes the command with the next bytes of a delta.
fn chunk(token: &ByteString, bytes: Vec<u8>) -> Result<Reply, AllocError>
    ensures { Makes result (Reply.Edit (EditorCommand.TextDeltaChunk token.now bytes.items)) }
{
    let bytes = ByteString::new(bytes);
    Ok(Reply::Edit(EditorCommand::TextDeltaChunk(token.clone()?, bytes)))
}

/// Makes the command with a window.
fn window(
    alloc: Global,
    token: &ByteString,
    delta: Delta<'_>,
    place: usize,
) -> Result<Reply, AllocError>
    requires { place < div_ceil (length delta.text.now) 65536 }
    ensures { Makes result (Reply.Edit (EditorCommand.TextDeltaChunk token.now
        (nth_window delta.entry.before.now delta.entry.text.now place))) }
{
    let bytes = delta.window(alloc, place)?;
    chunk(token, bytes)
}

/// Makes the command that begins a delta.
fn beginning(token: &ByteString) -> Result<Reply, AllocError>
    ensures { Makes result (Reply.Edit (EditorCommand.ApplyTextDelta token.now None)) }
{
    Ok(Reply::Edit(EditorCommand::ApplyTextDelta(token.clone()?, None)))
}

/// Makes the command that ends a delta.
fn end(token: &ByteString) -> Result<Reply, AllocError>
    ensures { Makes result (Reply.Edit (EditorCommand.TextDeltaEnd token.now)) }
{
    Ok(Reply::Edit(EditorCommand::TextDeltaEnd(token.clone()?)))
}

/// Makes the command with the header of a delta.
fn header(alloc: Global, token: &ByteString) -> Result<Reply, AllocError>
    ensures { Makes result (Reply.Edit (EditorCommand.TextDeltaChunk token.now header)) }
{
    chunk(token, Vec::from_slice(alloc, &HEADER)?)
}

/// Writes the windows of a delta, each as it is made.
fn say_windows<S: ReplySink>(
    alloc: Global,
    token: &ByteString,
    delta: Delta<'_>,
    out: &mut S,
) -> Result<(), AllocError>
    ensures { Says result (S.writes out.old out.new)
        (map Reply.Edit (map (EditorCommand.TextDeltaChunk token.now)
        (windows delta.entry.before.now delta.entry.text.now))) }
{
    for place in 0..delta.count() {
        say_made(window(alloc, token, delta, place), out)?;
    }
    Ok(())
}

/// Writes that a delta begins, and its header.
fn say_begun<S: ReplySink>(alloc: Global, token: &ByteString, out: &mut S) -> Result<(), AllocError>
    ensures { Says result (S.writes out.old out.new)
        (Reply.Edit (EditorCommand.ApplyTextDelta token.now None)
        ∷ Reply.Edit (EditorCommand.TextDeltaChunk token.now header) ∷ []) }
{
    say_made(beginning(token), out)?;
    say_made(header(alloc, token), out)
}

/// Writes the windows of a delta, and its end.
fn say_ended<S: ReplySink>(
    alloc: Global,
    token: &ByteString,
    delta: Delta<'_>,
    out: &mut S,
) -> Result<(), AllocError>
    ensures { Says result (S.writes out.old out.new)
        (map Reply.Edit (map (EditorCommand.TextDeltaChunk token.now)
        (windows delta.entry.before.now delta.entry.text.now)
        ++ EditorCommand.TextDeltaEnd token.now ∷ [])) }
{
    say_windows(alloc, token, delta, out)?;
    say_made(end(token), out)
}

/// Writes a text whose bytes are in memory, over one whose bytes are.
fn say_over<S: ReplySink>(
    alloc: Global,
    token: &ByteString,
    before: &[u8],
    text: &[u8],
    out: &mut S,
) -> Result<(), AllocError>
    ensures { Says result (S.writes out.old out.new)
        (map Reply.Edit (text_commands token.now (delta_chunks before.now text.now))) }
{
    say_begun(alloc, token, out)?;
    say_ended(alloc, token, Delta::new(before, text), out)
}

/// Writes a text whose bytes are in memory, over one that is read whole before.
fn say_over_text<S: ReplySink>(
    alloc: Global,
    token: &ByteString,
    before: &FileText,
    text: &[u8],
    out: &mut S,
) -> Result<(), AllocError>
    ensures { Says result (S.writes out.old out.new)
        (map Reply.Edit (text_commands token.now (delta_chunks before.now text.now))) }
{
    let loaded = out.load(alloc, before)?;
    let said = say_over(alloc, token, loaded.as_slice(), text, out);
    drop(loaded);
    said
}

/// Writes a text whose bytes are in memory, over the text before, if there is one.
fn say_over_any<S: ReplySink>(
    alloc: Global,
    token: &ByteString,
    before: Option<&FileText>,
    text: &[u8],
    out: &mut S,
) -> Result<(), AllocError>
    ensures { Says result (S.writes out.old out.new) (map Reply.Edit (text_commands token.now
        (delta_chunks (text_or_empty (option_copied before.entry)) text.now))) }
{
    match before {
        None => say_over(alloc, token, b"", text, out),
        Some(before) => say_over_text(alloc, token, before, text, out),
    }
}

/// Writes a text over the text before, if there is one. Both are read whole before.
fn say_read<S: ReplySink>(
    alloc: Global,
    token: &ByteString,
    before: Option<&FileText>,
    text: &FileText,
    out: &mut S,
) -> Result<(), AllocError>
    ensures { Says result (S.writes out.old out.new) (map Reply.Edit (text_commands token.now
        (delta_chunks (text_or_empty (option_copied before.entry)) text.now))) }
{
    let loaded = out.load(alloc, text)?;
    let said = say_over_any(alloc, token, before, loaded.as_slice(), out);
    drop(loaded);
    said
}

/// Writes a text as the commands of a delta that leads to it from the text before, if there is one. Both are read whole
/// before, and for a text of no bytes none is.
pub fn say_text<S: ReplySink>(
    alloc: Global,
    token: &ByteString,
    before: Option<&FileText>,
    text: &FileText,
    out: &mut S,
) -> Result<(), AllocError>
    ensures { Says result (S.writes out.old out.new) (map Reply.Edit (text_commands token.now
        (delta_chunks (text_or_empty (option_copied before.entry)) text.now))) }
{
    if text.as_slice().is_empty() {
        say_header(alloc, token, out)
    } else {
        say_read(alloc, token, before, text, out)
    }
}

/// Writes that a text is another, and nothing of it: the header of a delta alone.
pub fn say_header<S: ReplySink>(
    alloc: Global,
    token: &ByteString,
    out: &mut S,
) -> Result<(), AllocError>
    ensures { Says result (S.writes out.old out.new)
        (map Reply.Edit (text_commands token.now (header ∷ []))) }
{
    say_begun(alloc, token, out)?;
    say_made(end(token), out)
}

//! Texts, sent over those that the client has. Where one of these fails, a part of what it says was written.
ghost use Rattle.std.specs.Prelude.{◌∷◌, ◌++◌, [], option_copied};
ghost use Rattle.drive_sending.specs.{Commands.{sent_commands, checksum_sent}, Driving.Sends};
ghost use Rattle.wire_deltas.specs.Texts.{text_or_empty};
ghost use Rattle.wire_replies.specs.Made.{Makes};

use crate::saying::say_made;
use byte_string::ByteString;
use repo_api::FileText;
use reporter::Purpose;
use std::alloc::{AllocError, Global};
use wire_deltas::say_text;
use wire_edits::EditorCommand;
use wire_replies::ReplySink;

/// What the text of a file is sent for, and over which text, if the client has one.
#[derive(Clone, Copy)]
pub(crate) struct Basis<'a> {
    pub purpose: Purpose,
    pub before: Option<&'a FileText>,
}

/// Makes the digits with which a file is closed.
fn checksum_sent(
    alloc: Global,
    purpose: Purpose,
    text: &Option<FileText>,
) -> Result<Option<ByteString>, AllocError>
    ensures { Makes result (checksum_sent purpose text.now) }
{
    let Some(text) = text else {
        return Ok(None);
    };
    match purpose {
        Purpose::Status | Purpose::Summary => Ok(None),
        Purpose::Update | Purpose::Switch | Purpose::Diff => Ok(Some(text.digest_text(alloc)?)),
    }
}

/// Makes the command that closes a file.
fn close(
    alloc: Global,
    purpose: Purpose,
    token: &ByteString,
    text: &Option<FileText>,
) -> Result<EditorCommand, AllocError>
    ensures { Makes result (EditorCommand.CloseFile token.now (checksum_sent purpose text.now)) }
{
    let checksum = checksum_sent(alloc, purpose, text)?;
    Ok(EditorCommand::CloseFile(token.clone()?, checksum))
}

/// Writes a text, if it is sent, and the close of its file.
pub(crate) fn say_file_end<S: ReplySink>(
    alloc: Global,
    basis: Basis<'_>,
    token: &ByteString,
    text: &Option<FileText>,
    out: &mut S,
) -> Result<(), AllocError>
    ensures { Sends result (S.writes out.old out.new)
        (sent_commands token.now (text_or_empty (option_copied basis.entry.before)) text.now
        ++ EditorCommand.CloseFile token.now (checksum_sent basis.entry.purpose text.now) ∷ []) }
{
    say_sent(alloc, token, basis.before, text, out)?;
    say_made(close(alloc, basis.purpose, token, text), out)
}

/// Writes a text, if it is sent, over the text that the client has.
fn say_sent<S: ReplySink>(
    alloc: Global,
    token: &ByteString,
    before: Option<&FileText>,
    text: &Option<FileText>,
    out: &mut S,
) -> Result<(), AllocError>
    ensures { Sends result (S.writes out.old out.new)
        (sent_commands token.now (text_or_empty (option_copied before.entry)) text.now) }
{
    match text {
        None => Ok(()),
        Some(text) => say_text(alloc, token, before, text, out),
    }
}

//! What a file is told of its text. Where one of these fails that write, a part of what it says was written.
ghost use Rattle.std.specs.Prelude.{◌≡◌, option_copied};
ghost use Rattle.repo_api.specs.Kinds.{text_at};
ghost use Rattle.wire_forms.specs.Forms.{is_name};
ghost use Rattle.wire_deltas.specs.Texts.{text_or_empty};
ghost use Rattle.replays.specs.{Commands.{text_there, text_told_commands, told_if_other}, Sending.Sends, Shaping.base_of};

use crate::ask::ReplayAsk;
use crate::places::Shape;
use crate::replayed::Replayed;
use byte_string::ByteString;
use repo_api::{FileText, Repository};
use small_rules::is_same_text;
use std::alloc::{AllocError, Global};
use svnpath::Path;
use traces::Place;
use wire_deltas::{say_header, say_text};
use wire_replies::ReplySink;

/// What a file is told of its text.
#[derive(Clone, Copy)]
pub(crate) struct TextTold<'a> {
    /// The text that the client has of it, if there is one.
    pub(crate) before: Option<&'a FileText>,
    /// The text, if the file is told it.
    pub(crate) text: Option<&'a FileText>,
}

/// Finds the text of what is at a place, if there is one.
fn text_there<'a, R: Repository>(view: &'a R, place: Option<&Place>) -> Option<&'a FileText>
    ensures { text_or_empty (option_copied result)
        ≡ text_there (R.content view.now) (option_copied place.entry) }
{
    let place = place?;
    view.text(place.revision, &place.path)
}

/// Says whether a text is the one before. Where there is none before, it is if it has no bytes.
fn is_text_before(before: Option<&FileText>, text: &FileText) -> bool
    ensures { result ≡ is_name (text_or_empty (option_copied before.entry)) text.now }
{
    match before {
        Some(before) => is_same_text(before, text),
        None => text.as_slice().is_empty(),
    }
}

/// Gives a text, if a file is told it: where the list says so, or it is another than the one before.
fn told_if_other<'a>(
    is_listed: bool,
    before: Option<&FileText>,
    text: Option<&'a FileText>,
) -> Option<&'a FileText>
    ensures { option_copied result ≡ told_if_other is_listed
        (text_or_empty (option_copied before.entry)) (option_copied text.entry) }
{
    let text = text?;
    if is_listed || !is_text_before(before, text) {
        Some(text)
    } else {
        None
    }
}

/// Gives what a file is told of its text: the text, where the list says so, or it is another than the one that the client
/// has.
pub(crate) fn text_told<'a, R: Repository>(
    replay: &'a Replayed<R>,
    path: &Path,
    shape: &Shape,
) -> TextTold<'a>
    ensures before { text_or_empty (option_copied result.before)
        ≡ text_there (R.content replay.now.view.now) (base_of shape.now) }
    ensures text { option_copied result.text ≡ told_if_other shape.now.has_text
        (text_there (R.content replay.now.view.now) (base_of shape.now))
        (text_at (R.content replay.now.view.now) replay.now.revision path.now) }
{
    let before = text_there(replay.view, shape.base());
    let text = replay.view.text(replay.revision, path);
    TextTold {
        before,
        text: told_if_other(shape.has_text, before, text),
    }
}

/// Writes the text of a file, if it is told one, over the one that the client has; or of it no more than that it is another.
pub(crate) fn say_text_told<S: ReplySink>(
    alloc: Global,
    ask: &ReplayAsk,
    token: &ByteString,
    told: TextTold<'_>,
    out: &mut S,
) -> Result<(), AllocError>
    ensures { Sends result (S.writes out.old out.new)
        (text_told_commands ask.now.sends_deltas token.now
        (text_or_empty (option_copied told.entry.before)) (option_copied told.entry.text)) }
{
    match told.text {
        None => Ok(()),
        Some(text) => {
            if ask.sends_deltas {
                say_text(alloc, token, told.before, text, out)
            } else {
                say_header(alloc, token, out)
            }
        }
    }
}

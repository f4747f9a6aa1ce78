//! Files, and their texts.
ghost use Rattle.std.specs.Prelude.{◌≡◌, ◌∷◌, ◌++◌, [], IfOk};
ghost use Rattle.svnpath.specs.Texts.{joined};
ghost use Rattle.repo_api.specs.Kinds.{text_at};
ghost use Rattle.wire_replies.specs.{Replies.contents, Sinks.Says, declared.reply.Reply.Reply};
ghost use Rattle.machine.specs.Readings.{file_at, file_replies, file_told, no_file, place_read, text_told};

use crate::asked::PlaceAsked;
use crate::entries::shown_properties;
use crate::places::place_read;
use crate::refusing::tell_refusal_at;
use byte_string::ByteString;
use commands::GetFileCommand;
use history::Place;
use machine::Client;
use refusals::Refusal;
use repo_api::{FileText, NodeKind, Repository};
use std::alloc::{AllocError, Global};
use std::mem::drop;
use wire_replies::{FileInfo, Reply, ReplySink, say_contents, say_file_info, tell_refusal};

/// Writes what is told of the file at a path, seen from the path of the client's URL.
pub(crate) fn say_file<R: Repository, S: ReplySink>(
    alloc: Global,
    view: &R,
    client: &Client,
    command: &GetFileCommand,
    out: &mut S,
) -> Result<(), AllocError>
    ensures { let c = R.content view.now in Says result (S.writes out.old out.new)
        (file_replies client.now.is_of_today c command.now
        (place_read c command.now.revision (joined client.now.path command.now.path))) }
{
    match place_read(alloc, view, &client.path, &command.path, command.revision)? {
        Ok(place) => {
            let asked = PlaceAsked {
                place: &place,
                is_of_today: client.is_of_today,
            };
            say_file_at(alloc, view, command, asked, out)
        }
        Err(refusal) => tell_refusal(refusal, out),
    }
}

/// Writes what is told of the file at a place, if one stands there, and then its text, if that is
/// wanted.
fn say_file_at<R: Repository, S: ReplySink>(
    alloc: Global,
    view: &R,
    command: &GetFileCommand,
    asked: PlaceAsked<'_>,
    out: &mut S,
) -> Result<(), AllocError>
    ensures { let c = R.content view.now in let at = asked.entry.place.now in
        Says result (S.writes out.old out.new)
        (file_at asked.entry.is_of_today c command.now at (text_at c at.revision at.path)) }
{
    let place = asked.place;
    match view.text(place.revision, &place.path) {
        Some(text) => {
            let told = file_told(alloc, view, command.wants_properties, place, text);
            say_told(alloc, told, out)?;
            say_wanted(alloc, command.wants_contents, text, out)
        }
        None => {
            let refusal = no_file(view.kind(place.revision, &place.path));
            tell_refusal_at(asked.is_of_today, refusal, &place.path, out)
        }
    }
}

/// Writes a text, and that it is whole, where it is wanted.
fn say_wanted<S: ReplySink>(
    alloc: Global,
    wanted: bool,
    text: &FileText,
    out: &mut S,
) -> Result<(), AllocError>
    ensures { Says result (S.writes out.old out.new) (text_told wanted text.now) }
{
    if wanted {
        say_text(alloc, text, out)
    } else {
        Ok(())
    }
}

/// Writes a text, and that it is whole.
fn say_text<S: ReplySink>(alloc: Global, text: &FileText, out: &mut S) -> Result<(), AllocError>
    ensures { Says result (S.writes out.old out.new) (contents text.now ++ Reply.Success ∷ []) }
{
    say_contents(alloc, text, out)?;
    out.say(&Reply::Success)
}

/// Gives what is sent of a file before its text.
fn file_told<R: Repository>(
    alloc: Global,
    view: &R,
    wants_properties: bool,
    place: &Place,
    text: &FileText,
) -> Result<FileInfo, AllocError>
    ensures { IfOk result (λ info. Reply.FileInfo info
        ≡ file_told (R.content view.now) wants_properties place.now text.now) }
{
    Ok(FileInfo {
        digest: Some(text.digest_text(alloc)?),
        revision: place.revision,
        properties: shown_properties(alloc, view, place, wants_properties)?,
    })
}

/// Writes what is sent of a file before its text, if it could be made.
fn say_told<S: ReplySink>(
    alloc: Global,
    told: Result<FileInfo, AllocError>,
    out: &mut S,
) -> Result<(), AllocError>
    ensures { (reply : Reply) → IfOk told (λ info. Reply.FileInfo info ≡ reply)
        → Says result (S.writes out.old out.new) (reply ∷ []) }
{
    match told {
        Ok(info) => {
            let said = say_file_info(alloc, &info, out);
            drop(info);
            said
        }
        Err(error) => Err(error),
    }
}

/// Says why there is no file: nothing exists there, or a directory.
pub(crate) fn no_file(kind: NodeKind) -> Refusal
    ensures { result ≡ no_file kind }
{
    match kind {
        NodeKind::Absent => Refusal::NotFound,
        NodeKind::File => Refusal::NotAFile,
        NodeKind::Directory => Refusal::NotAFile,
    }
}

//! Directories, and their entries.
ghost use Rattle.std.specs.Prelude.{true, ◌∷◌, []};
ghost use Rattle.svnpath.specs.Texts.{joined};
ghost use Rattle.repo_api.specs.Kinds.{kind_at};
ghost use Rattle.items.specs.Print.{row_printed};
ghost use Rattle.machine.specs.Readings.{directory_at, directory_reply, directory_told, entries_told, entry_told, place_read};
ghost use Rattle.wire_replies.specs.{Made.Makes, Replies.entry_trees, Sinks.{Says, Writes}};

use crate::asked::PlaceAsked;
use crate::entries::{node_info, shown_properties};
use crate::places::place_read;
use crate::refusing::tell_refusal_at;
use byte_string::ByteString;
use commands::GetDirCommand;
use history::Place;
use machine::Client;
use refusals::Refusal;
use repo_api::{NodeKind, Repository};
use std::alloc::{AllocError, Global};
use wire_replies::{
    NodeInfo, ReplySink, say_directory_end, say_directory_head, say_entry, tell_refusal,
};

/// Writes the directory at a path, seen from the path of the client's URL.
pub(crate) fn say_dir<R: Repository, S: ReplySink>(
    alloc: Global,
    view: &R,
    client: &Client,
    command: &GetDirCommand,
    out: &mut S,
) -> Result<(), AllocError>
    ensures { let c = R.content view.now in Says result (S.writes out.old out.new)
        (directory_reply client.now.is_of_today c command.now
        (place_read c command.now.revision (joined client.now.path command.now.path)) ∷ []) }
{
    match place_read(alloc, view, &client.path, &command.path, command.revision)? {
        Ok(place) => {
            let asked = PlaceAsked {
                place: &place,
                is_of_today: client.is_of_today,
            };
            say_dir_at(alloc, view, command, asked, out)
        }
        Err(refusal) => tell_refusal(refusal, out),
    }
}

/// Writes the directory at a place, if one exists there.
fn say_dir_at<R: Repository, S: ReplySink>(
    alloc: Global,
    view: &R,
    command: &GetDirCommand,
    asked: PlaceAsked<'_>,
    out: &mut S,
) -> Result<(), AllocError>
    ensures { let c = R.content view.now in let at = asked.entry.place.now in
        Says result (S.writes out.old out.new) (directory_at asked.entry.is_of_today c command.now
        at (kind_at c at.revision at.path) ∷ []) }
{
    let place = asked.place;
    let is_of_today = asked.is_of_today;
    match view.kind(place.revision, &place.path) {
        NodeKind::Absent => tell_refusal_at(is_of_today, Refusal::NotFound, &place.path, out),
        NodeKind::File => tell_refusal_at(is_of_today, Refusal::NotADirectory, &place.path, out),
        NodeKind::Directory => say_found(alloc, view, command, place, out),
    }
}

/// Writes a directory that exists, one entry after another.
fn say_found<R: Repository, S: ReplySink>(
    alloc: Global,
    view: &R,
    command: &GetDirCommand,
    place: &Place,
    out: &mut S,
) -> Result<(), AllocError>
    ensures { Says result (S.writes out.old out.new)
        (directory_told (R.content view.now) command.now place.now ∷ []) }
{
    let properties = shown_properties(alloc, view, place, command.wants_properties)?;
    say_directory_head(alloc, place.revision, &properties, out)?;
    say_entries(alloc, view, place, command.wants_contents, out)?;
    say_directory_end(out)
}

/// Writes the entries of a directory by the bytes of their names, where they are wanted.
fn say_entries<R: Repository, S: ReplySink>(
    alloc: Global,
    view: &R,
    place: &Place,
    wanted: bool,
    out: &mut S,
) -> Result<(), AllocError>
    ensures { Writes result (S.writes out.old out.new)
        (row_printed (entry_trees (entries_told (R.content view.now) place.now wanted))) }
{
    if wanted {
        say_all_entries(alloc, view, place, out)
    } else {
        Ok(())
    }
}

/// Writes the entries of a directory by the bytes of their names.
fn say_all_entries<R: Repository, S: ReplySink>(
    alloc: Global,
    view: &R,
    place: &Place,
    out: &mut S,
) -> Result<(), AllocError>
    ensures { Writes result (S.writes out.old out.new)
        (row_printed (entry_trees (entries_told (R.content view.now) place.now true))) }
{
    let names = view.names(place.revision, &place.path)?;
    for name in names.iter() {
        say_entry(alloc, entry_told(alloc, view, place, name), out)?;
    }
    Ok(())
}

/// Gives an entry of a directory, with its name.
fn entry_told<R: Repository>(
    alloc: Global,
    view: &R,
    place: &Place,
    name: &ByteString,
) -> Result<(ByteString, NodeInfo), AllocError>
    ensures { Makes result (entry_told (R.content view.now) place.now name.now) }
{
    let path = place.path.child(alloc, name.clone()?)?;
    let node = node_info(view, place.revision, &path)?;
    Ok((name.clone()?, node))
}

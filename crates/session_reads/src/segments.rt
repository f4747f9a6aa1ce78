//! Where something was, stretch by stretch. Where one of these fails, a part of what it says was written.
ghost use Rattle.std.specs.Prelude.{◌≡◌, ◌++◌, ◌∷◌, [], map, Ok};
ghost use Rattle.svnpath.specs.Texts.{joined};
ghost use Rattle.repo_api.specs.Histories.{history_of};
ghost use Rattle.file_histories.specs.Segments.{to_come};
ghost use Rattle.machine.specs.Histories.{ended, or_first, segment_told, segments_refusal, segments_replies};
ghost use Rattle.wire_replies.specs.Sinks.{Says};

use crate::asked::SegmentsAsked;
use crate::listing::{say_end, say_refused, say_refused_at};
use crate::logs::or_youngest;
use crate::paths::{is_there, is_to_come};
use commands::GetLocationSegmentsCommand;
use file_histories::{Segment, Segments};
use history::Place;
use machine::Client;
use refusals::{Refusal, path_refusal};
use repo_api::Repository;
use std::alloc::{AllocError, Global};
use std::mem::drop;
use svnpath::{Path, PathFault};
use wire_replies::{Reply, ReplySink, say_new};

/// Gives the revision that is named, or the first.
fn or_first(revision: Option<u64>) -> u64
    ensures { result ≡ or_first revision }
{
    match revision {
        None => 0,
        Some(revision) => revision,
    }
}

/// Says why segments are refused, if they are: the peg revision is above the youngest, the three are not in order, or the
/// path is not in the peg revision.
fn segments_refusal<R: Repository>(view: &R, place: &Place, start: u64, end: u64) -> Option<Refusal>
    ensures { result ≡ segments_refusal (R.content view.now) place.now start end }
{
    let are_out_of_order = place.revision < start || start < end;
    if is_to_come(view, place.revision) || are_out_of_order {
        Some(Refusal::NoSuchRevision)
    } else if is_there(view, place.revision, &place.path) {
        None
    } else {
        Some(Refusal::NotFound)
    }
}

/// Writes a segment.
fn say_segment<S: ReplySink>(segment: Segment, out: &mut S) -> Result<(), AllocError>
    ensures { Says result (S.writes out.old out.new) (segment_told segment ∷ []) }
{
    let Segment { first, last, path } = segment;
    say_new(Reply::Segment(first, last, path), out)
}

/// Writes the segments that are to come, each as it is found.
fn say_each<R: Repository, S: ReplySink>(
    alloc: Global,
    view: &R,
    segments: &mut Segments,
    out: &mut S,
) -> Result<(), AllocError>
    ensures { let h = history_of (R.content view.now) in Says result (S.writes out.old out.new)
        (map segment_told (to_come h segments.old)) }
{
    while let Some(segment) = segments.next(alloc, view)? {
        say_segment(segment, out)?;
    }
    Ok(())
}

/// Writes the segments that are to come, and that no more do.
fn say_listed<R: Repository, S: ReplySink>(
    alloc: Global,
    view: &R,
    segments: &mut Segments,
    out: &mut S,
) -> Result<(), AllocError>
    ensures { let h = history_of (R.content view.now) in Says result (S.writes out.old out.new)
        (map segment_told (to_come h segments.old) ++ ended Reply.Success) }
{
    say_each(alloc, view, segments, out)?;
    say_end(Reply::Success, out)
}

/// Writes the segments of a path.
fn say_segments<R: Repository, S: ReplySink>(
    alloc: Global,
    view: &R,
    asked: SegmentsAsked<'_>,
    path: Path,
    out: &mut S,
) -> Result<(), AllocError>
    ensures { Says result (S.writes out.old out.new) (segments_replies asked.entry.is_of_today
        (R.content view.now) asked.entry.command.now (Ok path)) }
{
    let place = Place {
        path,
        revision: or_youngest(view, asked.command.peg),
    };
    let start = or_youngest(view, asked.command.start);
    let end = or_first(asked.command.end);
    match segments_refusal(view, &place, start, end) {
        None => {
            let mut segments = Segments::open(place, end, start);
            let said = say_listed(alloc, view, &mut segments, out);
            drop(segments);
            said
        }
        Some(refusal) => say_refused_at(asked.is_of_today, refusal, Some(&place.path), out),
    }
}

/// Writes the segments of a path that is named, seen from the path of the client's URL.
pub(crate) fn say_named<R: Repository, S: ReplySink>(
    alloc: Global,
    view: &R,
    client: &Client,
    command: &GetLocationSegmentsCommand,
    out: &mut S,
) -> Result<(), AllocError>
    ensures { Says result (S.writes out.old out.new) (segments_replies client.now.is_of_today
        (R.content view.now) command.now (joined client.now.path command.now.path)) }
{
    match client.path.join(alloc, command.path.as_slice()) {
        Ok(path) => {
            let asked = SegmentsAsked {
                command,
                is_of_today: client.is_of_today,
            };
            say_segments(alloc, view, asked, path, out)
        }
        Err(PathFault::NoMemory) => Err(AllocError),
        Err(fault) => say_refused(path_refusal(fault), out),
    }
}

//! Where the client has what a replay is of.
ghost use Rattle.std.specs.Prelude.{◌≡◌, option_copied, IfOk};
ghost use Rattle.repo_api.specs.Histories.{history_of};
ghost use Rattle.replays.specs.{Places.{child_of, followed, is_in_part, is_of_kind, kept, kind_there, may_follow, run_at, source_in}, Shaping.shape_at};

use crate::ask::ReplayAsk;
use crate::listing::{change_of, has_text, is_new, source_in};
use crate::replayed::Replayed;
use crate::spots::Spot;
use byte_string::ByteString;
use repo_api::{Change, NodeKind, Repository, Source};
use std::alloc::{AllocError, Global};
use svnpath::Path;
use traces::Place;

/// Says whether a path is one of those that a replay is of: at or under the path of the client's URL, or above it.
pub(crate) fn is_in_part(ask: &ReplayAsk, path: &Path) -> bool
    ensures { result ≡ is_in_part ask.now path.now }
{
    path.is_at_or_under(&ask.part) || ask.part.is_at_or_under(path)
}

/// Says what is at a place, if there is one.
pub(crate) fn kind_there<R: Repository>(view: &R, place: &Option<Place>) -> NodeKind
    ensures { result ≡ kind_there (R.content view.now) place.now }
{
    match place {
        None => NodeKind::Absent,
        Some(place) => view.kind(place.revision, &place.path),
    }
}

/// Gives the place of an entry of a directory, by the place of the directory.
pub(crate) fn child_of(
    alloc: Global,
    name: &ByteString,
    place: &Option<Place>,
) -> Result<Option<Place>, AllocError>
    ensures { IfOk result (λ child. child ≡ child_of name.now place.now) }
{
    match place {
        None => Ok(None),
        Some(place) => Ok(Some(Place {
            path: place.path.child(alloc, name.clone()?)?,
            revision: place.revision,
        })),
    }
}

/// Says whether both are directories, or both files.
fn is_of_kind(old: NodeKind, new: NodeKind) -> bool
    ensures { result ≡ is_of_kind old new }
{
    match old {
        NodeKind::Absent => false,
        NodeKind::File => new.is_file(),
        NodeKind::Directory => new.is_directory(),
    }
}

/// Says whether the client has the source of a copy.
fn may_follow(ask: &ReplayAsk, source: &Source) -> bool
    ensures { result ≡ may_follow ask.now source.now }
{
    source.path.is_at_or_under(&ask.part) && source.revision >= ask.low
}

/// Copies a place.
pub(crate) fn copied(place: &Place) -> Result<Place, AllocError>
    ensures { IfOk result (λ copy. copy ≡ place.now) }
{
    Ok(Place {
        path: place.path.clone()?,
        revision: place.revision,
    })
}

/// What becomes of an entry: what is to stand there; whether what the client has there is deleted; where it is copied
/// from, if it is, and where it is kept, if it is; and whether the list has it, and with its text.
#[derive(Drop)]
pub(crate) struct Shape {
    pub(crate) kind: NodeKind,
    pub(crate) goes: bool,
    pub(crate) source: Option<Place>,
    pub(crate) kept: Option<Place>,
    pub(crate) is_listed: bool,
    pub(crate) has_text: bool,
}

impl Shape {
    ghost use Rattle.std.specs.Prelude.{◌≡◌, option_copied};
    ghost use Rattle.replays.specs.Shaping.{base_of};

    /// Gives where the client has the entry once it was opened or added, if it has anything of it.
    pub(crate) fn base(&self) -> Option<&Place>
        ensures { option_copied result ≡ base_of self.now }
    {
        match &self.source {
            Some(source) => Some(source),
            None => self.kept.as_ref(),
        }
    }
}

/// Gives the place that an entry of this kind is copied from, if the client has one.
fn followed<R: Repository>(
    view: &R,
    ask: &ReplayAsk,
    kind: NodeKind,
    change: Option<&Change>,
) -> Result<Option<Place>, AllocError>
    ensures { IfOk result (λ place. place ≡ followed (R.content view.now) ask.now kind
        (source_in (option_copied change.entry))) }
{
    let Some(source) = source_in(change) else {
        return Ok(None);
    };
    if !may_follow(ask, source) {
        return Ok(None);
    }
    if !is_of_kind(view.kind(source.revision, &source.path), kind) {
        return Ok(None);
    }
    Ok(Some(Place {
        path: source.path.clone()?,
        revision: source.revision,
    }))
}

/// Gives where the client keeps an entry that is to be of this kind, if it does.
fn kept<R: Repository>(
    view: &R,
    change: Option<&Change>,
    kind: NodeKind,
    had: &Option<Place>,
) -> Result<Option<Place>, AllocError>
    ensures { IfOk result (λ place. place ≡ kept (R.content view.now)
        (option_copied change.entry) kind had.now) }
{
    let Some(place) = had else {
        return Ok(None);
    };
    if is_new(change) || !is_of_kind(kind_there(view, had), kind) {
        return Ok(None);
    }
    Ok(Some(copied(place)?))
}

/// Finds what becomes of an entry, by the change that the list has of it.
pub(crate) fn shape_of<R: Repository>(
    replay: &Replayed<R>,
    spot: &Spot<'_>,
) -> Result<Shape, AllocError>
    requires run { spot.now.run.now
        ≡ run_at (history_of (R.content replay.now.view.now) replay.now.revision) spot.now.path }
    ensures { IfOk result (λ shape. shape ≡ shape_at (R.content replay.now.view.now)
        replay.now.ask.now replay.now.revision spot.now.place spot.now.path) }
{
    let change = change_of(spot.run, &spot.path);
    let kind = replay.view.kind(replay.revision, &spot.path);
    let source = followed(replay.view, replay.ask, kind, change)?;
    let kept = kept(replay.view, change, kind, &spot.place)?;
    Ok(Shape {
        kind,
        goes: kind_there(replay.view, &spot.place).is_present() && kept.is_none(),
        source,
        kept,
        is_listed: change.is_some(),
        has_text: has_text(change),
    })
}

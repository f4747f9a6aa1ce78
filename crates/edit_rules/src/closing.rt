//! Closes what is open at or under a path, place by place.
ghost use Rattle.std.specs.{Prelude.{◌≡◌, ◌&&◌, is_some, option_copied}, List.filter};
ghost use Rattle.svnpath.specs.Paths.{PathValue, same_path};
ghost use Rattle.revision_data.specs.Found.{found, is_beneath, is_listed};
ghost use Rattle.edit_rules.specs.{Closing.ClosesAt, Tokens.{HavePlaces, is_kept, is_to_close, Places, stays_open}};

use crate::opened::Opened;
use byte_string::ByteString;
use revision_data::{paths_beneath, take_out};
use std::alloc::Global;
use std::collections::BTreeMap;
use svnpath::Path;

/// Closes what is open at or under the path, but for what is open under the token that is kept. Where memory runs out
/// for a list of the places, it goes through all that is open.
pub(crate) fn close_under(
    alloc: Global,
    opened: &mut BTreeMap<ByteString, Opened>,
    places: &mut BTreeMap<Path, ()>,
    path: &Path,
    kept: Option<&ByteString>,
)
    requires { HavePlaces places.old.entries opened.old.entries }
    ensures closed { opened.new.entries
        ≡ filter (λ e. stays_open (option_copied kept.entry) path.now e.0 e.1) opened.old.entries }
    ensures placed { HavePlaces places.new.entries opened.new.entries }
{
    match paths_beneath(alloc, places, path) {
        Ok(listed) => close_by_places(opened, places, &listed, path, kept),
        Err(_) => close_by_walk(opened, path, kept),
    }
}

/// Closes what is open at or under the path, but for what is kept, going through all that is open.
fn close_by_walk(opened: &mut BTreeMap<ByteString, Opened>, path: &Path, kept: Option<&ByteString>)
    ensures closed { opened.new.entries
        ≡ filter (λ e. stays_open (option_copied kept.entry) path.now e.0 e.1) opened.old.entries }
    ensures placed { (places : Places) → HavePlaces places opened.old.entries
        → HavePlaces places opened.new.entries }
{
    opened.retain(|token, entry| stays_open(entry, token, path, kept));
}

/// Closes what is open at or under the path, but for what is kept, by the places that are listed: all beneath the path.
fn close_by_places(
    opened: &mut BTreeMap<ByteString, Opened>,
    places: &mut BTreeMap<Path, ()>,
    listed: &[Path],
    path: &Path,
    kept: Option<&ByteString>,
)
    requires placed { HavePlaces places.old.entries opened.old.entries }
    requires listed { (q : PathValue) → is_listed listed.now q
        ≡ (is_beneath path.now q && is_some (found places.old.entries q)) }
    ensures closed { opened.new.entries
        ≡ filter (λ e. stays_open (option_copied kept.entry) path.now e.0 e.1) opened.old.entries }
    ensures placed { HavePlaces places.new.entries opened.new.entries }
{
    close_listed(opened, places, listed, path, kept);
    let _count = opened.len();
}

/// Closes what is open at the listed places, unless it stays open.
fn close_listed(
    opened: &mut BTreeMap<ByteString, Opened>,
    places: &mut BTreeMap<Path, ()>,
    listed: &[Path],
    path: &Path,
    kept: Option<&ByteString>,
)
    requires { HavePlaces places.old.entries opened.old.entries }
    ensures closes { ClosesAt (option_copied kept.entry) path.now (is_listed listed.now)
        opened.old.entries opened.new.entries }
    ensures placed { HavePlaces places.new.entries opened.new.entries }
{
    for place in listed {
        close_at(opened, places, place, path, kept);
    }
}

/// Closes what is open at the place, unless it stays open, and takes the place out.
fn close_at(
    opened: &mut BTreeMap<ByteString, Opened>,
    places: &mut BTreeMap<Path, ()>,
    place: &Path,
    path: &Path,
    kept: Option<&ByteString>,
)
    requires { HavePlaces places.old.entries opened.old.entries }
    ensures closes { ClosesAt (option_copied kept.entry) path.now (same_path place.now)
        opened.old.entries opened.new.entries }
    ensures placed { HavePlaces places.new.entries opened.new.entries }
{
    let Some((token, _)) = place.components().split_last() else {
        return;
    };
    if is_to_close(opened.get(token), token, path, kept) {
        opened.remove(token);
        take_out(places, place);
    }
}

/// Says whether something is open under the token that does not stay open.
fn is_to_close(
    entry: Option<&Opened>,
    token: &ByteString,
    path: &Path,
    kept: Option<&ByteString>,
) -> bool
    ensures { result ≡ is_to_close (option_copied kept.entry) path.now token.now
        (option_copied entry.entry) }
{
    match entry {
        None => false,
        Some(entry) => !stays_open(entry, token, path, kept),
    }
}

/// Says whether what is open under the token stays open: it is neither at nor under the path, or it is kept.
fn stays_open(entry: &Opened, token: &ByteString, path: &Path, kept: Option<&ByteString>) -> bool
    ensures { result ≡ stays_open (option_copied kept.entry) path.now token.now entry.now }
{
    is_kept(kept, token) || !entry.path().is_at_or_under(path)
}

/// Says whether this token is kept.
fn is_kept(kept: Option<&ByteString>, token: &ByteString) -> bool
    ensures { result ≡ is_kept (option_copied kept.entry) token.now }
{
    match kept {
        None => false,
        Some(kept) => kept == token,
    }
}

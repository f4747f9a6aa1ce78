//! Whether a walk over two trees names anything at a path or under it.
ghost use Rattle.std.specs.Prelude.{◌≡◌, [], false, true, IfOk, MatchBool, OnOk};
ghost use Rattle.drive_visits.specs.{Knowing.{AreSilentKnown, IsKnown}, Left.IsSilent, Remembered.IfRemembers, Walks.{HasReasonAt, IsSame, MayEnter}};

use crate::kinds::{goes, is_added};
use crate::known_path::KnownPath;
use crate::memory::Memory;
use crate::sides::Sides;
use std::alloc::{AllocError, Global};

/// Says whether something is to be said of the entry at a path, which goes, comes or stays, or of
/// what is under it.
#[cycle(searching)]
fn is_named<S: Sides>(
    alloc: Global,
    sides: &S,
    memory: &mut Memory<S::Known>,
    place: &KnownPath<S::Known>,
) -> Result<bool, AllocError>
    requires known { IsKnown (S.knows sides.now) place.now }
    requires held { AreSilentKnown (S.knows sides.now) memory.old }
    ensures found { IfOk result (λ named. IfRemembers (S.trees sides.now) memory.old memory.new
        (MatchBool named (HasReasonAt (S.trees sides.now) place.now.path)
        (IsSilent (S.trees sides.now) place.now.path))) }
    ensures held { OnOk result (AreSilentKnown (S.knows sides.now) memory.new) }
{
    let kinds = sides.kinds(alloc, place)?;
    if !kinds.new.is_present() {
        return memory.note_news(&place.path, goes(kinds));
    }
    if is_added(kinds) {
        return memory.note_news(&place.path, true);
    }
    has_news(alloc, sides, memory, place, kinds.new.is_directory())
}

/// Says whether something is to be said of an entry that stays, or of what is under it.
#[cycle(searching)]
pub(crate) fn has_news<S: Sides>(
    alloc: Global,
    sides: &S,
    memory: &mut Memory<S::Known>,
    place: &KnownPath<S::Known>,
    is_directory: bool,
) -> Result<bool, AllocError>
    requires stands { MayEnter (S.trees sides.now) false is_directory place.now.path }
    requires known { IsKnown (S.knows sides.now) place.now }
    requires held { AreSilentKnown (S.knows sides.now) memory.old }
    ensures found { IfOk result (λ named. IfRemembers (S.trees sides.now) memory.old memory.new
        (MatchBool named (HasReasonAt (S.trees sides.now) place.now.path)
        (IsSilent (S.trees sides.now) place.now.path))) }
    ensures held { OnOk result (AreSilentKnown (S.knows sides.now) memory.new) }
{
    if memory.knows_news(&place.path) {
        return Ok(true);
    }
    if sides.is_due(alloc, place)? {
        return memory.note_news(&place.path, true);
    }
    if !is_directory {
        return Ok(false);
    }
    match sides.pair_key(alloc, place)? {
        None => has_news_below(alloc, sides, memory, place),
        Some(key) => has_new_news(alloc, sides, memory, place, key),
    }
}

/// Says whether something is to be said of what is below a directory that stays, by what is remembered of its pair, or by a
/// search that is remembered.
#[cycle(searching)]
fn has_new_news<S: Sides>(
    alloc: Global,
    sides: &S,
    memory: &mut Memory<S::Known>,
    place: &KnownPath<S::Known>,
    key: u64,
) -> Result<bool, AllocError>
    requires stands { MayEnter (S.trees sides.now) false true place.now.path }
    requires same { IsSame (S.trees sides.now) place.now.path }
    requires known { IsKnown (S.knows sides.now) place.now }
    requires held { AreSilentKnown (S.knows sides.now) memory.old }
    ensures found { IfOk result (λ named. IfRemembers (S.trees sides.now) memory.old memory.new
        (MatchBool named (HasReasonAt (S.trees sides.now) place.now.path)
        (IsSilent (S.trees sides.now) place.now.path))) }
    ensures held { OnOk result (AreSilentKnown (S.knows sides.now) memory.new) }
{
    if memory.knows_silent(alloc, sides, key, place)? {
        return Ok(false);
    }
    if has_news_below(alloc, sides, memory, place)? {
        return Ok(true);
    }
    memory.note_silent(sides, key, place)?;
    Ok(false)
}

/// Says whether something is to be said of what is below a directory that stays and is the same itself.
#[cycle(searching)]
fn has_news_below<S: Sides>(
    alloc: Global,
    sides: &S,
    memory: &mut Memory<S::Known>,
    place: &KnownPath<S::Known>,
) -> Result<bool, AllocError>
    requires stands { MayEnter (S.trees sides.now) false true place.now.path }
    requires same { IsSame (S.trees sides.now) place.now.path }
    requires known { IsKnown (S.knows sides.now) place.now }
    requires held { AreSilentKnown (S.knows sides.now) memory.old }
    ensures found { IfOk result (λ named. IfRemembers (S.trees sides.now) memory.old memory.new
        (MatchBool named (HasReasonAt (S.trees sides.now) place.now.path)
        (IsSilent (S.trees sides.now) place.now.path))) }
    ensures held { OnOk result (AreSilentKnown (S.knows sides.now) memory.new) }
{
    let children = sides.unlike_children(alloc, place)?;
    for child in &children {
        if is_named(alloc, sides, memory, child)? {
            return Ok(true);
        }
    }
    Ok(false)
}

//! The entries that one map has and another has not.
ghost use Rattle.std.specs.{Prelude.{◌≡◌, ◌++◌, ◌∷◌, ◌⊎◌, [], true, map, IfOk, OnOk}, Map.Iter.deref, List.{AllByRecursion, Contains}};

use crate::parts::Entry;
use crate::same::{Same, is_entry};
use std::alloc::{AllocError, Global};

/// Says whether the entry stands at the place.
fn stands_at<V: Same>(entries: &[&Entry<V>], place: usize, entry: &Entry<V>) -> bool
    ensures { result ≡ true → Contains (map deref entries.now) entry.now }
{
    if place >= entries.len() {
        return false;
    }
    let other = entries[place];
    is_entry(other, &entry.0, &entry.1)
}

/// Finds the first place, from this one on, that has the name of the entry or a later one.
fn place_from<V: Same>(others: &[&Entry<V>], from: usize, entry: &Entry<V>) -> usize {
    let mut at = from;
    while at < others.len() && others[at].0 < entry.0 {
        at += 1;
    }
    at
}

/// Lists the entry if it does not stand at the place among others, or at the first one behind it that may have it. Where it
/// stands there, the place is moved behind it: the next place has the next entry where most of the others are the same.
fn list_unlike<'a, V: Same>(
    list: &mut Vec<&'a Entry<V>>,
    others: &[&Entry<V>],
    at: &mut usize,
    entry: &'a Entry<V>,
) -> Result<(), AllocError>
    ensures { OnOk result ((map deref list.new.items ≡ map deref list.old.items ++ entry.now ∷ [])
        ⊎ (map deref list.new.items ≡ map deref list.old.items)
        × Contains (map deref others.now) entry.now) }
{
    if !stands_at(others, *at, entry) {
        *at = place_from(others, *at, entry);
        if !stands_at(others, *at, entry) {
            list.push(entry)?;
            return Ok(());
        }
    }
    *at = at.saturating_add(1);
    Ok(())
}

/// Lists the entries that are not among others, where both are in the order of their names.
pub(crate) fn unlike<'a, V: Same>(
    alloc: Global,
    entries: &[&'a Entry<V>],
    others: &[&Entry<V>],
) -> Result<Vec<&'a Entry<V>>, AllocError>
    ensures from { IfOk result (λ list.
        AllByRecursion (Contains (map deref entries.now)) (map deref list.items)) }
    ensures others { IfOk result (λ list. AllByRecursion
        (λ e. Contains (map deref others.now) e ⊎ Contains (map deref list.items) e)
        (map deref entries.now)) }
{
    let mut list = Vec::new(alloc);
    let mut at = 0;
    for entry in entries {
        list_unlike(&mut list, others, &mut at, entry)?;
    }
    Ok(list)
}

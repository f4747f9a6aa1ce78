//! Listings: entries by the bytes of their paths' texts.
ghost use Rattle.std.specs.{Prelude.{◌≡◌, [], ◌∷◌, map, IfOk, OnOk, OnErr, MatchOption}, Cmp.Lexicographic.slice_cmp, Map.Iter.deref_pair, Ordering.nat_cmp};
ghost use Rattle.svnpath.specs.{Components.IsRightPath, Listings.{text_cmp, listing}, Texts.{path_text, text_from}};

use crate::path::Path;
use byte_string::ByteString;
use std::alloc::{AllocError, Global};
use std::cmp::Ordering;
use std::collections::BTreeMap;

impl Path {
    /// Compares the texts of the two paths byte by byte, as listings do: `/a-b` is less than `/a/b`,
    /// which `cmp` puts before it. Takes no memory.
    pub fn text_cmp(&self, other: &Path) -> Ordering
        ensures value { result ≡ text_cmp self.now other.now }
        ensures ties { IsRightPath self.now → IsRightPath other.now → result ≡ Ordering.Equal
            → self.now ≡ other.now }
    {
        let (mine, my_others) = self.text_front();
        let (theirs, their_others) = other.text_front();
        compare_texts(mine, my_others, theirs, their_others)
    }

    /// Gives what the path's text begins with, and the components whose texts follow.
    fn text_front(&self) -> (&[u8], &[ByteString])
        ensures { path_text self.now ≡ text_from result.0.now result.1.now }
    {
        if self.is_root() {
            (b"/".as_slice(), self.components())
        } else {
            (b"".as_slice(), self.components())
        }
    }
}

/// Gives the first byte of a text that begins with this and goes on with the texts of these components; and how it goes
/// on.
fn split_text<'a>(
    front: &'a [u8],
    others: &'a [ByteString],
) -> Option<(u8, &'a [u8], &'a [ByteString])>
    ensures { MatchOption result (text_from front.now others.now ≡ [])
        (λ split. text_from front.now others.now ≡ split.0 ∷ text_from split.1.now split.2.now) }
{
    if let Some((byte, front)) = front.split_first() {
        return Some((*byte, front, others));
    }
    match others.split_first() {
        Some((component, others)) => Some((b'/', component.as_slice(), others)),
        None => None,
    }
}

/// Compares two texts, each of which begins so and goes on with the texts of these components.
fn compare_texts(
    mine: &[u8],
    my_others: &[ByteString],
    theirs: &[u8],
    their_others: &[ByteString],
) -> Ordering
    ensures { result
        ≡ slice_cmp nat_cmp (text_from mine.now my_others.now) (text_from theirs.now their_others.now) }
{
    let (mut my_front, mut my_rest) = (mine, my_others);
    let (mut their_front, mut their_rest) = (theirs, their_others);
    while let Some((byte, front, rest)) = split_text(my_front, my_rest) {
        let Some((other_byte, other_front, other_rest)) = split_text(their_front, their_rest) else {
            return Ordering::Greater;
        };
        if byte != other_byte {
            return byte.cmp(&other_byte);
        }
        (my_front, my_rest) = (front, rest);
        (their_front, their_rest) = (other_front, other_rest);
    }
    match split_text(their_front, their_rest) {
        Some(_) => Ordering::Less,
        None => Ordering::Equal,
    }
}

/// Sorts entries by the bytes of their paths' texts; those of one text stay as they stood. Without
/// memory for it nothing changes.
pub fn sort_by_text<'a, V>(entries: &mut Vec<(&'a Path, &'a V)>) -> Result<(), AllocError>
    ensures ok { OnOk result
        (map deref_pair entries.new.items ≡ listing (map deref_pair entries.old.items)) }
    ensures err { OnErr result (entries.new.items ≡ entries.old.items) }
{
    entries.sort_by(|a, b| a.0.text_cmp(b.0))
}

/// Gives the entries of a map, sorted by the bytes of their paths' texts.
pub fn by_text<'a, V>(
    alloc: Global,
    entries: &'a BTreeMap<Path, V>,
) -> Result<Vec<(&'a Path, &'a V)>, AllocError>
    ensures { IfOk result (λ listed. map deref_pair listed.items ≡ listing entries.now.entries) }
{
    let mut listed = entries.iter().collect::<Vec<_>>(alloc)?;
    sort_by_text(&mut listed)?;
    Ok(listed)
}

/// Gives the entries of a list, sorted by the bytes of their paths' texts; those of one text stay as they stood.
pub fn pairs_by_text<'a, V>(
    alloc: Global,
    entries: &'a [(Path, V)],
) -> Result<Vec<(&'a Path, &'a V)>, AllocError>
    ensures { IfOk result (λ listed. map deref_pair listed.items ≡ listing entries.now) }
{
    let mut listed = Vec::with_capacity(alloc, entries.len())?;
    for (path, value) in entries {
        listed.push((path, value))?;
    }
    sort_by_text(&mut listed)?;
    Ok(listed)
}

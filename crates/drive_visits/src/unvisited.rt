//! What is not visited yet.
ghost use Rattle.std.specs.Prelude.{◌≡◌, Decides};

use crate::known_path::KnownPath;
use crate::visit::KnownVisit;
use std::collections::VecDeque;
use svnpath::Path;

/// What is not visited yet in a directory: what goes, and then the entries that stand in it on
/// either side. Where the directory comes anew, so does each entry. What is known of an entry is found when it is visited,
/// from what is known of the path in front.
#[derive(Drop)]
pub struct Unvisited<K: Drop> {
    pub(crate) from: KnownPath<K>,
    pub(crate) deletes: VecDeque<Path>,
    pub(crate) entries: VecDeque<Path>,
    pub(crate) is_anew: bool,
}

/// What is visited next: nothing more, a visit, or one that enters a directory, with what is not
/// visited below it.
#[derive(Drop)]
pub(crate) enum Found<K: Drop> {
    Nothing,
    Single(KnownVisit<K>),
    Entered(KnownVisit<K>, Unvisited<K>),
}

impl<K: Drop> Found<K> {
    ghost use Rattle.drive_visits.specs.declared.unvisited.Found.TheVariants.{Nothing};

    /// Says whether nothing more was found.
    pub(crate) fn is_nothing(&self) -> bool
        ensures { Decides result (self.now ≡ Nothing) }
    {
        match self {
            Found::Nothing => true,
            Found::Single(_) => false,
            Found::Entered(_, _) => false,
        }
    }
}

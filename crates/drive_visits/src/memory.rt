//! What a walk remembers of what it found.
ghost use Rattle.std.specs.Prelude.{◌≡◌, ◌⊎◌, [], None, true, IfOk, OnOk};
ghost use Rattle.drive_visits.specs.{Knowing.{AreSilentKnown, IsKnown}, Left.IsSilent, Remembered.Remembers, Walks.{HasReasonAt, WalkedTrees}};

use crate::known_path::KnownPath;
use crate::sides::Sides;
use std::alloc::{AllocError, Global};
use svnpath::Path;

/// How many paths without news are remembered at most.
const REMEMBERED: usize = 1024;

/// With how many of them a path is compared at most.
const COMPARED: usize = 64;

/// A path without news, with the key of its pair of entries.
#[derive(Drop)]
pub struct SilentPath<K: Drop> {
    pub(crate) key: u64,
    pub(crate) place: KnownPath<K>,
}

/// What a walk remembers: paths that have no news, and the path that was last found to have some.
/// What is forgotten is searched again.
#[derive(Drop)]
pub struct Memory<K: Drop> {
    pub(crate) silent: Vec<SilentPath<K>>,
    pub(crate) news: Option<Path>,
}

impl<K: Drop> Memory<K> {
    /// Makes a memory of nothing.
    pub(crate) fn new(alloc: Global) -> Self
        ensures so { (t : WalkedTrees) → Remembers t result }
        ensures silent { result.silent.items ≡ [] }
    {
        Memory {
            silent: Vec::new(alloc),
            news: None,
        }
    }

    /// Says whether a path is surely at or above one that has news.
    pub(crate) fn knows_news(&self, path: &Path) -> bool
        ensures { result ≡ true → (t : WalkedTrees) → Remembers t self.now
            → HasReasonAt t path.now }
    {
        match &self.news {
            None => false,
            Some(news) => news.is_at_or_under(path),
        }
    }

    /// Remembers a path if it has news, and answers whether it has.
    pub(crate) fn note_news(&mut self, path: &Path, has_news: bool) -> Result<bool, AllocError>
        ensures is { IfOk result (λ found. found ≡ has_news) }
        ensures silent { OnOk result (self.new.silent.items ≡ self.old.silent.items) }
        ensures kept { OnOk result ((t : WalkedTrees) → (has_news ≡ true → HasReasonAt t path.now)
            → Remembers t self.old → Remembers t self.new) }
    {
        if has_news {
            self.news = Some(path.clone()?);
        }
        Ok(has_news)
    }

    /// Says whether the pair of entries at a path, which has this key, is surely one that has no news.
    pub(crate) fn knows_silent<S: Sides<Known = K>>(
        &self,
        alloc: Global,
        sides: &S,
        key: u64,
        place: &KnownPath<K>,
    ) -> Result<bool, AllocError>
        requires known { IsKnown (S.knows sides.now) place.now }
        requires held { AreSilentKnown (S.knows sides.now) self.now }
        ensures { IfOk result (λ known. known ≡ true → Remembers (S.trees sides.now) self.now
            → IsSilent (S.trees sides.now) place.now.path) }
    {
        let mut index = self.silent.len();
        let mut compared = 0;
        while index > 0 {
            if compared >= COMPARED {
                return Ok(false);
            }
            index -= 1;
            let silent = &self.silent[index];
            if silent.key == key {
                if sides.is_same_pair(alloc, &silent.place, place)? {
                    return Ok(true);
                }
                compared += 1;
            }
        }
        Ok(false)
    }

    /// Remembers that a path has no news. Where many are remembered, they are forgotten first.
    pub(crate) fn note_silent<S: Sides<Known = K>>(
        &mut self,
        sides: &S,
        key: u64,
        place: &KnownPath<K>,
    ) -> Result<(), AllocError>
        requires known { IsKnown (S.knows sides.now) place.now }
        requires held { AreSilentKnown (S.knows sides.now) self.old }
        ensures kept { OnOk result ((t : WalkedTrees) → IsSilent t place.now.path
            → Remembers t self.old → Remembers t self.new) }
        ensures held { OnOk result (AreSilentKnown (S.knows sides.now) self.new) }
    {
        let place = sides.copied(place)?;
        self.make_room();
        self.silent.push(SilentPath { key, place })?;
        Ok(())
    }

    /// Forgets the paths without news where there are many.
    fn make_room(&mut self)
        ensures kept { (t : WalkedTrees) → Remembers t self.old → Remembers t self.new }
        ensures held { (self.new.silent.items ≡ []) ⊎ (self.new.silent.items ≡ self.old.silent.items) }
    {
        if self.silent.len() >= REMEMBERED {
            self.silent.clear();
        }
    }
}

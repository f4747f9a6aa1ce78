//! The grafts of a report.
ghost use Rattle.std.specs.{Prelude.{◌≡◌, ◌≤◌, ◌||◌, ◌∷◌, ◌++◌, [], length, OnOk, OnErr, IfOk}, List.list_any};
ghost use Rattle.drive_rules.specs.Scopes.{below};
ghost use Rattle.reporter.specs.{Depths.is_shallow, Finding.{IsLastAbove, IsLastAt, later}, Links.{is_excluding, is_linked}, Named.{AreNamed, IsNamed}};

use crate::graft::{Graft, is_shallow};
use crate::index::GraftIndex;
use crate::room::taken_with;
use std::alloc::{AllocError, Global};
use std::marker::Model;
use svnpath::Path;

/// The grafts of a report, in their order, each at a path that a client can name. They are found by
/// their paths, however many there are.
pub struct Grafts {
    grafts: Vec<Graft>,
    index: GraftIndex,
    has_shallow: bool,
    has_link: bool,
    has_excluded: bool,
    /// About how many bytes of memory they take.
    taken: usize,
}

impl Drop for Grafts {
    fn drop(self) {
        let Grafts {
            grafts: _,
            index: _,
            has_shallow: _,
            has_link: _,
            has_excluded: _,
            taken: _,
        } = self;
    }
}

impl Model for Grafts {
    ghost use Rattle.std.specs.{Prelude.{◌≡◌, List}, List.list_any};
    ghost use Rattle.reporter.specs.{Depths.is_shallow, Finding.AreFound, Links.{is_excluding, is_linked}, Named.AreNamed, declared.graft.Graft.Graft};

    ghost Value = { List Graft };

    ghost view = { λ g. g.grafts.items };

    ghost invariant = { λ g. AreNamed g.grafts.items
        × AreFound g.grafts.items g.index.newest.entries g.index.older.items
        × (g.has_shallow ≡ list_any is_shallow g.grafts.items)
        × (g.has_link ≡ list_any is_linked g.grafts.items)
        × (g.has_excluded ≡ list_any is_excluding g.grafts.items) };
}

/// Says whether less than everything is reported of what one graft more puts, or it was before.
fn has_shallow_too(before: bool, graft: &Graft) -> bool
    ensures { result ≡ (before || is_shallow graft.now) }
{
    before || is_shallow(graft)
}

/// Says whether one graft more is a link, or one was before.
fn has_link_too(before: bool, graft: &Graft) -> bool
    ensures { result ≡ (before || is_linked graft.now) }
{
    before || graft.is_link
}

/// Says whether one graft more excludes its path, or one did before.
fn has_excluded_too(before: bool, graft: &Graft) -> bool
    ensures { result ≡ (before || is_excluding graft.now) }
{
    before || graft.is_excluded
}

/// Gives the later of two places, if there are any.
fn later(place: Option<usize>, other: Option<usize>) -> Option<usize>
    ensures { result ≡ later place other }
{
    match (place, other) {
        (None, _) => other,
        (_, None) => place,
        (Some(one), Some(two)) => Some(if one < two { two } else { one }),
    }
}

impl Grafts {
    /// Makes an empty list of grafts.
    pub fn new(alloc: Global) -> Self
        ensures { result ≡ [] }
    {
        Grafts {
            grafts: Vec::new(alloc),
            index: GraftIndex::new(alloc),
            has_shallow: false,
            has_link: false,
            has_excluded: false,
            taken: 0,
        }
    }

    /// Puts a graft after the others. Memory is refused to grafts that take some 128 MiB.
    pub fn push(&mut self, graft: Graft) -> Result<(), AllocError>
        requires { IsNamed graft.path }
        ensures ok { OnOk result (self.new ≡ self.old ++ graft ∷ []) }
        ensures err { OnErr result (self.new ≡ self.old) }
    {
        let has_shallow = has_shallow_too(self.has_shallow, &graft);
        let has_link = has_link_too(self.has_link, &graft);
        let has_excluded = has_excluded_too(self.has_excluded, &graft);
        let taken = taken_with(self.taken, &graft)?;
        let path = graft.path.clone()?;
        self.grafts.push(graft)?;
        match self.index.note(&path) {
            Ok(()) => {
                self.has_shallow = has_shallow;
                self.has_link = has_link;
                self.has_excluded = has_excluded;
                self.taken = taken;
                Ok(())
            }
            Err(error) => {
                self.grafts.pop();
                Err(error)
            }
        }
    }

    /// Gives the grafts in their order.
    pub fn as_slice(&self) -> &[Graft]
        ensures { result.now ≡ self.now }
    {
        self.grafts.as_slice()
    }

    /// Says whether less than everything is reported of what some graft puts.
    pub fn has_shallow(&self) -> bool
        ensures { result ≡ list_any is_shallow self.now }
    {
        self.has_shallow
    }

    /// Says whether some graft is a link.
    pub(crate) fn has_link(&self) -> bool
        ensures { result ≡ list_any is_linked self.now }
    {
        self.has_link
    }

    /// Says whether some graft excludes its path.
    pub fn has_excluded(&self) -> bool
        ensures { result ≡ list_any is_excluding self.now }
    {
        self.has_excluded
    }

    /// Says whether a graft stands beneath a path.
    pub fn has_beneath(&self, path: &Path) -> bool
        ensures { result ≡ list_any (λ g. below path.now g.path) self.now }
    {
        self.index.has_beneath(path)
    }

    /// Finds the last of the first so many grafts that stand at a path, by its place in the order.
    fn last_at(&self, path: &Path, count: usize) -> Option<usize>
        requires { count ≤ length self.now }
        ensures { IsLastAt path.now self.now count result }
    {
        let mut found = self.index.newest.get(path).copied();
        while let Some(place) = found {
            if place < count {
                return found;
            }
            found = self.index.older[place];
        }
        None
    }

    /// Finds the last of the first so many grafts that stand at or above a path, by its place in the order.
    pub(crate) fn last_above(
        &self,
        alloc: Global,
        path: &Path,
        count: usize,
    ) -> Result<Option<usize>, AllocError>
        requires { count ≤ length self.now }
        ensures { IfOk result (λ found. IsLastAbove path.now self.now count found) }
    {
        let mut last = None;
        let mut above = Path::root(alloc);
        for name in path.components() {
            last = later(last, self.last_at(&above, count));
            above = above.child(alloc, name.clone()?)?;
        }
        Ok(later(last, self.last_at(&above, count)))
    }

    /// Does nothing: its contract says that a client can name the path of each graft.
    pub fn are_named(&self)
        ensures { AreNamed self.now }
    {
        let _grafts = self.grafts.as_slice();
    }
}

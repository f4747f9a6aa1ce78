//! Finds the grafts of a report by their paths.
ghost use Rattle.std.specs.{Prelude.{◌≡◌, [], OnOk, OnErr}, List.list_any, Map.keys_of};
ghost use Rattle.drive_rules.specs.Scopes.{below};
ghost use Rattle.reporter.specs.Finding.{IsNoted};

use std::alloc::{AllocError, Global};
use std::collections::BTreeMap;
use std::ops::Bound::{Excluded, Unbounded};
use svnpath::Path;

/// Where the grafts of a report stand in their order.
#[derive(Drop)]
pub(crate) struct GraftIndex {
    /// The place of the last graft at each path.
    pub newest: BTreeMap<Path, usize>,
    /// For each graft the place of the one before it at the same path.
    pub older: Vec<Option<usize>>,
}

impl GraftIndex {
    /// Finds nothing.
    pub fn new(alloc: Global) -> Self
        ensures newest { result.newest.entries ≡ [] }
        ensures older { result.older.items ≡ [] }
    {
        GraftIndex {
            newest: BTreeMap::new(alloc),
            older: Vec::new(alloc),
        }
    }

    /// Notes one graft more, at a path.
    pub fn note(&mut self, path: &Path) -> Result<(), AllocError>
        ensures ok { OnOk result (IsNoted path.now self.old self.new) }
        ensures err { OnErr result ((self.new.newest.entries ≡ self.old.newest.entries)
            × (self.new.older.items ≡ self.old.older.items)) }
    {
        let key = path.clone()?;
        let place = self.older.len();
        self.older.push(self.newest.get(path).copied())?;
        match self.newest.insert(key, place) {
            Ok(_) => Ok(()),
            Err(error) => {
                self.older.pop();
                Err(AllocError::from(error))
            }
        }
    }

    /// Says whether a graft stands beneath a path. If one does, the first that comes after the path in the order of
    /// components does.
    pub fn has_beneath(&self, path: &Path) -> bool
        ensures { result ≡ list_any (below path.now) (keys_of self.now.newest.entries) }
    {
        match self.newest.range((Excluded(path), Unbounded)).next() {
            None => false,
            Some((next, _)) => next.is_at_or_under(path),
        }
    }
}

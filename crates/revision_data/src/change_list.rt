//! The changes of a revision as one list.
ghost use Rattle.std.specs.{Prelude.{◌≡◌, IfOk}, FinMap.{empty, entries, from_entries}, List.Sorted.IsStrictlySortedBy, Map.keys_of};
ghost use Rattle.svnpath.specs.Paths.{path_cmp};

use crate::changes::copied_change;
use repo_api::Change;
use std::alloc::{AllocError, Global};
use std::collections::BTreeMap;
use std::marker::Model;
use svnpath::Path;

/// The changes of a revision, in the order of their paths.
pub struct ChangeList {
    changes: Vec<(Path, Change)>,
}

impl Drop for ChangeList {
    fn drop(self) {
        let ChangeList { changes: _ } = self;
    }
}

impl Model for ChangeList {
    ghost use Rattle.std.specs.{Coded.codes, FinMap.{from_entries, code as map_code}, List.Sorted.IsStrictlySortedBy, Map.keys_of};
    ghost use Rattle.svnpath.specs.Paths.{path_cmp};
    ghost use Rattle.repo_api.specs.States.{ChangeMap};

    ghost Value = { ChangeMap };

    ghost coded = { Prim.hlevel (map_code, codes) };

    ghost view = { λ l. from_entries l.changes.items };

    ghost invariant = { λ l. IsStrictlySortedBy path_cmp (keys_of l.changes.items) };
}

impl ChangeList {
    /// Makes a list of no changes.
    pub fn new(alloc: Global) -> Self
        ensures { result ≡ empty }
    {
        ChangeList {
            changes: Vec::new(alloc),
        }
    }

    /// Makes a list of the changes of a map.
    pub fn from_map(alloc: Global, changes: BTreeMap<Path, Change>) -> Result<Self, AllocError>
        ensures { IfOk result (λ list. list ≡ from_entries changes.entries) }
    {
        let mut list = Vec::with_capacity(alloc, changes.len())?;
        for (path, change) in changes {
            list.push((path, change))?;
        }
        Ok(ChangeList { changes: list })
    }

    /// Makes a list of changes in the order of their paths.
    pub fn from_sorted(changes: Vec<(Path, Change)>) -> Self
        requires { IsStrictlySortedBy path_cmp (keys_of changes.items) }
        ensures { result ≡ from_entries changes.items }
    {
        ChangeList { changes }
    }

    /// Makes a list of the changes of a map, which has them still.
    pub(crate) fn of_map(
        alloc: Global,
        changes: &BTreeMap<Path, Change>,
    ) -> Result<Self, AllocError>
        ensures { IfOk result (λ list. list ≡ from_entries changes.now.entries) }
    {
        let mut list = Vec::with_capacity(alloc, changes.len())?;
        for (path, change) in changes.iter() {
            list.push((path.clone()?, copied_change(change)?))?;
        }
        Ok(ChangeList { changes: list })
    }

    /// Shows the changes in the order of their paths.
    pub fn as_slice(&self) -> &[(Path, Change)]
        ensures { result.now ≡ entries self.now }
    {
        self.changes.as_slice()
    }
}

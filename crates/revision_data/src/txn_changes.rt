//! The changes of a transaction as one ordered map.
ghost use Rattle.std.specs.{Prelude.{◌≡◌, IfOk, OnErr}, FinMap.{get, empty, from_entries}};
ghost use Rattle.svnpath.specs.Paths.{PathValue};
ghost use Rattle.repo_api.specs.{Changes.changes_after, States.{ChangeMap, changes_of}};
ghost use Rattle.revision_data.specs.Prepared.{IsPrepared};

use crate::change_list::ChangeList;
use crate::changes::{change_after, path_of, prunes};
use crate::noting::{forget_beneath, leave, put_placeholder};
use crate::path_map::take_out;
use repo_api::{Change, EditOp};
use std::alloc::{AllocError, Global};
use std::collections::BTreeMap;
use std::marker::Model;
use svnpath::Path;

/// What an edit leaves at its path, for which there is room already, and whether the room was made for it.
#[derive(Drop)]
pub struct Note {
    change: Option<Change>,
    made: bool,
}

/// The changes of a transaction, in the order of their paths. An edit is prepared here, then made in the tree, and
/// then settled here, or taken back where the tree lacked memory.
pub struct TxnChanges {
    alloc: Global,
    changes: BTreeMap<Path, Change>,
}

impl Drop for TxnChanges {
    fn drop(self) {
        let TxnChanges {
            alloc: _,
            changes: _,
        } = self;
    }
}

impl Model for TxnChanges {
    ghost use Rattle.std.specs.{Coded.codes, FinMap.{from_entries, code as map_code}};
    ghost use Rattle.repo_api.specs.States.{ChangeMap};

    ghost Value = { ChangeMap };

    ghost coded = { Prim.hlevel (map_code, codes) };

    ghost view = { λ c. from_entries c.changes.entries };
}

impl TxnChanges {
    /// Makes a list of no changes.
    pub fn new(alloc: Global) -> Self
        ensures { result ≡ empty }
    {
        TxnChanges {
            alloc,
            changes: BTreeMap::new(alloc),
        }
    }

    /// Shows the changes by their paths.
    pub fn as_map(&self) -> &BTreeMap<Path, Change>
        ensures { from_entries result.now.entries ≡ self.now }
    {
        &self.changes
    }

    /// Makes the same changes a list.
    pub fn into_list(self, alloc: Global) -> Result<ChangeList, AllocError>
        ensures { IfOk result (λ list. list ≡ self) }
    {
        let TxnChanges { alloc: _, changes } = self;
        ChangeList::from_map(alloc, changes)
    }

    /// Makes a list of the same changes, which stay here.
    pub fn to_list(&self, alloc: Global) -> Result<ChangeList, AllocError>
        ensures { IfOk result (λ list. list ≡ self.now) }
    {
        ChangeList::of_map(alloc, &self.changes)
    }

    /// Takes all the memory that the note of the edit needs: nothing else of it can fail.
    pub fn prepare(&mut self, op: &EditOp) -> Result<Note, AllocError>
        ensures ok { IfOk result (λ note. IsPrepared op.now self.old note self.new) }
        ensures err { OnErr result (self.new ≡ self.old) }
    {
        let path = path_of(op);
        let change = change_after(self.changes.get(path), op)?;
        let made = put_placeholder(&mut self.changes, path)?;
        Ok(Note { change, made })
    }

    /// Notes the edit, which was made.
    pub fn settle(&mut self, op: &EditOp, note: Note)
        ensures { (before : ChangeMap) → IsPrepared op.now before note self.old → (q : PathValue)
            → get self.new q ≡ changes_after (changes_of before) op.now q }
    {
        let Note { change, made: _ } = note;
        leave(&mut self.changes, path_of(op), change);
        if prunes(op) {
            forget_beneath(self.alloc, &mut self.changes, path_of(op));
        }
    }

    /// Takes back what was prepared for an edit that was not made.
    pub fn take_back(&mut self, op: &EditOp, note: Note)
        ensures { (before : ChangeMap) → IsPrepared op.now before note self.old
            → self.new ≡ before }
    {
        if note.made {
            take_out(&mut self.changes, path_of(op));
        }
    }
}

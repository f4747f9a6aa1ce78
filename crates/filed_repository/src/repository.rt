//! The repository as its revisions and locks show it, however it stands in files.

use crate::filed_world::FiledWorld;
use byte_string::ByteString;
use repo_api::{
    Change, ChangeFault, CommitAsk, EditOp, FileText, Lock, LockAsk, LockTokens, NodeKind,
    Properties, PropertyAsk, Repository, UnlockAsk,
};
use std::alloc::AllocError;
use svnpath::Path;
use world::WorldTxn;

impl Repository for FiledWorld {
    ghost use Rattle.world.specs.Whole.{txn_state_of};
    ghost use Rattle.filed_repository.specs.Files.{filed_content};

    type Txn = WorldTxn;

    ghost content = { filed_content };

    ghost txn_state = { txn_state_of };

    fn share(&self) -> Result<Self, AllocError> {
        let world = self.world.share()?;
        let tables = self.tables.share()?;
        Ok(FiledWorld {
            alloc: self.alloc,
            world,
            tables,
            current: self.current,
        })
    }

    fn uuid(&self) -> u128 {
        self.world.uuid()
    }

    fn youngest(&self) -> u64 {
        self.world.youngest()
    }

    fn kind(&self, revision: u64, path: &Path) -> NodeKind {
        self.world.kind(revision, path)
    }

    fn has_deeper(&self, revision: u64, path: &Path, names: usize) -> bool {
        self.world.has_deeper(revision, path, names)
    }

    fn created(&self, revision: u64, path: &Path) -> Option<u64> {
        self.world.created(revision, path)
    }

    fn properties(&self, revision: u64, path: &Path) -> Option<&Properties> {
        self.world.properties(revision, path)
    }

    fn text(&self, revision: u64, path: &Path) -> Option<&FileText> {
        self.world.text(revision, path)
    }

    fn names(&self, revision: u64, path: &Path) -> Result<Vec<&ByteString>, AllocError> {
        self.world.names(revision, path)
    }

    fn is_same(&self, revision: u64, path: &Path, other: u64, other_path: &Path) -> bool {
        self.world.is_same(revision, path, other, other_path)
    }

    fn differing_names(
        &self,
        revision: u64,
        path: &Path,
        other: u64,
        other_path: &Path,
    ) -> Result<Option<Vec<&ByteString>>, AllocError> {
        self.world
            .differing_names(revision, path, other, other_path)
    }

    fn changes(&self, revision: u64) -> &[(Path, Change)] {
        self.world.changes(revision)
    }

    fn settled(&self, revision: u64, path: &Path) -> u64 {
        self.world.settled(revision, path)
    }

    fn dated_bound(&self, revision: u64, date: &[u8]) -> u64 {
        self.world.dated_bound(revision, date)
    }

    fn revision_properties(&self, revision: u64) -> Option<&Properties> {
        self.world.revision_properties(revision)
    }

    fn lock_at(&self, path: &Path) -> Option<&Lock> {
        self.world.lock_at(path)
    }

    fn locks_under(&self, path: &Path) -> Result<Vec<(&Path, &Lock)>, AllocError> {
        self.world.locks_under(path)
    }

    fn releases(&self, user: Option<&ByteString>, tokens: &LockTokens) -> bool {
        self.world.releases(user, tokens)
    }

    fn kind_in(&self, txn: &WorldTxn, path: &Path) -> NodeKind {
        self.world.kind_in(txn, path)
    }

    fn created_in(&self, txn: &WorldTxn, path: &Path) -> Option<u64> {
        self.world.created_in(txn, path)
    }

    fn text_in<'a>(&'a self, txn: &'a WorldTxn, path: &Path) -> Option<&'a FileText> {
        self.world.text_in(txn, path)
    }

    fn begin(&self) -> Result<WorldTxn, AllocError> {
        self.world.begin()
    }

    fn edit(&self, txn: &mut WorldTxn, op: EditOp) -> Result<(), AllocError> {
        self.world.edit(txn, op)
    }

    fn refused_at(&self, ask: &CommitAsk, txn: &WorldTxn) -> Result<Option<Path>, AllocError> {
        self.world.refused_at(ask, txn)
    }

    fn commit(&mut self, ask: CommitAsk, txn: WorldTxn) -> Result<u64, ChangeFault> {
        self.world.commit(ask, txn)
    }

    fn lock(&mut self, ask: LockAsk) -> Result<(), ChangeFault> {
        self.world.lock(ask)
    }

    fn unlock(&mut self, ask: &UnlockAsk) -> Result<(), ChangeFault> {
        self.world.unlock(ask)
    }

    fn set_rev_prop(&mut self, ask: PropertyAsk) -> Result<(), ChangeFault> {
        self.world.set_rev_prop(ask)
    }

    fn release(
        &mut self,
        user: Option<&ByteString>,
        tokens: &LockTokens,
    ) -> Result<(), ChangeFault> {
        self.world.release(user, tokens)
    }
}

//! A repository at a moment, which lists nothing more for a client that has gone.
use crate::client::Presence;
use byte_string::ByteString;
use repo_api::{
    Change, ChangeFault, CommitAsk, EditOp, FileText, Lock, LockAsk, LockTokens, NodeKind,
    Properties, PropertyAsk, Repository, UnlockAsk,
};
use std::alloc::AllocError;
use std::cell::Cell;
use svnpath::Path;

/// How many directories are listed before the client is asked for again.
const LISTED_BETWEEN: u32 = 64;

/// A repository at a moment, for a client: once it has gone, no more directories are listed, as where memory runs out. A
/// walk through history, which lists one at each step, ends so too.
pub struct AttendedView<V: Repository, P: Presence> {
    pub(crate) view: V,
    pub(crate) client: P,
    /// How many directories were listed since the client was asked for.
    pub(crate) listed: Cell<u32>,
}

impl<V: Repository, P: Presence> Drop for AttendedView<V, P> {
    fn drop(self) {
        let AttendedView {
            view: _,
            client: _,
            listed: _,
        } = self;
    }
}

impl<V: Repository, P: Presence> AttendedView<V, P> {
    /// Says whether the client has gone, as far as it is asked for: at each 64th directory that is listed.
    fn has_no_client(&self) -> bool {
        let listed = self.listed.get();
        if listed < LISTED_BETWEEN {
            self.listed.set(listed + 1);
            return false;
        }
        self.listed.set(0);
        self.client.is_gone()
    }
}

impl<V: Repository, P: Presence> Repository for AttendedView<V, P> {
    type Txn = V::Txn;

    ghost content = { λ a. V.content a.view };

    ghost txn_state = { V.txn_state };

    fn share(&self) -> Result<Self, AllocError> {
        let view = self.view.share()?;
        let client = self.client.share()?;
        Ok(AttendedView {
            view,
            client,
            listed: Cell::new(0),
        })
    }

    fn uuid(&self) -> u128 {
        self.view.uuid()
    }

    fn youngest(&self) -> u64 {
        self.view.youngest()
    }

    fn kind(&self, revision: u64, path: &Path) -> NodeKind {
        self.view.kind(revision, path)
    }

    fn has_deeper(&self, revision: u64, path: &Path, names: usize) -> bool {
        self.view.has_deeper(revision, path, names)
    }

    fn created(&self, revision: u64, path: &Path) -> Option<u64> {
        self.view.created(revision, path)
    }

    fn properties(&self, revision: u64, path: &Path) -> Option<&Properties> {
        self.view.properties(revision, path)
    }

    fn text(&self, revision: u64, path: &Path) -> Option<&FileText> {
        self.view.text(revision, path)
    }

    fn names(&self, revision: u64, path: &Path) -> Result<Vec<&ByteString>, AllocError> {
        if self.has_no_client() {
            return Err(AllocError);
        }
        self.view.names(revision, path)
    }

    fn is_same(&self, revision: u64, path: &Path, other: u64, other_path: &Path) -> bool {
        self.view.is_same(revision, path, other, other_path)
    }

    fn differing_names(
        &self,
        revision: u64,
        path: &Path,
        other: u64,
        other_path: &Path,
    ) -> Result<Option<Vec<&ByteString>>, AllocError> {
        if self.has_no_client() {
            return Err(AllocError);
        }
        self.view.differing_names(revision, path, other, other_path)
    }

    fn changes(&self, revision: u64) -> &[(Path, Change)] {
        self.view.changes(revision)
    }

    fn settled(&self, revision: u64, path: &Path) -> u64 {
        self.view.settled(revision, path)
    }

    fn dated_bound(&self, revision: u64, date: &[u8]) -> u64 {
        self.view.dated_bound(revision, date)
    }

    fn revision_properties(&self, revision: u64) -> Option<&Properties> {
        self.view.revision_properties(revision)
    }

    fn lock_at(&self, path: &Path) -> Option<&Lock> {
        self.view.lock_at(path)
    }

    fn locks_under(&self, path: &Path) -> Result<Vec<(&Path, &Lock)>, AllocError> {
        self.view.locks_under(path)
    }

    fn releases(&self, user: Option<&ByteString>, tokens: &LockTokens) -> bool {
        self.view.releases(user, tokens)
    }

    fn begin(&self) -> Result<V::Txn, AllocError> {
        self.view.begin()
    }

    fn kind_in(&self, txn: &V::Txn, path: &Path) -> NodeKind {
        self.view.kind_in(txn, path)
    }

    fn created_in(&self, txn: &V::Txn, path: &Path) -> Option<u64> {
        self.view.created_in(txn, path)
    }

    fn text_in<'a>(&'a self, txn: &'a V::Txn, path: &Path) -> Option<&'a FileText> {
        self.view.text_in(txn, path)
    }

    fn edit(&self, txn: &mut V::Txn, op: EditOp) -> Result<(), AllocError> {
        self.view.edit(txn, op)
    }

    fn refused_at(&self, ask: &CommitAsk, txn: &V::Txn) -> Result<Option<Path>, AllocError> {
        self.view.refused_at(ask, txn)
    }

    fn commit(&mut self, ask: CommitAsk, txn: V::Txn) -> Result<u64, ChangeFault> {
        self.view.commit(ask, txn)
    }

    fn lock(&mut self, ask: LockAsk) -> Result<(), ChangeFault> {
        self.view.lock(ask)
    }

    fn unlock(&mut self, ask: &UnlockAsk) -> Result<(), ChangeFault> {
        self.view.unlock(ask)
    }

    fn set_rev_prop(&mut self, ask: PropertyAsk) -> Result<(), ChangeFault> {
        self.view.set_rev_prop(ask)
    }

    fn release(
        &mut self,
        user: Option<&ByteString>,
        tokens: &LockTokens,
    ) -> Result<(), ChangeFault> {
        self.view.release(user, tokens)
    }
}

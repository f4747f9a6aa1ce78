//! A seat of a repository in files that threads share, as a session reaches it.
use crate::sharing::{ServedRepo, ServedSeat};
use access::{Changes, Committed, NotCommitted, SplitAccess};
use published::Naming;
use repo_api::{ChangeFault, CommitAsk, LockAsk, PropertyAsk, UnlockAsk};
use std::sync::{Arc, Wait};
use store_files::Store;
use stored_repository::Filed;

/// The lock of a repository in files that others change too, and what waits for it.
pub struct ServedChanges<'r, F: Filed, S: Store, J: Naming, W: Wait> {
    repository: Arc<ServedRepo<F, S, J>>,
    rt: &'r W,
}

impl<'r, F: Filed, S: Store, J: Naming, W: Wait> Drop for ServedChanges<'r, F, S, J, W> {
    fn drop(self) {
        let ServedChanges {
            repository: _,
            rt: _,
        } = self;
    }
}

impl<'r, F: Filed, S: Store, J: Naming, W: Wait> ServedChanges<'r, F, S, J, W> {
    /// Makes the part that changes a repository.
    pub fn new(repository: Arc<ServedRepo<F, S, J>>, rt: &'r W) -> ServedChanges<'r, F, S, J, W> {
        ServedChanges { repository, rt }
    }
}

/// A repository in files that others change too, as one session reaches it: its seat looks and has no runtime, and what
/// waits is needed for changes alone.
pub type ServedAccess<'r, F, S, J, W> = SplitAccess<
    ServedSeat<F, J>,
    ServedChanges<'r, F, S, J, W>,
>;

impl<'r, F: Filed, S: Store, J: Naming, W: Wait> Changes<ServedSeat<F, J>>
    for ServedChanges<'r, F, S, J, W> {
    fn commit(
        &mut self,
        seat: &mut ServedSeat<F, J>,
        ask: CommitAsk,
        txn: F::Txn,
    ) -> Result<Committed, NotCommitted> {
        self.repository.commit(self.rt, seat, ask, txn)
    }

    fn lock(&mut self, seat: &mut ServedSeat<F, J>, ask: LockAsk) -> Result<(), ChangeFault> {
        self.repository.lock(self.rt, seat, ask)
    }

    fn unlock(&mut self, seat: &mut ServedSeat<F, J>, ask: &UnlockAsk) -> Result<(), ChangeFault> {
        self.repository.unlock(self.rt, seat, ask)
    }

    fn set_rev_prop(
        &mut self,
        seat: &mut ServedSeat<F, J>,
        ask: PropertyAsk,
    ) -> Result<(), ChangeFault> {
        self.repository.set_rev_prop(self.rt, seat, ask)
    }
}

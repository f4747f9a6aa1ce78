//! A transaction, with the revision that it began from.
ghost use Rattle.std.specs.Prelude.{◌≡◌, IfOk};
ghost use Rattle.repo_api.specs.{RightEdits.IsRightEdit, States.{EditsTxn, IsBegun, IsBeginning, tree_of, trees_in}};

use repo_api::{EditOp, Repository};
use std::alloc::AllocError;
use std::marker::Model;

/// A transaction, with the revision that it began from.
pub(crate) struct OpenTxn<R: Repository> {
    txn: R::Txn,
    base: u64,
}

impl<R: Repository> Drop for OpenTxn<R> {
    fn drop(self) {
        let OpenTxn { txn: _, base: _ } = self;
    }
}

impl<R: Repository> Model for OpenTxn<R> {
    ghost use Rattle.std.specs.{Prelude.◌≡◌, Coded.codes, FinMap.code as map_code};
    ghost use Rattle.repo_api.specs.States.{TxnState};

    ghost Value = { TxnState };

    ghost coded = { Prim.hlevel (map_code, codes) };

    ghost view = { λ t. R.txn_state t.txn };

    ghost invariant = { λ t. (R.txn_state t.txn).base ≡ t.base };
}

impl<R: Repository> OpenTxn<R> {
    /// Begins a transaction at the youngest revision.
    pub(crate) fn begin(repository: &R) -> Result<Self, AllocError>
        ensures { IfOk result (λ txn. IsBegun (R.content repository.now) txn) }
    {
        let txn = repository.begin()?;
        let base = repository.youngest();
        Ok(OpenTxn { txn, base })
    }

    /// Gives the transaction as the repository has it.
    pub(crate) fn as_txn(&self) -> &R::Txn
        ensures { R.txn_state result.now ≡ self.now }
    {
        &self.txn
    }

    /// Gives the revision that it began from.
    pub(crate) fn base(&self) -> u64
        ensures { result ≡ self.now.base }
    {
        self.base
    }

    /// Makes an edit.
    pub(crate) fn edit(&mut self, op: EditOp, repository: &R) -> Result<(), AllocError>
        requires rests { IsBeginning self.old.shown (R.content repository.now).revisions }
        requires right { IsRightEdit (trees_in (R.content repository.now).revisions)
            (tree_of self.old.tree) op }
        ensures { EditsTxn result (R.content repository.now).revisions self.old op self.new }
    {
        repository.edit(&mut self.txn, op)
    }

    /// Gives the transaction as the repository has it, to be committed.
    pub(crate) fn into_txn(self) -> R::Txn
        ensures { R.txn_state result ≡ self }
    {
        let OpenTxn { txn, base: _ } = self;
        txn
    }
}

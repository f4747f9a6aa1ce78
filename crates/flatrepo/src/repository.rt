//! The repository and its transactions.
ghost use Rattle.std.specs.Prelude.{◌≡◌, ◌≤◌, List, ℕ, IfOk, OnOk, OnErr};
ghost use Rattle.dates.specs.{Dates.IsDateText, declared.TheConstants.LAST_MOMENT};
ghost use Rattle.repo_api.specs.{Commits.{IsConflictOf, IsRefusedAt}, Kinds.{created_at, kind_at}, Locking.{refusing_path, with_lock}, Opening.new_repository};
ghost use Rattle.repo_api.specs.{RevisionProperties.{property_refusal, with_changed_property}, RightEdits.IsRightEdit};
ghost use Rattle.repo_api.specs.States.{EditsTxn, IsBeginning, Notes, tree_of, trees_in, youngest};
ghost use Rattle.flat_commits.specs.{Contents.{flat_state, revisions_of}, Whole.{state_of, txn_state_of}};
ghost use Rattle.flatrepo.specs.{Edits.EditsTree, Whole.repo_content};

use crate::edits::edit_tree;
use crate::flat_repo::FlatRepo;
use byte_string::ByteString;
use dates::date_bytes;
use flat_commits::{FlatContent, FlatTxn, commit};
use flat_trees::{FlatTree, created, kind, properties, text};
use pathlocks::{Locks, lock_shared, put_shared, release_shared, unlock_shared};
use refusals::Refusal;
use repo_api::{
    Change, ChangeFault, CommitAsk, EditOp, FileText, Lock, LockAsk, LockTokens, NodeKind,
    Properties, PropertyAsk, Repository, UnlockAsk,
};
use revision_data::{TxnChanges, current_refusal, property_refusal};
use std::alloc::{AllocError, Global};
use std::mem::drop;
use std::sync::Arc;
use svnpath::Path;

impl FlatRepo {
    /// Makes an empty repository: revision 0, whose date is the moment's, a count of microseconds since the beginning
    /// of 1970.
    pub fn new(alloc: Global, uuid: u128, moment: u64) -> Result<Self, AllocError>
        requires { moment ≤ LAST_MOMENT }
        ensures { IfOk result (λ r. (date : List ℕ) × IsDateText moment date
            × (repo_content r ≡ new_repository uuid date)) }
    {
        let date = date_bytes(alloc, moment)?;
        let content = FlatContent::opened(alloc, uuid, date)?;
        Ok(FlatRepo {
            alloc,
            content: Arc::new(alloc, content)?,
            locks: Arc::new(alloc, Locks::new(alloc))?,
        })
    }

    /// Puts a lock at a path, over what stood there, and whatever refuses a lock: for a repository in
    /// which locks stand that nobody asked for here.
    pub fn put_lock(&mut self, path: Path, lock: Lock) -> Result<(), AllocError>
        ensures ok { OnOk result (repo_content self.new
            ≡ with_lock (repo_content self.old) path lock) }
        ensures err { OnErr result (repo_content self.new ≡ repo_content self.old) }
    {
        put_shared(&mut self.locks, path, lock)
    }
}

impl Repository for FlatRepo {
    ghost use Rattle.flatrepo.specs.Whole.{repo_content};
    ghost use Rattle.flat_commits.specs.Whole.{txn_state_of};

    type Txn = FlatTxn;

    ghost content = { repo_content };

    ghost txn_state = { txn_state_of };

    fn share(&self) -> Result<Self, AllocError> {
        Ok(FlatRepo {
            alloc: self.alloc,
            content: Arc::try_clone(&self.content)?,
            locks: Arc::try_clone(&self.locks)?,
        })
    }

    fn uuid(&self) -> u128 {
        self.content.uuid
    }

    fn youngest(&self) -> u64 {
        self.content.youngest()
    }

    fn kind(&self, revision: u64, path: &Path) -> NodeKind {
        kind(self.content.tree(revision).get(path))
    }

    fn has_deeper(&self, revision: u64, path: &Path, names: usize) -> bool {
        self.content.tree(revision).has_deeper(path, names)
    }

    fn created(&self, revision: u64, path: &Path) -> Option<u64> {
        created(self.content.tree(revision).get(path))
    }

    fn properties(&self, revision: u64, path: &Path) -> Option<&Properties> {
        properties(self.content.tree(revision).get(path))
    }

    fn text(&self, revision: u64, path: &Path) -> Option<&FileText> {
        text(self.content.tree(revision).get(path))
    }

    fn names(&self, revision: u64, path: &Path) -> Result<Vec<&ByteString>, AllocError> {
        self.content.tree(revision).names(self.alloc, path)
    }

    fn is_same(&self, _revision: u64, _path: &Path, _other: u64, _other_path: &Path) -> bool {
        false
    }

    fn changes(&self, revision: u64) -> &[(Path, Change)] {
        self.content.changes(revision)
    }

    fn settled(&self, revision: u64, _path: &Path) -> u64 {
        revision
    }

    fn revision_properties(&self, revision: u64) -> Option<&Properties> {
        self.content.properties(revision)
    }

    fn lock_at(&self, path: &Path) -> Option<&Lock> {
        self.locks.get(path)
    }

    fn locks_under(&self, path: &Path) -> Result<Vec<(&Path, &Lock)>, AllocError> {
        self.locks.at_or_under(self.alloc, path)
    }

    fn releases(&self, user: Option<&ByteString>, tokens: &LockTokens) -> bool {
        self.locks.releases(user, tokens.as_slice())
    }

    fn kind_in(&self, txn: &FlatTxn, path: &Path) -> NodeKind {
        kind(txn.tree.get(path))
    }

    fn created_in(&self, txn: &FlatTxn, path: &Path) -> Option<u64> {
        created(txn.tree.get(path))
    }

    fn text_in<'a>(&'a self, txn: &'a FlatTxn, path: &Path) -> Option<&'a FileText> {
        text(txn.tree.get(path))
    }

    fn begin(&self) -> Result<FlatTxn, AllocError> {
        let base = self.content.youngest();
        Ok(FlatTxn {
            shown: Arc::try_clone(&self.content)?,
            base,
            tree: self.content.tree(base).begun(self.alloc)?,
            changes: TxnChanges::new(self.alloc),
        })
    }

    fn edit(&self, txn: &mut FlatTxn, op: EditOp) -> Result<(), AllocError> {
        edit_txn(self.alloc, &self.content, txn, &op)
    }

    fn refused_at(&self, ask: &CommitAsk, txn: &FlatTxn) -> Result<Option<Path>, AllocError> {
        refused_at(self.alloc, &self.content, &self.locks, ask, txn)
    }

    fn commit(&mut self, ask: CommitAsk, txn: FlatTxn) -> Result<u64, ChangeFault> {
        commit(self.alloc, &mut self.content, &self.locks, ask, txn)
    }

    fn lock(&mut self, ask: LockAsk) -> Result<(), ChangeFault> {
        if let Some(refusal) = current_refusal(self.content.youngest(), ask.current) {
            drop(ask);
            return Err(ChangeFault::Refused(refusal));
        }
        let (kind, created) = kind_and_created(&self.content, &ask.path);
        lock_shared(self.alloc, &mut self.locks, kind, created, ask)
    }

    fn unlock(&mut self, ask: &UnlockAsk) -> Result<(), ChangeFault> {
        unlock_shared(&mut self.locks, ask)
    }

    fn set_rev_prop(&mut self, ask: PropertyAsk) -> Result<(), ChangeFault> {
        if let Some(refusal) = refusal_of(&self.content, &ask) {
            drop(ask);
            return Err(ChangeFault::Refused(refusal));
        }
        self.content = with_property(self.alloc, &self.content, ask)?;
        Ok(())
    }

    fn release(
        &mut self,
        user: Option<&ByteString>,
        tokens: &LockTokens,
    ) -> Result<(), ChangeFault> {
        release_shared(self.alloc, &mut self.locks, user, tokens)?;
        Ok(())
    }
}

/// Refuses a change of a property of a revision.
fn refusal_of(content: &FlatContent, ask: &PropertyAsk) -> Option<Refusal>
    ensures { result ≡ property_refusal (flat_state content.now) ask.now }
{
    property_refusal(content.youngest(), content.properties(ask.revision), ask)
}

/// Makes what is held after a change of a property of a revision. What was shared before stays as it was.
fn with_property(
    alloc: Global,
    content: &FlatContent,
    ask: PropertyAsk,
) -> Result<Arc<FlatContent>, AllocError>
    ensures { IfOk result (λ c. flat_state c.value
        ≡ with_changed_property (flat_state content.now) ask.revision ask.name ask.value) }
{
    let PropertyAsk {
        revision,
        name,
        value,
        previous: _,
    } = ask;
    let changed = content.with_property(alloc, revision, name, value)?;
    Ok(Arc::new(alloc, changed)?)
}

/// Finds what is at the path in the youngest revision, and the revision of its last change.
fn kind_and_created(content: &FlatContent, path: &Path) -> (NodeKind, Option<u64>)
    ensures kind { result.0
        ≡ kind_at (flat_state content.now) (youngest (flat_state content.now)) path.now }
    ensures created { result.1
        ≡ created_at (flat_state content.now) (youngest (flat_state content.now)) path.now }
{
    let entry = content.tree(content.youngest()).get(path);
    (kind(entry), created(entry))
}

/// Makes the edit in the transaction, and shows it this content.
fn edit_txn(
    alloc: Global,
    content: &Arc<FlatContent>,
    txn: &mut FlatTxn,
    op: &EditOp,
) -> Result<(), AllocError>
    requires rests { IsBeginning (txn_state_of txn.old).shown (revisions_of content.now.value) }
    requires right { IsRightEdit (trees_in (revisions_of content.now.value))
        (tree_of (txn_state_of txn.old).tree) op.now }
    ensures { EditsTxn result (revisions_of content.now.value) (txn_state_of txn.old) op.now
        (txn_state_of txn.new) }
{
    let shown = Arc::try_clone(content)?;
    edit_parts(alloc, content, &mut txn.tree, &mut txn.changes, op)?;
    txn.shown = shown;
    Ok(())
}

/// Makes the edit in the tree and the changes of a transaction. What the changes need is taken first, and taken back
/// where the tree's edit lacks memory.
fn edit_parts(
    alloc: Global,
    content: &FlatContent,
    tree: &mut FlatTree,
    changes: &mut TxnChanges,
    op: &EditOp,
) -> Result<(), AllocError>
    ensures tree { EditsTree result content.now tree.old op.now tree.new }
    ensures changes { Notes result changes.old op.now changes.new }
{
    let note = changes.prepare(op)?;
    match edit_tree(alloc, content, tree, op) {
        Ok(()) => {
            changes.settle(op, note);
            Ok(())
        }
        Err(error) => {
            changes.take_back(op, note);
            Err(error)
        }
    }
}

/// Finds a path at which a commit is refused, if it is at one: a path in conflict, or where none is, that of the first
/// lock in its way that refuses.
fn refused_at(
    alloc: Global,
    content: &FlatContent,
    locks: &Locks,
    ask: &CommitAsk,
    txn: &FlatTxn,
) -> Result<Option<Path>, AllocError>
    ensures { IfOk result (IsRefusedAt (state_of content.now locks.now) ask.now
        (txn_state_of txn.now)) }
{
    let conflict = conflict_in(content, txn)?;
    match conflict {
        Some(path) => Ok(Some(path)),
        None => refusing_path(alloc, locks, &txn.changes, ask),
    }
}

/// Finds a path at which others have changed what the transaction has changed, if there is one.
fn conflict_in(content: &FlatContent, txn: &FlatTxn) -> Result<Option<Path>, AllocError>
    ensures { IfOk result (IsConflictOf (flat_state content.now) (txn_state_of txn.now)) }
{
    let base = content.tree(txn.base);
    let newest = content.tree(content.youngest());
    txn.tree.conflict(base, newest)
}

/// Finds the path of the lock that refuses a commit of the changes, if one does.
fn refusing_path(
    alloc: Global,
    locks: &Locks,
    changes: &TxnChanges,
    ask: &CommitAsk,
) -> Result<Option<Path>, AllocError>
    ensures { IfOk result (λ path. path ≡ refusing_path locks.now changes.now ask.now.author
        ask.now.tokens) }
{
    let tokens = ask.tokens.as_slice();
    locks.refusing_path(alloc, changes.as_map(), ask.author.as_ref(), tokens)
}

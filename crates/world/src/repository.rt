//! The repository and its transactions.
ghost use Rattle.std.specs.Prelude.{◌≡◌, ◌≤◌, List, ℕ, IfOk, OnOk, OnErr};
ghost use Rattle.dates.specs.{Dates.IsDateText, declared.TheConstants.LAST_MOMENT};
ghost use Rattle.repo_api.specs.{Kinds.{created_at, kind_at}, Locking.with_lock, Opening.new_repository};
ghost use Rattle.repo_api.specs.{RevisionProperties.{property_refusal, with_changed_property}, States.youngest};
ghost use Rattle.shared_revisions.specs.{Contents.held_state, Growing.HasSameBut};
ghost use Rattle.world.specs.Whole.{world_content};

use crate::committing::{refused_at, with_commit};
use crate::editing::edit_txn;
use crate::world::World;
use crate::world_txn::WorldTxn;
use byte_string::ByteString;
use dates::date_bytes;
use history_marks::{repositories_stay_sound, transactions_stay_sound};
use pathlocks::{Locks, lock_shared, put_shared, release_shared, unlock_shared};
use refusals::Refusal;
use repo_api::{
    Change, ChangeFault, CommitAsk, EditOp, FileText, Lock, LockAsk, LockTokens, NodeKind,
    Properties, PropertyAsk, Repository, UnlockAsk,
};
use revision_data::{TxnChanges, current_refusal, property_refusal};
use shared_revisions::Held;
use std::alloc::{AllocError, Global};
use std::sync::Arc;
use svnpath::Path;

impl World {
    /// Makes an empty repository: revision 0, whose date is the moment's, a count of microseconds since the beginning
    /// of 1970.
    pub fn new(alloc: Global, uuid: u128, moment: u64) -> Result<Self, AllocError>
        requires { moment ≤ LAST_MOMENT }
        ensures { IfOk result (λ w. (date : List ℕ) × IsDateText moment date
            × (world_content w ≡ new_repository uuid date)) }
    {
        repositories_stay_sound();
        let date = date_bytes(alloc, moment)?;
        let held = Held::opened(alloc, uuid, date)?;
        Ok(World {
            alloc,
            held: Arc::new(alloc, held)?,
            locks: Arc::new(alloc, Locks::new(alloc))?,
        })
    }

    /// Puts a lock at a path, over what stood there, and whatever refuses a lock: for a repository in
    /// which locks stand that nobody asked for here.
    pub fn put_lock(&mut self, path: Path, lock: Lock) -> Result<(), AllocError>
        ensures ok { OnOk result (world_content self.new
            ≡ with_lock (world_content self.old) path lock) }
        ensures err { OnErr result (world_content self.new ≡ world_content self.old) }
    {
        put_shared(&mut self.locks, path, lock)
    }
}

impl Repository for World {
    ghost use Rattle.world.specs.Whole.{world_content, txn_state_of};

    type Txn = WorldTxn;

    ghost content = { world_content };

    ghost txn_state = { txn_state_of };

    fn share(&self) -> Result<Self, AllocError> {
        Ok(World {
            alloc: self.alloc,
            held: Arc::try_clone(&self.held)?,
            locks: Arc::try_clone(&self.locks)?,
        })
    }

    fn uuid(&self) -> u128 {
        self.held.uuid()
    }

    fn youngest(&self) -> u64 {
        self.held.youngest()
    }

    fn kind(&self, revision: u64, path: &Path) -> NodeKind {
        self.held.kind(revision, path)
    }

    fn has_deeper(&self, revision: u64, path: &Path, names: usize) -> bool {
        self.held.has_deeper(revision, path, names)
    }

    fn created(&self, revision: u64, path: &Path) -> Option<u64> {
        self.held.created(revision, path)
    }

    fn properties(&self, revision: u64, path: &Path) -> Option<&Properties> {
        self.held.node_properties(revision, path)
    }

    fn text(&self, revision: u64, path: &Path) -> Option<&FileText> {
        self.held.text(revision, path)
    }

    fn names(&self, revision: u64, path: &Path) -> Result<Vec<&ByteString>, AllocError> {
        self.held.names(self.alloc, revision, path)
    }

    fn is_same(&self, revision: u64, path: &Path, other: u64, other_path: &Path) -> bool {
        self.held.is_same(revision, path, other, other_path)
    }

    fn differing_names(
        &self,
        revision: u64,
        path: &Path,
        other: u64,
        other_path: &Path,
    ) -> Result<Option<Vec<&ByteString>>, AllocError> {
        self.held
            .differing_names(self.alloc, revision, path, other, other_path)
    }

    fn changes(&self, revision: u64) -> &[(Path, Change)] {
        self.held.changes(revision)
    }

    fn settled(&self, revision: u64, path: &Path) -> u64 {
        self.held.settled(revision, path)
    }

    fn dated_bound(&self, revision: u64, date: &[u8]) -> u64 {
        self.held.dated_bound(revision, date)
    }

    fn revision_properties(&self, revision: u64) -> Option<&Properties> {
        self.held.properties(revision)
    }

    fn lock_at(&self, path: &Path) -> Option<&Lock> {
        self.locks.get(path)
    }

    fn locks_under(&self, path: &Path) -> Result<Vec<(&Path, &Lock)>, AllocError> {
        self.locks.at_or_under(self.alloc, path)
    }

    fn releases(&self, user: Option<&ByteString>, tokens: &LockTokens) -> bool {
        self.locks.releases(user, tokens.as_slice())
    }

    fn kind_in(&self, txn: &WorldTxn, path: &Path) -> NodeKind {
        txn.over.kind_in(&txn.tree, path)
    }

    fn created_in(&self, txn: &WorldTxn, path: &Path) -> Option<u64> {
        txn.over.created_in(&txn.tree, path)
    }

    fn text_in<'a>(&'a self, txn: &'a WorldTxn, path: &Path) -> Option<&'a FileText> {
        txn.over.text_in(&txn.tree, path)
    }

    fn begin(&self) -> Result<WorldTxn, AllocError> {
        transactions_stay_sound();
        repo_laws::beginnings_are_trees();
        let tree = self.held.begun(self.alloc)?;
        Ok(WorldTxn {
            shown: Arc::try_clone(&self.held)?,
            over: Arc::try_clone(&self.held)?,
            base: self.held.youngest(),
            tree,
            changes: TxnChanges::new(self.alloc),
        })
    }

    fn edit(&self, txn: &mut WorldTxn, op: EditOp) -> Result<(), AllocError> {
        edit_txn(self.alloc, &self.held, txn, &op)
    }

    fn refused_at(&self, ask: &CommitAsk, txn: &WorldTxn) -> Result<Option<Path>, AllocError> {
        refused_at(self.alloc, &self.held, &self.locks, ask, txn)
    }

    fn commit(&mut self, ask: CommitAsk, txn: WorldTxn) -> Result<u64, ChangeFault> {
        let number = self.held.count();
        let next = with_commit(self.alloc, &self.held, &self.locks, &ask, &txn);
        std::mem::drop((ask, txn));
        self.held = next?;
        Ok(number)
    }

    fn lock(&mut self, ask: LockAsk) -> Result<(), ChangeFault> {
        if let Some(refusal) = current_refusal(self.held.youngest(), ask.current) {
            std::mem::drop(ask);
            return Err(ChangeFault::Refused(refusal));
        }
        let (kind, created) = kind_and_created(&self.held, &ask.path);
        lock_shared(self.alloc, &mut self.locks, kind, created, ask)
    }

    fn unlock(&mut self, ask: &UnlockAsk) -> Result<(), ChangeFault> {
        unlock_shared(&mut self.locks, ask)
    }

    fn set_rev_prop(&mut self, ask: PropertyAsk) -> Result<(), ChangeFault> {
        if let Some(refusal) = refusal_of(&self.held, &ask) {
            std::mem::drop(ask);
            return Err(ChangeFault::Refused(refusal));
        }
        self.held = with_property(self.alloc, &self.held, ask)?;
        Ok(())
    }

    fn release(
        &mut self,
        user: Option<&ByteString>,
        tokens: &LockTokens,
    ) -> Result<(), ChangeFault> {
        release_shared(self.alloc, &mut self.locks, user, tokens)?;
        Ok(())
    }
}

/// Says what exists at the path in the youngest revision, and the revision of its last change.
pub(crate) fn kind_and_created(held: &Held, path: &Path) -> (NodeKind, Option<u64>)
    ensures kind { result.0
        ≡ kind_at (held_state held.now) (youngest (held_state held.now)) path.now }
    ensures created { result.1
        ≡ created_at (held_state held.now) (youngest (held_state held.now)) path.now }
{
    let youngest = held.youngest();
    (held.kind(youngest, path), held.created(youngest, path))
}

/// Refuses a change of a property of a revision.
pub(crate) fn refusal_of(held: &Held, ask: &PropertyAsk) -> Option<Refusal>
    ensures { result ≡ property_refusal (held_state held.now) ask.now }
{
    property_refusal(held.youngest(), held.properties(ask.revision), ask)
}

/// Makes what is held after a change of a property of a revision. What was shared before stays as it was.
pub(crate) fn with_property(
    alloc: Global,
    held: &Held,
    ask: PropertyAsk,
) -> Result<Arc<Held>, AllocError>
    ensures { IfOk result (λ h. HasSameBut held.now h.value
        (λ s. with_changed_property s ask.revision ask.name ask.value)) }
{
    let PropertyAsk {
        revision,
        name,
        value,
        previous: _,
    } = ask;
    let changed = held.with_property(alloc, revision, name, value)?;
    Ok(Arc::new(alloc, changed)?)
}

//! A repository, by what it contains.
ghost use Rattle.std.specs.{Prelude.{◌≡◌, ◌≤◌, ◌<◌, true, length, map, IfOk, IfSome, option_copied, slice_get}, FinMap.get, Map.Iter.{deref, deref_pair}};
ghost use Rattle.repo_api.specs.{States.{RepoState, TxnState, IsBeginning, IsBegun, EditsTxn, tree_of, trees_in, youngest}, Accepted.MakesChange};
ghost use Rattle.repo_api.specs.{Accepted.Accepted.{ChangesProperty, Commits, Locks, Releases, Unlocks}, Commits.IsRefusedAt, RightEdits.IsRightEdit};
ghost use Rattle.repo_api.specs.{Locking.{at_or_under, releases}, Histories.{history_of, IsQuietSince}};
ghost use Rattle.repo_api.specs.{Kinds.{kind_at, has_deeper_at, created_at, node_properties_at, text_at, kind_in, created_in, text_in}, Dates.IsUndatedSince};
ghost use Rattle.repo_api.specs.Readings.{names_at, DifferAtMostBy, IsSameAt};

use crate::ask::CommitAsk;
use crate::change::Change;
use crate::edit::EditOp;
use crate::entry::NodeKind;
use crate::fault::ChangeFault;
use crate::file_text::FileText;
use crate::lock::{Lock, LockTokens};
use crate::lock_ask::{LockAsk, UnlockAsk};
use crate::properties::Properties;
use crate::property_ask::PropertyAsk;
use byte_string::ByteString;
use std::alloc::AllocError;
use svnpath::Path;

/// A repository, by what it contains, however that is kept. A call that is refused, or that lacks
/// memory, changes nothing.
pub trait Repository: Drop {
    /// An open transaction.
    type Txn: Drop;

    /// What the repository contains.
    ghost content: { Self → RepoState };

    /// What a transaction is.
    ghost txn_state: { Self.Txn → TxnState };

    /// Makes another hold of the same content.
    fn share(&self) -> Result<Self, AllocError>
        ensures { IfOk result (λ other. content other ≡ content self.now) };

    /// Gives the repository's name among all repositories, as a number of 128 bits.
    fn uuid(&self) -> u128
        ensures { result ≡ (content self.now).uuid };

    /// Gives the number of the youngest revision.
    fn youngest(&self) -> u64
        ensures { result ≡ youngest (content self.now) };

    /// Says what exists at a path of a revision.
    fn kind(&self, revision: u64, path: &Path) -> NodeKind
        ensures { result ≡ kind_at (content self.now) revision path.now };

    /// Says whether something exists more than so many names beneath a path of a revision.
    fn has_deeper(&self, revision: u64, path: &Path, names: usize) -> bool
        ensures { result ≡ has_deeper_at (content self.now) revision path.now names };

    /// Finds the revision that last changed what exists at a path of a revision, at or under it.
    fn created(&self, revision: u64, path: &Path) -> Option<u64>
        ensures { result ≡ created_at (content self.now) revision path.now };

    /// Finds the properties of what exists at a path of a revision, `None` where nothing exists.
    fn properties(&self, revision: u64, path: &Path) -> Option<&Properties>
        ensures { option_copied result ≡ node_properties_at (content self.now) revision path.now };

    /// Finds the text of the file at a path of a revision, `None` where no file exists.
    fn text(&self, revision: u64, path: &Path) -> Option<&FileText>
        ensures { option_copied result ≡ text_at (content self.now) revision path.now };

    /// Gives the names of what exists directly beneath a path of a revision, by their bytes.
    fn names(&self, revision: u64, path: &Path) -> Result<Vec<&ByteString>, AllocError>
        ensures { IfOk result (λ names. map deref names.items
            ≡ names_at (content self.now) revision path.now) };

    /// Says whether what exists at and under a path of a revision is what exists at and under another path of another
    /// revision. A `false` answer is always right; a repository that can tell answers it without looking at what lies
    /// beneath.
    fn is_same(&self, revision: u64, path: &Path, other: u64, other_path: &Path) -> bool
        ensures { result ≡ true
            → IsSameAt (content self.now) revision path.now other other_path.now }
    {
        false
    }

    /// Gives names among which are all by which a directory of a revision and another of another revision differ, `None`
    /// where the repository cannot tell. A name too many is always right, and one may be there twice; a repository that
    /// can tell does not look at what lies beneath the entries.
    fn differing_names(
        &self,
        revision: u64,
        path: &Path,
        other: u64,
        other_path: &Path,
    ) -> Result<Option<Vec<&ByteString>>, AllocError>
        ensures { IfOk result (λ found. IfSome found (λ names. DifferAtMostBy (content self.now)
            revision path.now other other_path.now (map deref names.items))) }
    {
        Ok(None)
    }

    /// Gives the changes of a revision in the order of their paths, none for a number that no revision has.
    fn changes(&self, revision: u64) -> &[(Path, Change)]
        ensures { result.now ≡ history_of (content self.now) revision };

    /// Gives a revision, at most this one, after which and up to this one nothing was changed at, under or above the
    /// path. The less it is, the fewer revisions are gone through.
    fn settled(&self, revision: u64, path: &Path) -> u64
        ensures within { result ≤ revision }
        ensures quiet { IsQuietSince (history_of (content self.now)) path.now result revision }
    {
        revision
    }

    /// Gives a revision, at most this one, after which and up to this one none is dated up to the date. The less it
    /// is, the fewer revisions are gone through.
    fn dated_bound(&self, revision: u64, date: &[u8]) -> u64
        ensures within { result ≤ revision }
        ensures undated { IsUndatedSince (content self.now) date.now result revision }
    {
        revision
    }

    /// Gives the properties of a revision, none for a number that no revision has.
    fn revision_properties(&self, revision: u64) -> Option<&Properties>
        ensures { option_copied result ≡ slice_get (content self.now).properties revision };

    /// Finds the lock at a path.
    fn lock_at(&self, path: &Path) -> Option<&Lock>
        ensures { option_copied result ≡ get (content self.now).locks path.now };

    /// Finds the locks at a path and under it, by the bytes of their paths.
    fn locks_under(&self, path: &Path) -> Result<Vec<(&Path, &Lock)>, AllocError>
        ensures { IfOk result (λ found. map deref_pair found.items
            ≡ at_or_under (content self.now).locks path.now) };

    /// Says whether a release by the user, with these tokens handed in, takes some lock.
    fn releases(&self, user: Option<&ByteString>, tokens: &LockTokens) -> bool
        ensures { result ≡ releases (option_copied user.entry) tokens.now (content self.now).locks };

    /// Makes a transaction that begins from the youngest revision.
    fn begin(&self) -> Result<Self::Txn, AllocError>
        ensures { IfOk result (λ txn. IsBegun (content self.now) (txn_state txn)) };

    /// Says what exists at a path of a transaction, which was last shown a repository whose revisions begin this one's.
    fn kind_in(&self, txn: &Self::Txn, path: &Path) -> NodeKind
        requires { IsBeginning (txn_state txn.now).shown (content self.now).revisions }
        ensures { result ≡ kind_in (txn_state txn.now) path.now };

    /// Finds the revision that last changed what exists at a path of a transaction, at or under it: `None` where
    /// nothing exists, and where the transaction itself has changed it.
    fn created_in(&self, txn: &Self::Txn, path: &Path) -> Option<u64>
        requires { IsBeginning (txn_state txn.now).shown (content self.now).revisions }
        ensures { result ≡ created_in (txn_state txn.now) path.now };

    /// Finds the text of the file at a path of a transaction, `None` where no file exists.
    fn text_in<'a>(&'a self, txn: &'a Self::Txn, path: &Path) -> Option<&'a FileText>
        requires { IsBeginning (txn_state txn.now).shown (content self.now).revisions }
        ensures { option_copied result ≡ text_in (txn_state txn.now) path.now };

    /// Makes an edit in a transaction, which was last shown a repository whose revisions begin this one's. It adds to
    /// a directory where nothing stands, and what it copies, replaces, deletes or sets is there; each path that comes
    /// to stand is a right one, and a text keeps the limit.
    fn edit(&self, txn: &mut Self::Txn, op: EditOp) -> Result<(), AllocError>
        requires rests { IsBeginning (txn_state txn.old).shown (content self.now).revisions }
        requires right { IsRightEdit (trees_in (content self.now).revisions)
            (tree_of (txn_state txn.old).tree) op }
        ensures { EditsTxn result (content self.now).revisions (txn_state txn.old) op
            (txn_state txn.new) };

    /// Finds a path at which a commit of the transaction is refused, if it is at one. The transaction was last shown a
    /// repository whose revisions begin this one's.
    fn refused_at(&self, ask: &CommitAsk, txn: &Self::Txn) -> Result<Option<Path>, AllocError>
        requires { IsBeginning (txn_state txn.now).shown (content self.now).revisions }
        ensures { IfOk result (IsRefusedAt (content self.now) ask.now (txn_state txn.now)) };

    /// Makes the transaction the next revision, and answers its number. The transaction was last shown a
    /// repository whose revisions begin this one's.
    fn commit(&mut self, ask: CommitAsk, txn: Self::Txn) -> Result<u64, ChangeFault>
        requires { IsBeginning (txn_state txn).shown (content self.old).revisions }
        ensures change { MakesChange result (content self.old) (Commits ask (txn_state txn))
            (content self.new) }
        ensures number { IfOk result (λ n. n ≡ length (content self.old).revisions) };

    /// Locks the path of a file, in place of a lock that stands there if that may be stolen.
    fn lock(&mut self, ask: LockAsk) -> Result<(), ChangeFault>
        ensures { MakesChange result (content self.old) (Locks ask) (content self.new) };

    /// Takes the lock at the path away.
    fn unlock(&mut self, ask: &UnlockAsk) -> Result<(), ChangeFault>
        ensures { MakesChange result (content self.old) (Unlocks ask.now) (content self.new) };

    /// Makes this the value of a property of a revision, or takes the property out where there is no
    /// value, if the value before is the one that is asked for.
    fn set_rev_prop(&mut self, ask: PropertyAsk) -> Result<(), ChangeFault>
        ensures { MakesChange result (content self.old) (ChangesProperty ask) (content self.new) };

    /// Takes away each lock that is the user's and was handed in by its path and its token. One that was
    /// stolen since then stays.
    fn release(&mut self, user: Option<&ByteString>, tokens: &LockTokens) -> Result<(), ChangeFault>
        ensures { MakesChange result (content self.old) (Releases (option_copied user.entry) tokens.now)
            (content self.new) };
}

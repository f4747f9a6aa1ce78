//! A repository that can be written to files.
ghost use Rattle.std.specs.Prelude.{◌≡◌, length, IfOk, option_copied};
ghost use Rattle.repo_api.specs.{Accepted.IsJudged, Commits.{commit_refusal, committed}};
ghost use Rattle.repo_api.specs.Locking.{lock_refusal, locked, unlock_refusal, unlocked, without_released};
ghost use Rattle.repo_api.specs.{RevisionProperties.{property_refusal, with_changed_property}, States.RepoState, Transactions.MayCommit};
ghost use Rattle.repostore.specs.Files.{Files};
ghost use Rattle.stored_repository.specs.Filing.{MakesLocks, WritesProperties, WritesRevision};

use byte_string::ByteString;
use repo_api::{ChangeFault, CommitAsk, LockAsk, LockTokens, PropertyAsk, Repository, UnlockAsk};

/// A new revision: its number and its files, and `current` once it is there.
#[derive(Drop)]
pub struct NewRevision {
    pub number: u64,
    pub revision: Vec<u8>,
    pub properties: Vec<u8>,
    pub current: Vec<u8>,
}

/// New properties of a revision: its number, and the file of its properties.
#[derive(Drop)]
pub struct NewProperties {
    pub revision: u32,
    pub file: Vec<u8>,
}

/// A repository that is never changed once it is made: a change gives the repository behind it, and what
/// its files are then.
pub trait Filed: Repository {
    /// The files stand for this state.
    ghost stands_for: { Files → RepoState → Type 0 };

    /// The repository is that of these files.
    ghost is_of: { Self → Files → Type 0 };

    /// Makes the repository with the next revision.
    fn committed(
        &self,
        ask: &CommitAsk,
        txn: &Self::Txn,
    ) -> Result<(Self, NewRevision), ChangeFault>
        requires { MayCommit (Self.content self.now) (Self.txn_state txn.now) }
        ensures judged { IsJudged result (commit_refusal (Self.content self.now) ask.now
            (Self.txn_state txn.now)) }
        ensures ok { IfOk result (λ made. Self.content made.0
            ≡ committed (Self.content self.now) ask.now (Self.txn_state txn.now)) }
        ensures number { IfOk result (λ made. made.1.number
            ≡ length (Self.content self.now).revisions) }
        ensures files { IfOk result (λ made. WritesRevision is_of self.now made.1 made.0) };

    /// Makes the repository with the lock, and the file of its locks.
    fn locked(&self, ask: &LockAsk) -> Result<(Self, Vec<u8>), ChangeFault>
        ensures judged { IsJudged result (lock_refusal (Self.content self.now) ask.now) }
        ensures ok { IfOk result (MakesLocks is_of Self.content self.now
            (locked (Self.content self.now) ask.now)) };

    /// Makes the repository without the lock, and the file of its locks.
    fn unlocked(&self, ask: &UnlockAsk) -> Result<(Self, Vec<u8>), ChangeFault>
        ensures judged { IsJudged result (unlock_refusal (Self.content self.now) ask.now) }
        ensures ok { IfOk result (MakesLocks is_of Self.content self.now
            (unlocked (Self.content self.now) ask.now)) };

    /// Makes the repository without the locks that are the user's and were handed in, and the file of its locks.
    fn released(
        &self,
        user: Option<&ByteString>,
        tokens: &LockTokens,
    ) -> Result<(Self, Vec<u8>), ChangeFault>
        ensures ok { IfOk result (MakesLocks is_of Self.content self.now
            (without_released (Self.content self.now) (option_copied user.entry) tokens.now)) };

    /// Makes the repository with a property of a revision changed, and the file of the revision's properties.
    fn property_changed(&self, ask: &PropertyAsk) -> Result<(Self, NewProperties), ChangeFault>
        ensures judged { IsJudged result (property_refusal (Self.content self.now) ask.now) }
        ensures ok { IfOk result (λ made. Self.content made.0
            ≡ with_changed_property (Self.content self.now) ask.now.revision ask.now.name
            ask.now.value) }
        ensures number { IfOk result (λ made. made.1.revision ≡ ask.now.revision) }
        ensures files { IfOk result (λ made. WritesProperties is_of self.now ask.now.revision
            made.1.file.items made.0) };

    /// Files stand for one state at most.
    ghost one_state: { (files : Files) (a b : RepoState) → stands_for files a → stands_for files b
        → a ≡ b };

    /// Files stand for what their repository contains.
    ghost is_state: { (r : Self) (files : Files) → is_of r files
        → stands_for files (Self.content r) };
}

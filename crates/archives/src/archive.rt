//! What makes the changes of a repository, and keeps its files.
ghost use Rattle.std.specs.Prelude.{◌≡◌, true, false, List, [], ◌∷◌, ◌++◌};
ghost use Rattle.repo_api.specs.{Transactions.MayCommit, Accepted.Accepted, Accepted.Accepted.{ChangesProperty, Commits, Locks, Releases, Unlocks}};
ghost use Rattle.repo_api.specs.{Locking.releases, States.RepoState};
ghost use Rattle.access.specs.Beginnings.{AreAmong, through};
ghost use Rattle.archives.specs.Archives.{MaySave, Prepares, SaveLeaves};

use access::Handed;
use published::Files;
use repo_api::{ChangeFault, CommitAsk, LockAsk, PropertyAsk, Repository, UnlockAsk};

/// Why a save failed.
#[derive(Clone, Copy, Debug)]
pub enum SaveFault {
    /// The device failed before anything was replaced. Saves go on.
    Device,
    /// Memory was refused, and nothing was changed.
    NoMemory,
    /// A replacement failed: the files are the old ones or the new, and no more is saved.
    Halted,
}

/// What makes the changes of a repository, and keeps its files. A change is made first: the next repository,
/// and all that is to be written. Then that is saved.
pub trait Archive<R: Repository>: Files + Drop {
    /// What a change is to write.
    type Unsaved: Drop;

    /// Its files, as they are read and as a stop leaves them now, are those of a repository that contains one of
    /// these, if the files are honest.
    ghost stands: { Self → List RepoState → Type 0 };

    /// So they are now, and so is what a stop leaves at any moment from the one to the other.
    ghost leaves: { Self → Self → List RepoState → Type 0 };

    /// What is to be written is what this change makes of the files.
    ghost writes: { Self → Self.Unsaved → Accepted → Type 0 };

    /// Makes the transaction the next revision.
    fn committed(&self, ask: &CommitAsk, txn: &R::Txn) -> Result<(R, Self::Unsaved), ChangeFault>
        requires { MayCommit (Self.kept self.now).content (R.txn_state txn.now) }
        ensures { Prepares Self.kept writes R.content (Commits ask.now (R.txn_state txn.now))
            self.now result };

    /// Locks the path of a file, in place of a lock that stands there if that may be stolen.
    fn locked(&self, ask: LockAsk) -> Result<(R, Self::Unsaved), ChangeFault>
        ensures { Prepares Self.kept writes R.content (Locks ask) self.now result };

    /// Takes the lock at a path away.
    fn unlocked(&self, ask: &UnlockAsk) -> Result<(R, Self::Unsaved), ChangeFault>
        ensures { Prepares Self.kept writes R.content (Unlocks ask.now) self.now result };

    /// Takes the locks away that are the user's and were handed in, of which there is one.
    fn released(&self, handed: &Handed) -> Result<(R, Self::Unsaved), ChangeFault>
        requires { releases handed.now.user handed.now.tokens (Self.kept self.now).content.locks ≡ true }
        ensures { Prepares Self.kept writes R.content (Releases handed.now.user handed.now.tokens)
            self.now result };

    /// Makes this the value of a property of a revision, or takes the property out where there is no value, if the
    /// value before is the one that is asked for.
    fn property_changed(&self, ask: PropertyAsk) -> Result<(R, Self::Unsaved), ChangeFault>
        ensures { Prepares Self.kept writes R.content (ChangesProperty ask) self.now result };

    /// Saves a change that was made of the repository for which the files stand.
    fn save(&mut self, unsaved: Self::Unsaved) -> Result<(), SaveFault>
        requires { MaySave Self.kept writes self.old unsaved }
        ensures saved { (e : Accepted) → writes self.old unsaved e
            → SaveLeaves e (Self.kept self.old) result (Self.kept self.new) }
        ensures stop { (e : Accepted) → writes self.old unsaved e
            → leaves self.old self.new (through (Self.kept self.old).content (e ∷ [])) };

    /// While changes are saved, the files are those of the repository.
    ghost saves: { (a : Self) → (Self.kept a).halted ≡ false → stands a ((Self.kept a).content ∷ []) };

    /// Where nothing is done, a stop leaves what it leaves now.
    ghost stays: { (a : Self) (cs : List RepoState) → stands a cs → leaves a a cs };

    /// One may be done after another.
    ghost joins: { (a b c : Self) (cs ds : List RepoState) → leaves a b cs → leaves b c ds
        → leaves a c (cs ++ ds) };

    /// What is among these is among more.
    ghost among: { (a b : Self) (cs ds : List RepoState) → AreAmong cs ds → leaves a b cs
        → leaves a b ds };

    /// What stands behind it is among what a stop in it may leave.
    ghost rests: { (a b : Self) (cs : List RepoState) → leaves a b cs → stands b cs };
}

//! The locks of a repository.
ghost use Rattle.std.specs.Prelude.{◌≡◌, ◌+◌, length, IfOk, IfErr, OnOk, OnErr, Some, None, map, option_copied, option_map};
ghost use Rattle.std.specs.{FinMap.{get, empty, len, insert, remove, from_entries}, Map.Iter.deref_pair};
ghost use Rattle.svnpath.specs.Listings.{listing};
ghost use Rattle.repo_api.specs.{Accepted.{Becomes, IsJudged}, Locking.{after_release, at_or_under, check_refusal, in_the_way, is_held, lock_of}};
ghost use Rattle.repo_api.specs.Locking.{lock_refusal_at, refusing_path, released, releases, taking_refusal};

use crate::finding::{append_in_the_way, append_under};
use crate::refusing::{
    copied, entry_refusal, first_refusal, first_refusing, is_held, lock_of, place_refusal,
    taking_refusal, token_set, user_refusal,
};
use byte_string::ByteString;
use refusals::Refusal;
use repo_api::{Change, ChangeFault, Lock, LockAsk, NodeKind, UnlockAsk};
use std::alloc::{AllocError, Global};
use std::collections::BTreeMap;
use std::marker::Model;
use svnpath::{Path, sort_by_text};

/// The locks of a repository, by their paths. A call that is refused, or that lacks memory, changes
/// nothing.
pub struct Locks {
    locks: BTreeMap<Path, Lock>,
}

impl Drop for Locks {
    fn drop(self) {
        let Locks { locks: _ } = self;
    }
}

impl Model for Locks {
    ghost use Rattle.std.specs.{Coded.codes, FinMap.{from_entries, code as map_code}};
    ghost use Rattle.repo_api.specs.States.{LockMap};

    ghost Value = { LockMap };

    ghost coded = { Prim.hlevel (map_code, codes) };

    ghost view = { λ l. from_entries l.locks.entries };
}

impl Locks {
    /// Makes an empty map of locks.
    pub fn new(alloc: Global) -> Self
        ensures { result ≡ empty }
    {
        Locks {
            locks: BTreeMap::new(alloc),
        }
    }

    /// Finds the lock at the path.
    #[tactic(auto, using(repo_api::specs::StateLaws::get_path))]
    pub fn get(&self, path: &Path) -> Option<&Lock>
        ensures { option_copied result ≡ get self.now path.now }
    {
        self.locks.get(path)
    }

    /// Finds the locks at the path and under it, by the bytes of their paths.
    pub fn at_or_under(&self, alloc: Global, path: &Path) -> Result<Vec<(&Path, &Lock)>, AllocError>
        ensures { IfOk result (λ found. map deref_pair found.items
            ≡ at_or_under self.now path.now) }
    {
        let mut found = Vec::new(alloc);
        append_under(&self.locks, path, &mut found)?;
        listed(found)
    }

    /// Finds the locks in the way of the changes, by the bytes of their paths: each that stands at a changed path, or
    /// beneath one that was added, deleted or replaced. It takes the longer the more changes there are and the more
    /// locks are found, whatever other locks exist.
    pub fn in_the_way(
        &self,
        alloc: Global,
        changes: &BTreeMap<Path, Change>,
    ) -> Result<Vec<(&Path, &Lock)>, AllocError>
        ensures { IfOk result (λ found. map deref_pair found.items
            ≡ in_the_way self.now (from_entries changes.now.entries)) }
    {
        let mut found = Vec::new(alloc);
        append_in_the_way(&self.locks, changes, &mut found)?;
        listed(found)
    }

    /// Checks that the locks let a commit of the changes pass, by this user and with these paths and tokens handed in.
    /// Each lock in the way has to be the user's, and its token handed in, under any path.
    ///
    /// # Errors
    ///
    /// What the first lock in the way that refuses, by the bytes of its path, says: `NoUser`,
    /// `NotTheLockOwner` or `BadLockToken`; `NoMemory`.
    pub fn check(
        &self,
        alloc: Global,
        changes: &BTreeMap<Path, Change>,
        user: Option<&ByteString>,
        tokens: &[(Path, ByteString)],
    ) -> Result<(), ChangeFault>
        ensures { IsJudged result (check_refusal self.now (from_entries changes.now.entries)
            (option_copied user.entry) tokens.now) }
    {
        let found = self.in_the_way(alloc, changes)?;
        let handed_in = token_set(alloc, tokens)?;
        match first_refusal(found.as_slice(), user, &handed_in) {
            Some(refusal) => Err(ChangeFault::Refused(refusal)),
            None => Ok(()),
        }
    }

    /// Finds the path of the lock that refuses a commit of the changes, by this user and with these paths and tokens
    /// handed in: the first in the way that refuses, by the bytes of its path, whose refusal `check` answers.
    pub fn refusing_path(
        &self,
        alloc: Global,
        changes: &BTreeMap<Path, Change>,
        user: Option<&ByteString>,
        tokens: &[(Path, ByteString)],
    ) -> Result<Option<Path>, AllocError>
        ensures { IfOk result (λ path. path ≡ refusing_path self.now (from_entries changes.now.entries)
            (option_copied user.entry) tokens.now) }
    {
        let found = self.in_the_way(alloc, changes)?;
        let handed_in = token_set(alloc, tokens)?;
        copied(first_refusing(found.as_slice(), user, &handed_in))
    }

    /// Locks the path, in place of the lock that stands there if that may be stolen. What stands at the
    /// path in the youngest revision, and the revision of its last change, are for the caller to say.
    ///
    /// # Errors
    ///
    /// `NoUser`; then `NotFound` or `NotAFile` where no file stands, and `LockOutOfDate` where the client
    /// has seen it before its last change; then `AlreadyLocked` where a lock stands that may not be
    /// stolen, and `NotSupported` where none stands and `LOCK_LIMIT` others do; `NoMemory`.
    pub fn lock(
        &mut self,
        alloc: Global,
        kind: NodeKind,
        created: Option<u64>,
        ask: LockAsk,
    ) -> Result<(), ChangeFault>
        ensures { Becomes result (lock_refusal_at kind created self.old ask) self.old
            (insert self.old ask.path (lock_of ask)) self.new }
    {
        if let Some(refusal) = self.lock_refusal(kind, created, &ask) {
            std::mem::drop(ask);
            return Err(ChangeFault::Refused(refusal));
        }
        let (path, lock) = lock_of(alloc, ask);
        self.put(path, lock)?;
        Ok(())
    }

    /// Takes the lock at the path away. Who breaks it need not hold it. It takes no memory.
    ///
    /// # Errors
    ///
    /// `NoSuchLock`; then, unless it is broken, `NoUser`, `NotTheLockOwner` or `BadLockToken`.
    pub fn unlock(&mut self, ask: &UnlockAsk) -> Result<(), Refusal>
        ensures accepted { OnOk result (taking_refusal ask.now (get self.old ask.now.path) ≡ None) }
        ensures ok { OnOk result (self.new ≡ remove self.old ask.now.path) }
        ensures refused { IfErr result (λ r. taking_refusal ask.now (get self.old ask.now.path)
            ≡ Some r) }
        ensures err { OnErr result (self.new ≡ self.old) }
    {
        if let Some(refusal) = taking_refusal(ask, self.get(&ask.path)) {
            return Err(refusal);
        }
        self.take(&ask.path);
        Ok(())
    }

    /// Says whether a release by the user, with these paths and tokens handed in, takes some lock. It costs one look
    /// for each pair, whatever other locks exist.
    pub fn releases(&self, user: Option<&ByteString>, tokens: &[(Path, ByteString)]) -> bool
        ensures { result ≡ releases (option_copied user.entry) tokens.now self.now }
    {
        tokens.iter().any(|pair| self.holds(user, pair))
    }

    /// Says whether the lock at the path is the user's and has the token.
    fn holds(&self, user: Option<&ByteString>, pair: &(Path, ByteString)) -> bool
        ensures { result ≡ is_held (option_copied user.entry) pair.now.1 (get self.now pair.now.0) }
    {
        is_held(user, &pair.1, self.get(&pair.0))
    }

    /// Releases the locks that are the user's and were handed in, each by its path and its token, and
    /// answers them with their paths. A lock that was stolen since then stays. It takes what memory it
    /// needs before it releases any.
    pub fn release(
        &mut self,
        alloc: Global,
        user: Option<&ByteString>,
        tokens: &[(Path, ByteString)],
    ) -> Result<Vec<(Path, Lock)>, AllocError>
        ensures which { IfOk result (λ locks.
            from_entries locks.items ≡ released (option_copied user.entry) tokens.now self.old) }
        ensures ok { OnOk result
            (self.new ≡ after_release (option_copied user.entry) tokens.now self.old) }
        ensures count { IfOk result (λ locks. length locks.items + len self.new ≡ len self.old) }
        ensures err { OnErr result (self.new ≡ self.old) }
    {
        let mut taken = Vec::with_capacity(alloc, tokens.len())?;
        for pair in tokens {
            if is_held(user, &pair.1, self.get(&pair.0)) {
                if let Some(entry) = self.take(&pair.0) {
                    taken.push(entry)?;
                }
            }
        }
        Ok(taken)
    }

    /// Says why a lock is refused where there is an entry of this kind, last changed at this revision.
    fn lock_refusal(&self, kind: NodeKind, created: Option<u64>, ask: &LockAsk) -> Option<Refusal>
        ensures { result ≡ lock_refusal_at kind created self.now ask.now }
    {
        let place = place_refusal(ask.steals, self.get(&ask.path), self.count());
        let entry = entry_refusal(ask.current, kind, created);
        user_refusal(ask.user.as_ref()).or(entry.or(place))
    }

    /// Counts the locks.
    fn count(&self) -> usize
        ensures { result ≡ len self.now }
    {
        self.locks.len()
    }

    /// Puts the lock at the path, over what stood there, and whatever refuses a lock.
    pub fn put(&mut self, path: Path, lock: Lock) -> Result<(), AllocError>
        ensures ok { OnOk result (self.new ≡ insert self.old path lock) }
        ensures err { OnErr result (self.new ≡ self.old) }
    {
        self.locks.insert(path, lock)?;
        Ok(())
    }

    /// Takes out the lock at the path, and answers it with its path.
    fn take(&mut self, path: &Path) -> Option<(Path, Lock)>
        ensures taken { result ≡ option_map (λ l. (path.now, l)) (get self.old path.now) }
        ensures left { self.new ≡ remove self.old path.now }
    {
        self.locks.remove_entry(path)
    }
}

impl Clone for Locks {
    ghost is_clone = { λ locks copy. copy ≡ locks };

    fn clone(&self) -> Result<Self, AllocError> {
        Ok(Locks {
            locks: self.locks.clone()?,
        })
    }
}

/// Sorts the locks by the bytes of their paths.
fn listed<'a>(mut found: Vec<(&'a Path, &'a Lock)>) -> Result<Vec<(&'a Path, &'a Lock)>, AllocError>
    ensures { IfOk result (λ locks. map deref_pair locks.items
        ≡ listing (map deref_pair found.entry.items)) }
{
    sort_by_text(&mut found)?;
    Ok(found)
}

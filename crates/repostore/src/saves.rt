//! Changes saved to files.
ghost use Rattle.std.specs.Prelude.{◌≡◌, ◌⊎◌, ◌<◌, ◌+◌, ◌↔◌, true, false, Some, OnOk, IsErr, IsErrOf};
ghost use Rattle.store_files.specs.{Faults.told_of, Moments.HasCause};
ghost use Rattle.repostore.specs.{Current.count_in, Files.{Files, with_revision, with_locks, with_properties, HasFiles}};
ghost use Rattle.repostore.specs.Saving.{IsSaved, SaveMakes, SaveEnds, Going, Replaces, IsWritten, IsUnchanged, HasNext};

use fsfs_text::Layout;
use store_files::{FileName, ReplaceFault, Store, StoreFault};

/// The files of a repository that are saved: how many revisions they have, where these are, and whether a
/// replacement was left in doubt, since when nothing is written any more.
pub struct Saves<S: Store> {
    pub(crate) store: S,
    pub(crate) count: u32,
    pub(crate) layout: Layout,
    pub(crate) is_halted: bool,
}

impl<S: Store> Drop for Saves<S> {
    fn drop(self) {
        let Saves {
            store: _,
            count: _,
            layout: _,
            is_halted: _,
        } = self;
    }
}

impl<S: Store> Saves<S> {
    /// Saves a revision: its file and that of its properties, and then `current`, with which it is
    /// there.
    pub fn save_commit(
        &mut self,
        revision: &[u8],
        properties: &[u8],
        current: &[u8],
    ) -> Result<(), StoreFault>
        ensures saved { (files : Files) → IsSaved S.Store self.old files
            → count_in current.now ≡ Some (self.old.count + 1)
            → SaveMakes S.Store self.old self.new result files
            (with_revision files (revision.now, properties.now) current.now) }
        ensures ends { SaveEnds S.Store self.old self.new result }
    {
        if self.is_halted {
            return Err(StoreFault::Halted);
        }
        self.write_revision(revision, properties)?;
        self.publish(FileName::Current, current)?;
        self.count = self.count.saturating_add(1);
        Ok(())
    }

    /// Writes the files of the next revision, which are not reached yet.
    fn write_revision(&mut self, revision: &[u8], properties: &[u8]) -> Result<(), StoreFault>
        ensures going { (files : Files) → IsSaved S.Store self.old files
            → Going S.Store self.old.store self.new.store (HasFiles files) (HasFiles files) }
        ensures ok { (files : Files) → IsSaved S.Store self.old files
            → OnOk result (Going S.Store self.old.store self.new.store (HasFiles files)
            (HasNext files self.old.count revision.now properties.now)) }
        ensures honest { S.is_honest self.old.store ↔ S.is_honest self.new.store }
        ensures count { self.new.count ≡ self.old.count }
        ensures layout { self.new.layout ≡ self.old.layout }
        ensures goes_on { self.new.is_halted ≡ self.old.is_halted }
        ensures doubt { S.in_doubt self.new.store ≡ S.in_doubt self.old.store }
        ensures cause { HasCause (S.failed self.old.store) (S.failed self.new.store) result }
    {
        let number = self.count;
        let shard = self.layout.shard(number);
        self.store
            .write_new(FileName::Revision(shard, number), revision)?;
        self.store
            .write_new(FileName::Properties(shard, number), properties)
    }

    /// Replaces a file. Where that leaves it in doubt, no save is made any more.
    fn publish(&mut self, name: FileName, bytes: &[u8]) -> Result<(), StoreFault>
        ensures replaces { S.is_honest self.old.store
            → Replaces S.Store name bytes.now self.old.store self.new.store }
        ensures ok { S.is_honest self.old.store
            → OnOk result (IsWritten S.Store name bytes.now self.new.store) }
        ensures refused { S.is_honest self.old.store → IsErr result → self.new.is_halted ≡ false
            → IsUnchanged S.Store self.old.store self.new.store }
        ensures count { self.new.count ≡ self.old.count }
        ensures layout { self.new.layout ≡ self.old.layout }
        ensures honest { S.is_honest self.old.store ↔ S.is_honest self.new.store }
        ensures halts { (self.new.is_halted ≡ true)
            ↔ ((self.old.is_halted ≡ true)
            ⊎ (S.in_doubt self.old.store < S.in_doubt self.new.store)) }
        ensures done { OnOk result (self.new.is_halted ≡ self.old.is_halted) }
        ensures by_device { self.new.is_halted ≡ true
            → (self.old.is_halted ≡ true) ⊎ IsErrOf result StoreFault.Device }
        ensures cause { HasCause (S.failed self.old.store) (S.failed self.new.store) result }
    {
        match self.store.replace(name, bytes) {
            Ok(()) => Ok(()),
            Err(fault) => Err(self.after_failure(fault)),
        }
    }

    /// Notes that a replacement has failed, and tells why.
    fn after_failure(&mut self, fault: ReplaceFault) -> StoreFault
        ensures told { result ≡ told_of fault }
        ensures store { self.new.store ≡ self.old.store }
        ensures count { self.new.count ≡ self.old.count }
        ensures layout { self.new.layout ≡ self.old.layout }
        ensures honest { S.is_honest self.old.store ↔ S.is_honest self.new.store }
        ensures halts { (self.new.is_halted ≡ true)
            ↔ ((self.old.is_halted ≡ true) ⊎ (fault ≡ ReplaceFault.InDoubt)) }
    {
        if let ReplaceFault::InDoubt = fault {
            self.is_halted = true;
        }
        StoreFault::from(fault)
    }

    /// Saves the locks.
    pub fn save_locks(&mut self, locks: &[u8]) -> Result<(), StoreFault>
        ensures saved { (files : Files) → IsSaved S.Store self.old files
            → SaveMakes S.Store self.old self.new result files (with_locks files locks.now) }
        ensures ends { SaveEnds S.Store self.old self.new result }
    {
        if self.is_halted {
            return Err(StoreFault::Halted);
        }
        self.publish(FileName::Locks, locks)
    }

    /// Saves the properties of a revision that is there.
    pub fn save_rev_prop(&mut self, revision: u32, properties: &[u8]) -> Result<(), StoreFault>
        ensures saved { (files : Files) → IsSaved S.Store self.old files
            → revision < self.old.count
            → SaveMakes S.Store self.old self.new result files
            (with_properties files revision properties.now) }
        ensures ends { SaveEnds S.Store self.old self.new result }
    {
        if self.is_halted {
            return Err(StoreFault::Halted);
        }
        let shard = self.layout.shard(revision);
        self.publish(FileName::Properties(shard, revision), properties)
    }

    /// Says whether a replacement was left in doubt, so that nothing is written any more.
    pub fn is_halted(&self) -> bool
        ensures { result ≡ self.now.is_halted }
    {
        self.is_halted
    }

    /// Gives the store as it is now.
    pub fn store(&self) -> &S
        ensures { result.now ≡ self.now.store }
    {
        &self.store
    }

    /// Lets go of the count: the store.
    pub fn into_store(self) -> S
        ensures { result ≡ self.store }
    {
        let Saves {
            store,
            count: _,
            layout: _,
            is_halted: _,
        } = self;
        store
    }
}

//! Files in a folder: each is on the disk before its call answers.
ghost use Rattle.std.specs.Prelude.{◌≡◌, [], ◌∷◌, List, Result, Ok, Err, IfOk};
ghost use Rattle.store_files.specs.{Folders.{Folder, IsSame}, Names.{kind_of, number_of, shard_of}, Note.{Known, event_of, folder_of}};
ghost use Rattle.store_files.specs.Replay.{Leaves, failed_in, held};
ghost use Rattle.store_folder.specs.Answers.{fault_of, trouble_number, done_number, done_result, replaced_number};

use crate::fault::{FolderFault, Trouble};
use crate::lock::LockFolder;
use crate::own::OwnFolder;
use crate::writing::make_root;
use std::alloc::Global;
use std::rt::Files;
use store_files::{FileName, Record, ReplaceFault, Store, StoreFault};

const READ: u64 = 0;

const WRITTEN: u64 = 1;

const REPLACED: u64 = 2;

/// The files of a repository in a folder, which no other store has as long as this one has it.
pub struct FolderStore<R: Files + AllocGlobal + LockFolder + Drop> {
    own: OwnFolder<R>,
    failures: u64,
    last_read: Option<FileName>,
    log: Record,
    ghost counted: { failures ≡ failed_in log.events },
}

impl<R: Files + AllocGlobal + LockFolder + Drop> Drop for FolderStore<R> {
    fn drop(self) {
        let FolderStore {
            own: _,
            failures: _,
            last_read: _,
            log: _,
        } = self;
    }
}

impl<R: Files + AllocGlobal + LockFolder + Drop> FolderStore<R> {
    /// Opens the files in a folder that exists, whatever files were there. A stop that comes at once leaves them as they
    /// are.
    pub fn open(rt: R, folder: String) -> Result<Self, FolderFault>
        ghost was: { List Known }
        ensures start { IfOk result (λ store. (store.log.start ≡ was) × (store.log.events ≡ [])) }
        ensures rests { IfOk result (λ store. (f : Folder)
            → Leaves (folder_of store.log.start) store.log.events f
            → IsSame (held (folder_of store.log.start) store.log.events) f) }
    {
        Ok(FolderStore {
            own: OwnFolder::open(rt, folder)?,
            failures: 0,
            last_read: None,
            log: Record::new(),
        })
    }

    /// Opens the files in a folder, which is made where it is missing. A stop that comes at once leaves them as they
    /// are.
    pub fn make(rt: R, folder: String) -> Result<Self, FolderFault>
        ghost was: { List Known }
        ensures start { IfOk result (λ store. (store.log.start ≡ was) × (store.log.events ≡ [])) }
        ensures rests { IfOk result (λ store. (f : Folder)
            → Leaves (folder_of store.log.start) store.log.events f
            → IsSame (held (folder_of store.log.start) store.log.events) f) }
    {
        make_root(&rt, &folder)?;
        FolderStore::open(rt, folder)
    }

    /// Gives the name of the file that was read last, or that could not be read.
    pub fn last_read(&self) -> Option<FileName> {
        self.last_read
    }

    /// Finds out whether the folder can be written: makes a file in it, and in each folder of revisions or of their
    /// properties, and removes it.
    pub fn is_writable(&self) -> Result<(), FolderFault> {
        self.own.is_writable()
    }

    /// Notes what a call that writes anew has answered, and tells it.
    fn settle(
        &mut self,
        name: FileName,
        bytes: &[u8],
        answer: Result<(), Trouble>,
    ) -> Result<(), StoreFault>
        ensures result { result ≡ done_result answer }
        ensures start { self.new.log.start ≡ self.old.log.start }
        ensures log { self.new.log.events ≡ event_of (1 ∷ kind_of name ∷ shard_of name ∷ number_of name
            ∷ done_number answer ∷ []) bytes.now ∷ self.old.log.events }
    {
        let number = match answer {
            Ok(()) => 0,
            Err(trouble) => trouble_number(trouble),
        };
        self.count(WRITTEN, name, number, bytes);
        match answer {
            Ok(()) => Ok(()),
            Err(trouble) => Err(store_fault(trouble)),
        }
    }

    /// Notes an answer, and counts it where the device failed.
    fn count(&mut self, call: u64, name: FileName, number: u64, bytes: &[u8])
        ensures start { self.new.log.start ≡ self.old.log.start }
        ensures log { self.new.log.events ≡ event_of (call ∷ kind_of name ∷ shard_of name ∷ number_of name
            ∷ number ∷ []) bytes.now ∷ self.old.log.events }
    {
        let kind = u64::from(name.kind());
        let shard = u64::from(name.shard());
        let revision = u64::from(name.number());
        self.log.note(&[call, kind, shard, revision, number], bytes);
        if number == 1 || number == 4 {
            self.failures = self.failures.saturating_add(1);
        }
    }
}

/// Gives the number by which a trouble is noted: 1 where the device failed, 2 where memory was refused.
fn trouble_number(trouble: Trouble) -> u64
    ensures { result ≡ trouble_number trouble }
{
    match trouble {
        Trouble::Device => 1,
        Trouble::NoMemory => 2,
    }
}

/// Gives the number by which the answer of a replacement is noted: 0 where it was made, 1 where it is in doubt, 2 where
/// memory was refused, and 4 where the device failed before anything was changed.
fn replaced_number(answer: &Result<(), ReplaceFault>) -> u64
    ensures { result ≡ replaced_number answer.now }
{
    match answer {
        Ok(()) => 0,
        Err(ReplaceFault::InDoubt) => 1,
        Err(ReplaceFault::NoMemory) => 2,
        Err(ReplaceFault::Unchanged) => 4,
    }
}

/// Gives the fault as which the store reports a trouble: it has the same name.
fn store_fault(trouble: Trouble) -> StoreFault
    ensures { result ≡ fault_of trouble }
{
    match trouble {
        Trouble::Device => StoreFault::Device,
        Trouble::NoMemory => StoreFault::NoMemory,
    }
}

impl<R: Files + AllocGlobal + LockFolder + Drop> Store for FolderStore<R> {
    ghost use Rattle.std.specs.Prelude.{length};
    ghost use Rattle.store_files.specs.{Note.folder_of, Replay.{held, Leaves, LeftSince, IsHonest, failed_in, doubts_in, leaves_now, left_now, failed_is}};

    ghost is_honest = { λ s. IsHonest (folder_of s.log.start) s.log.events };

    ghost holds = { λ s. held (folder_of s.log.start) s.log.events };

    ghost may_leave = { λ s. Leaves (folder_of s.log.start) s.log.events };

    ghost moment = { λ s. length s.log.events };

    ghost left_since = { λ s. LeftSince (folder_of s.log.start) s.log.events };

    ghost failed = { λ s. failed_in s.log.events };

    ghost in_doubt = { λ s. doubts_in s.log.events };

    ghost counts_now = { λ s t f _ le now. leaves_now (folder_of s.log.start) s.log.events t f le now };

    ghost only_now = { λ s f _ left. left_now (folder_of s.log.start) s.log.events f left };

    ghost is_count = { λ s. failed_is s.log.events };

    fn read(&mut self, alloc: Global, name: FileName) -> Result<Option<Vec<u8>>, StoreFault> {
        self.last_read = Some(name);
        let answer = self.own.read(alloc, name);
        match answer {
            Ok(Some(bytes)) => {
                self.count(READ, name, 0, &bytes);
                Ok(Some(bytes))
            }
            Ok(None) => {
                self.count(READ, name, 3, &[]);
                Ok(None)
            }
            Err(trouble) => {
                self.count(READ, name, trouble_number(trouble), &[]);
                Err(store_fault(trouble))
            }
        }
    }

    fn write_new(&mut self, name: FileName, bytes: &[u8]) -> Result<(), StoreFault> {
        let answer = self.own.write_new(name, bytes);
        self.settle(name, bytes, answer)
    }

    fn replace(&mut self, name: FileName, bytes: &[u8]) -> Result<(), ReplaceFault> {
        let answer = self.own.replace(name, bytes);
        self.count(REPLACED, name, replaced_number(&answer), bytes);
        answer
    }

    fn failures(&self) -> u64 {
        self.failures
    }
}

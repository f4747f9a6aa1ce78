//! Files in memory.
ghost use Rattle.std.specs.Prelude.{◌≡◌, ◌<◌, [], ◌∷◌, None, OnOk, OnErr, option_copied};
ghost use Rattle.store_files.specs.{Folders.{Folder, IsSame, nothing, with_file}, Memory.{files_of, put_events}, Replay.{held, Leaves}};

use crate::fault::{ReplaceFault, StoreFault};
use crate::name::FileName;
use crate::record::Record;
use crate::store::Store;
use std::alloc::{AllocError, Global};
use std::collections::BTreeMap;

const WRITTEN: u64 = 1;

const REPLACED: u64 = 2;

/// Files in memory, each as it was last written, and a record of the calls that wrote them, which takes no memory.
pub struct MemoryStore {
    alloc: Global,
    /// The bytes of each file by the numbers of its name.
    files: BTreeMap<(u8, u32, u32), Vec<u8>>,
    log: Record,
    ghost same: { IsSame (held nothing log.events) (files_of files) },
    ghost rests: { (f : Folder) → Leaves nothing log.events f → IsSame (held nothing log.events) f },
}

impl Drop for MemoryStore {
    fn drop(self) {
        let MemoryStore {
            alloc: _,
            files: _,
            log: _,
        } = self;
    }
}

impl MemoryStore {
    /// Makes a store of no files.
    pub fn new(alloc: Global) -> Self
        ensures { IsSame nothing (files_of result.files) }
    {
        MemoryStore {
            alloc,
            files: BTreeMap::new(alloc),
            log: Record::new(),
        }
    }

    /// Shows the bytes of a file, if it is there.
    pub fn bytes(&self, name: FileName) -> Option<&[u8]>
        ensures { option_copied result ≡ files_of self.now.files name }
    {
        let found = self.files.get(&name.numbers())?;
        Some(found.as_slice())
    }

    /// Shows that a stop which comes now leaves the files as they are: each call that wrote them is done.
    pub fn is_at_rest(&self)
        ensures { (f : Folder) → Leaves nothing self.now.log.events f
            → IsSame (held nothing self.now.log.events) f }
    {}

    /// Puts these bytes in a file by a call of this number, and notes it; nothing is noted where memory was refused.
    fn put(&mut self, call: u64, name: FileName, bytes: &[u8]) -> Result<(), AllocError>
        requires { 0 < call }
        ensures { self.new.log.events ≡ put_events result call name bytes.now self.old.log.events }
    {
        put_file(self.alloc, &mut self.files, name, bytes)?;
        let kind = u64::from(name.kind());
        let shard = u64::from(name.shard());
        let number = u64::from(name.number());
        self.log.note(&[call, kind, shard, number, 0], bytes);
        Ok(())
    }
}

/// Puts these bytes in a file.
fn put_file(
    alloc: Global,
    files: &mut BTreeMap<(u8, u32, u32), Vec<u8>>,
    name: FileName,
    bytes: &[u8],
) -> Result<(), AllocError>
    ensures ok { OnOk result (IsSame (with_file (files_of files.old) name bytes.now)
        (files_of files.new)) }
    ensures err { OnErr result (IsSame (files_of files.old) (files_of files.new)) }
{
    let bytes = bytes.to_vec(alloc)?;
    files.insert(name.numbers(), bytes)?;
    Ok(())
}

impl Store for MemoryStore {
    ghost use Rattle.std.specs.Prelude.{length};
    ghost use Rattle.store_files.specs.{Folders.nothing, Moments.{last_count, zero_le}, Replay.{held, Leaves, LeftSince, leaves_now, left_now}};

    ghost is_honest = { λ _. Unit {0} };

    ghost holds = { λ m. held nothing m.log.events };

    ghost may_leave = { λ m. Leaves nothing m.log.events };

    ghost moment = { λ m. length m.log.events };

    ghost left_since = { λ m. LeftSince nothing m.log.events };

    ghost failed = { λ _. 0 };

    ghost in_doubt = { λ _. 0 };

    ghost counts_now = { λ m t f _ le now. leaves_now nothing m.log.events t f le now };

    ghost only_now = { λ m f _ left. left_now nothing m.log.events f left };

    ghost is_count = { λ _. zero_le last_count };

    fn read(&mut self, alloc: Global, name: FileName) -> Result<Option<Vec<u8>>, StoreFault> {
        match self.files.get(&name.numbers()) {
            None => Ok(None),
            Some(bytes) => Ok(Some(bytes.as_slice().to_vec(alloc)?)),
        }
    }

    fn write_new(&mut self, name: FileName, bytes: &[u8]) -> Result<(), StoreFault> {
        Ok(self.put(WRITTEN, name, bytes)?)
    }

    fn replace(&mut self, name: FileName, bytes: &[u8]) -> Result<(), ReplaceFault> {
        Ok(self.put(REPLACED, name, bytes)?)
    }

    fn failures(&self) -> u64 {
        0
    }
}

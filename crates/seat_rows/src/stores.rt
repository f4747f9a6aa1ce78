//! The files of a repository in memory, with all that tests make of them, so that each call is compiled for one type of
//! store alone.

use crate::places::AtRest;
use crate::plays::Marks;
use std::alloc::Global;
use std::sync::Arc;
use std::sync::atomic::{AtomicBool, Ordering};
use std::thread;
use store_files::{FileName, FuseStore, Left, MemoryStore, ReplaceFault, Store, StoreFault};

/// Files in memory, whose replacements wait for a look where that is asked for, and whose writes fail from one on.
pub(crate) type TestStore = FuseStore<WaitingStore<MemoryStore>>;

/// How often a mark is looked at, at most: for some ten seconds.
const MOST_TURNS: u64 = 30_000_000;

/// Waits until a mark is set, for so many turns at most; whether it is.
pub(crate) fn wait_for(mark: &AtomicBool) -> bool {
    for _ in 0..MOST_TURNS {
        if mark.load(Ordering::SeqCst) {
            return true;
        }
        thread::yield_now();
    }
    false
}

/// A store whose replacements go on once the other seat has looked, where marks say that it has, and which notes there
/// the calls that change files.
pub(crate) struct WaitingStore<S: Store> {
    inner: S,
    marks: Option<Arc<Marks>>,
}

impl<S: Store> Drop for WaitingStore<S> {
    fn drop(self) {
        let WaitingStore { inner: _, marks: _ } = self;
    }
}

impl<S: Store> Store for WaitingStore<S> {
    ghost is_honest = { λ s. S.is_honest s.inner };

    ghost holds = { λ s. S.holds s.inner };

    ghost may_leave = { λ s. S.may_leave s.inner };

    ghost moment = { λ s. S.moment s.inner };

    ghost left_since = { λ s. S.left_since s.inner };

    ghost failed = { λ s. S.failed s.inner };

    ghost in_doubt = { λ s. S.in_doubt s.inner };

    ghost counts_now = { λ s t f honest le now. S.counts_now s.inner t f honest le now };

    ghost only_now = { λ s f honest left. S.only_now s.inner f honest left };

    ghost is_count = { λ s. S.is_count s.inner };

    fn read(&mut self, alloc: Global, name: FileName) -> Result<Option<Vec<u8>>, StoreFault> {
        self.inner.read(alloc, name)
    }

    fn write_new(&mut self, name: FileName, bytes: &[u8]) -> Result<(), StoreFault> {
        if let Some(marks) = &self.marks {
            marks.calls.note(name, bytes, false);
        }
        self.inner.write_new(name, bytes)
    }

    fn replace(&mut self, name: FileName, bytes: &[u8]) -> Result<(), ReplaceFault> {
        if let Some(marks) = &self.marks {
            marks.begun.store(true, Ordering::SeqCst);
            wait_for(&marks.looked);
            marks.calls.note(name, bytes, true);
        }
        self.inner.replace(name, bytes)
    }

    fn failures(&self) -> u64 {
        self.inner.failures()
    }
}

impl<S: AtRest> AtRest for WaitingStore<S> {
    fn rests(&self) {
        self.inner.rests();
    }
}

/// Makes a store of files of which each write is made at once.
pub(crate) fn whole(files: MemoryStore) -> TestStore {
    failing(files, u64::MAX, Left::Old)
}

/// Makes a store of files whose writes fail once so many have passed, and leave this.
pub(crate) fn failing(files: MemoryStore, passes: u64, left: Left) -> TestStore {
    let inner = WaitingStore {
        inner: files,
        marks: None,
    };
    FuseStore::new(inner, passes, left)
}

/// Makes a store of files whose replacements wait for a look, by these marks.
pub(crate) fn waiting(files: MemoryStore, marks: Arc<Marks>) -> TestStore {
    let inner = WaitingStore {
        inner: files,
        marks: Some(marks),
    };
    FuseStore::new(inner, u64::MAX, Left::Old)
}

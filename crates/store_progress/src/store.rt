//! A store, and how far its start is.
ghost use Rattle.std.specs.Prelude.{◌≡◌};

use crate::start::Start;
use std::alloc::Global;
use std::io::Eprint;
use std::time::Clock;
use store_files::{FileName, ReplaceFault, Store, StoreFault};

/// A store that says on standard error how far a start is, unless it is quiet.
pub struct ProgressStore<S: Store, R: Clock + Eprint + Drop> {
    inner: S,
    rt: R,
    start: Start,
    is_quiet: bool,
}

impl<S: Store, R: Clock + Eprint + Drop> Drop for ProgressStore<S, R> {
    fn drop(self) {
        let ProgressStore {
            inner: _,
            rt: _,
            start: _,
            is_quiet: _,
        } = self;
    }
}

impl<S: Store, R: Clock + Eprint + Drop> ProgressStore<S, R> {
    /// Makes a store that has read nothing.
    pub fn new(inner: S, rt: R, is_quiet: bool) -> Self
        ensures { result.inner ≡ inner }
    {
        ProgressStore {
            inner,
            rt,
            start: Start::new(),
            is_quiet,
        }
    }

    /// Shows the store that it is made of.
    pub fn inner(&self) -> &S
        ensures { result.now ≡ self.now.inner }
    {
        &self.inner
    }

    /// Says how far the start is, if it is time for that, where this was read of a file.
    fn note(&mut self, name: FileName, bytes: &[u8])
        ensures { self.new.inner ≡ self.old.inner }
    {
        if self.is_quiet {
            return;
        }
        match name {
            FileName::Current => self.start.begin(&self.rt, bytes),
            FileName::Revision(_, revision) => self.start.read(&self.rt, u64::from(revision)),
            _ => {}
        }
    }
}

impl<S: Store, R: Clock + Eprint + Drop> Store for ProgressStore<S, R> {
    ghost is_honest = { λ p. S.is_honest p.inner };

    ghost holds = { λ p. S.holds p.inner };

    ghost may_leave = { λ p. S.may_leave p.inner };

    ghost moment = { λ p. S.moment p.inner };

    ghost left_since = { λ p. S.left_since p.inner };

    ghost failed = { λ p. S.failed p.inner };

    ghost in_doubt = { λ p. S.in_doubt p.inner };

    ghost counts_now = { λ p t f honest le now. S.counts_now p.inner t f honest le now };

    ghost only_now = { λ p f honest left. S.only_now p.inner f honest left };

    ghost is_count = { λ p. S.is_count p.inner };

    fn read(&mut self, alloc: Global, name: FileName) -> Result<Option<Vec<u8>>, StoreFault> {
        let found = self.inner.read(alloc, name);
        if let Ok(Some(bytes)) = &found {
            self.note(name, bytes.as_slice());
        }
        found
    }

    fn write_new(&mut self, name: FileName, bytes: &[u8]) -> Result<(), StoreFault> {
        self.inner.write_new(name, bytes)
    }

    fn replace(&mut self, name: FileName, bytes: &[u8]) -> Result<(), ReplaceFault> {
        self.inner.replace(name, bytes)
    }

    fn failures(&self) -> u64 {
        self.inner.failures()
    }
}

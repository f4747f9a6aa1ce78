//! A store that fails once.
ghost use Rattle.std.specs.Prelude.{◌≡◌, ◌⊎◌, ◌≤◌, ◌↔◌, Some};
ghost use Rattle.store_files.specs.{Folders.{Folder, SameBut, Scribbled, Swapped}, Moments.Elapses, Fuses.{Burns, is_blown}};

use crate::fault::{ReplaceFault, StoreFault};
use crate::name::FileName;
use crate::store::Store;
use std::alloc::Global;

/// What a call that fails leaves in its file.
#[derive(Clone, Copy, Debug)]
pub enum Left {
    /// The bytes from before it.
    Old,
    /// The bytes that it was given.
    New,
    /// Half of them where a file is written, and the bytes from before where one is replaced.
    Torn,
}

/// What becomes of the calls to come.
#[derive(Clone, Copy)]
enum Fuse {
    /// So many are passed on, and the next one fails.
    Passes(u64),
    /// A `write_new` has failed, and all are passed on.
    BlownByWrite,
    /// A replacement has failed, and all are passed on.
    BlownByReplacement,
}

impl Fuse {
    /// Says whether a call fails, and sets what becomes of those after it.
    fn burn(&mut self, replaces: bool) -> bool
        ensures { Burns replaces self.old result self.new }
    {
        match *self {
            Fuse::Passes(0) => {
                *self = if replaces {
                    Fuse::BlownByReplacement
                } else {
                    Fuse::BlownByWrite
                };
                true
            }
            Fuse::Passes(n) => {
                *self = Fuse::Passes(n - 1);
                false
            }
            _ => false,
        }
    }

    /// Says whether the one call that fails is over, so that all to come are passed on.
    fn is_blown(self) -> bool
        ensures { result ≡ is_blown self }
    {
        match self {
            Fuse::Passes(_) => false,
            _ => true,
        }
    }
}

/// A store that passes some calls of `write_new` and `replace` on, fails at the next one, and then
/// passes all of them on again.
pub struct FuseStore<S: Store> {
    inner: S,
    fuse: Fuse,
    left: Left,
}

impl<S: Store> Drop for FuseStore<S> {
    fn drop(self) {
        let FuseStore {
            inner: _,
            fuse: _,
            left: _,
        } = self;
    }
}

impl<S: Store> FuseStore<S> {
    /// Makes a store that passes so many calls on before the one that fails.
    pub fn new(inner: S, passes: u64, left: Left) -> Self
        ensures { result.inner ≡ inner }
    {
        FuseStore {
            inner,
            fuse: Fuse::Passes(passes),
            left,
        }
    }

    /// Shows the store behind it.
    pub fn inner(&self) -> &S
        ensures { result.now ≡ self.now.inner }
    {
        &self.inner
    }

    /// Gives the store behind it.
    pub fn into_inner(self) -> S
        ensures { result ≡ self.inner }
    {
        let FuseStore {
            inner,
            fuse: _,
            left: _,
        } = self;
        inner
    }
}

/// Writes what a `write_new` that fails leaves, whatever comes of that.
fn leave_written<S: Store>(inner: &mut S, left: Left, name: FileName, bytes: &[u8])
    ensures honest { S.is_honest inner.old ↔ S.is_honest inner.new }
    ensures others { S.is_honest inner.old → SameBut name (S.holds inner.old) (S.holds inner.new) }
    ensures stop { S.is_honest inner.old → (f : Folder) → S.may_leave inner.new f
        → Scribbled (S.may_leave inner.old) name f }
    ensures time { S.is_honest inner.old → Elapses (S.moment inner.old) (S.moment inner.new)
        (S.left_since inner.old) (S.left_since inner.new)
        (Scribbled (S.may_leave inner.old) name) }
    ensures doubt { S.in_doubt inner.new ≡ S.in_doubt inner.old }
    ensures failed { S.failed inner.old ≤ S.failed inner.new }
{
    match left {
        Left::Old => {}
        Left::New => {
            let _outcome = inner.write_new(name, bytes);
        }
        Left::Torn => {
            let _outcome = inner.write_new(name, &bytes[..bytes.len() / 2]);
        }
    }
}

/// Replaces a file as a replacement that fails leaves it, whatever comes of that.
fn leave_replaced<S: Store>(inner: &mut S, left: Left, name: FileName, bytes: &[u8])
    ensures honest { S.is_honest inner.old ↔ S.is_honest inner.new }
    ensures others { S.is_honest inner.old → SameBut name (S.holds inner.old) (S.holds inner.new) }
    ensures either { S.is_honest inner.old → (S.holds inner.new name ≡ S.holds inner.old name)
        ⊎ (S.holds inner.new name ≡ Some bytes.now) }
    ensures stop { S.is_honest inner.old → (f : Folder) → S.may_leave inner.new f
        → Swapped (S.may_leave inner.old) name bytes.now f }
    ensures time { S.is_honest inner.old → Elapses (S.moment inner.old) (S.moment inner.new)
        (S.left_since inner.old) (S.left_since inner.new)
        (Swapped (S.may_leave inner.old) name bytes.now) }
    ensures doubt { S.in_doubt inner.old ≤ S.in_doubt inner.new }
    ensures failed { S.failed inner.old ≤ S.failed inner.new }
{
    match left {
        Left::New => {
            let _outcome = inner.replace(name, bytes);
        }
        Left::Old | Left::Torn => {}
    }
}

impl<S: Store> Store for FuseStore<S> {
    ghost use Rattle.std.specs.Prelude.{◌+◌};
    ghost use Rattle.store_files.specs.Fuses.{blown, doubts, counted, counted_is};

    ghost is_honest = { λ f. S.is_honest f.inner };

    ghost holds = { λ f. S.holds f.inner };

    ghost may_leave = { λ f. S.may_leave f.inner };

    ghost moment = { λ f. S.moment f.inner };

    ghost left_since = { λ f. S.left_since f.inner };

    ghost failed = { λ f. counted (blown f.fuse) (S.failed f.inner) };

    ghost in_doubt = { λ f. S.in_doubt f.inner + doubts f.fuse };

    ghost counts_now = { λ s t f honest le now. S.counts_now s.inner t f honest le now };

    ghost only_now = { λ s f honest left. S.only_now s.inner f honest left };

    ghost is_count = { λ s. counted_is (blown s.fuse) (S.failed s.inner) (S.is_count s.inner) };

    fn read(&mut self, alloc: Global, name: FileName) -> Result<Option<Vec<u8>>, StoreFault> {
        self.inner.read(alloc, name)
    }

    fn write_new(&mut self, name: FileName, bytes: &[u8]) -> Result<(), StoreFault> {
        if self.fuse.burn(false) {
            leave_written(&mut self.inner, self.left, name, bytes);
            return Err(StoreFault::Device);
        }
        self.inner.write_new(name, bytes)
    }

    fn replace(&mut self, name: FileName, bytes: &[u8]) -> Result<(), ReplaceFault> {
        if self.fuse.burn(true) {
            leave_replaced(&mut self.inner, self.left, name, bytes);
            return Err(ReplaceFault::InDoubt);
        }
        self.inner.replace(name, bytes)
    }

    fn failures(&self) -> u64 {
        let count = self.inner.failures();
        if self.fuse.is_blown() {
            count.saturating_add(1)
        } else {
            count
        }
    }
}

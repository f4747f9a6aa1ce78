//! What is published.
ghost use Rattle.std.specs.Prelude.{◌≡◌, ◌<◌, ◌^◌, IfOk};
ghost use Rattle.published.specs.{Edition.edition_after, Events.state_of};

use crate::history::{Front, Naming};
use core::mem::replace_with;
use crossbeam_utils::rule::Unruled;
use left_right::Absorb;
use left_right::reader::Reader;
use left_right::writer::Writer;
use repo_api::Repository;
use std::alloc::{AllocError, Global};
use std::marker::Model;
use std::mem::ManuallyDrop;
use std::sync::{Arc, Mutex, Wait};

/// A repository, and the beginning of the history that made it. Contracts see both.
pub struct Published<R: Repository, J: Naming> {
    repository: R,
    front: Front<J>,
}

impl<R: Repository, J: Naming> Drop for Published<R, J> {
    fn drop(self) {
        let Published {
            repository: _,
            front: _,
        } = self;
    }
}

impl<R: Repository, J: Naming> Model for Published<R, J> {
    ghost use Rattle.std.specs.{Prelude.◌≡◌, Coded.codes, FinMap.code as map_code};
    ghost use Rattle.published.specs.{Events.state_of, Edition.{Edition, edition}};

    ghost Value = { Edition };

    ghost coded = { Prim.hlevel (map_code, codes) };

    ghost view = { λ p. edition p.front (R.content p.repository) };

    ghost invariant = { λ p. R.content p.repository ≡ state_of p.front };
}

impl<R: Repository, J: Naming> Published<R, J> {
    /// Puts a repository together with its front.
    pub fn new(repository: R, front: Front<J>) -> Published<R, J>
        requires { R.content repository ≡ state_of front }
        ensures { result ≡ edition_after front }
    {
        Published { repository, front }
    }

    /// Gives another hold of the repository.
    pub fn share(&self) -> Result<R, AllocError>
        ensures { IfOk result (λ r. R.content r ≡ self.now.content) }
    {
        self.repository.share()
    }

    /// Gives its front.
    pub fn front(&self) -> &Front<J>
        ensures { self.now ≡ edition_after result.now }
    {
        &self.front
    }
}

/// What readers take.
#[derive(Drop)]
pub struct Shown<P: Drop> {
    pub value: P,
}

/// Places for the two copies of a value that is yet to be made.
#[derive(Drop)]
pub struct Places<P: Drop> {
    first: Mutex<Option<P>>,
    second: Mutex<Option<P>>,
}

impl<P: Drop> Places<P> {
    /// Makes two empty places.
    pub fn new() -> Places<P> {
        Places {
            first: Mutex::new(None),
            second: Mutex::new(None),
        }
    }

    /// Puts the two copies in. It waits for nobody.
    pub fn fill(&self, first: P, second: P) {
        put(&self.first, first);
        put(&self.second, second);
    }
}

/// Puts a value in a place, over what was there. Where another has the place's lock, nothing is put in.
fn put<P: Drop>(place: &Mutex<Option<P>>, value: P) {
    if let Some(mut guard) = place.try_lock() {
        *guard = Some(value);
    }
}

/// Takes the value out of a place: `None` where the place is empty, or another has its lock.
fn taken<P: Drop>(place: &Mutex<Option<P>>) -> Option<P> {
    let mut guard = place.try_lock()?;
    guard.take()
}

/// An operation, which sets the whole value. While its places are empty it does nothing.
#[derive(Drop)]
pub struct Setting<P: Drop> {
    pub next: Arc<Places<P>>,
}

impl<P: Drop> Absorb<Setting<P>> for Shown<P> {
    type State = ();

    ghost state = { λ p. tt };

    ghost applied = { λ s o. tt };

    ghost never_fails = { Unit {0} };

    fn absorb_first(
        &mut self,
        operation: &Setting<P>,
        _other: &Shown<P>,
    ) -> Result<(), AllocError> {
        if let Some(value) = taken(&operation.next.first) {
            self.value = value;
        }
        Ok(())
    }

    fn absorb_second(
        &mut self,
        operation: Setting<P>,
        _other: &Shown<P>,
    ) -> Result<(), Setting<P>> {
        if let Some(value) = taken(&operation.next.second) {
            self.value = value;
        }
        Ok(())
    }
}

/// The writer. Its drop gives its memory up, since ending it may wait: end it by `close`.
pub struct Desk<T: Absorb<O> + Drop, O: Drop> {
    pub writer: Writer<T, O, (), Unruled>,
}

impl<T: Absorb<O> + Drop, O: Drop> Drop for Desk<T, O> {
    fn drop(self) {
        let Self { writer } = self;
        let _leaked = unsafe { ManuallyDrop::new_unchecked(writer) };
    }
}

impl<T: Absorb<O> + Drop, O: Drop> Desk<T, O> {
    /// Makes a writer over two copies.
    pub fn new(alloc: Global, first: T, second: T, readers: usize) -> Result<Desk<T, O>, AllocError>
        requires readers { (0 < readers) × (readers < 2 ^ 32) }
        requires alike { T.state first ≡ T.state second }
        ensures { IfOk result (λ d. d.writer.desk.shown.value ≡ first) }
    {
        let writer = Writer::new(alloc, first, second, readers)?;
        Ok(Desk { writer })
    }

    /// Makes a reader.
    pub fn reader(&self) -> Result<Reader<T, (), Unruled>, AllocError>
        ensures { IfOk result (λ r. r.place.table_id ≡ self.now.writer.desk.place.table_id) }
    {
        self.writer.factory().reader()
    }

    /// Gives what is published.
    pub fn published(&self) -> &T
        ensures { result.now ≡ self.now.writer.desk.shown.value }
    {
        self.writer.published()
    }

    /// Puts an operation behind what is pending.
    pub fn pend(&mut self, op: O) -> Result<(), O>
        ensures { self.new.writer.desk ≡ self.old.writer.desk }
    {
        self.writer.append(op)
    }

    /// Publishes what is pending.
    pub fn show<W: Wait>(&mut self, rt: &W) -> Result<(), AllocError> {
        replace_with(
            &mut self.writer,
            rt,
            |writer, rt| writer.publish_as::<Unruled, W>(rt),
        )
    }

    /// Ends it. Looks are then refused.
    pub fn close<W: Wait>(self, rt: &W) {
        let Self { writer } = self;
        drop(writer.take(rt));
    }
}

/// What carries a value to readers.
pub trait Carries<P>: Sized {
    ghost carried_value: { Self → P };

    /// Makes what carries this value.
    fn carry(value: P) -> Self
        ensures { carried_value result ≡ value };

    /// Gives the value that is carried.
    fn carried(&self) -> &P
        ensures { result.now ≡ carried_value self.now };
}

impl<P: Drop> Carries<P> for Shown<P> {
    ghost carried_value = { λ s. s.value };

    fn carry(value: P) -> Shown<P> {
        Shown { value }
    }

    fn carried(&self) -> &P {
        &self.value
    }
}

/// What sets a value to publish.
pub trait Sets<P: Drop>: Sized {
    /// Makes an operation that sets the value to what is put in these places.
    fn set(next: Arc<Places<P>>) -> Self;
}

impl<P: Drop> Sets<P> for Setting<P> {
    fn set(next: Arc<Places<P>>) -> Setting<P> {
        Setting { next }
    }
}

//! A value as contracts see it, which may go to another thread.
#![tactic(auto)]

ghost use Rattle.std.specs.Prelude.{◌≡◌};
ghost use base.Fml.{ftrue};

use std::marker::{Model, PhantomData};

/// A value as contracts see it. It has no bytes, and any thread may have it.
#[derive(Drop)]
pub struct Noted<T> {
    marker: PhantomData<T>,
    pub ghost value: { T },
}

impl<T> Model for Noted<T> {
    ghost also_owns = { λ _. ftrue };
}

impl<T> Noted<T> {
    /// Notes what a value is now.
    pub fn of(x: &T) -> Noted<T>
        ensures { result.value ≡ x.now }
    {
        let _ = x;
        Noted {
            marker: PhantomData,
        }
    }
}

unsafe impl<T> Send for Noted<T> {}

unsafe impl<T> Sync for Noted<T> {}

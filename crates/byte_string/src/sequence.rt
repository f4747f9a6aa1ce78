//! Sequences of values that contracts see as the lists of them.
//!
//! A `Sequence` owns any number of values in an order. A clause sees the list of them and no buffer,
//! so two that hold the same values are equal in clauses too.
ghost use Rattle.std.specs.Prelude.{◌≡◌, ◌∷◌, ◌++◌, [], OnOk, OnErr};

use std::alloc::{AllocError, Global};
use std::marker::Model;

/// Values in an order. A clause sees their list and no buffer.
#[derive(Debug)]
pub struct Sequence<T> {
    items: Vec<T>,
}

impl<T: Drop> Drop for Sequence<T> {
    fn drop(self) {
        let Sequence { items: _ } = self;
    }
}

impl<T> Model for Sequence<T> {
    ghost use Rattle.std.specs.{Prelude.List, Coded.coded_list};

    ghost Value = { List T };

    ghost coded = { coded_list T.code };

    ghost view = { λ s. s.items.items };
}

impl<T> Sequence<T> {
    /// Makes an empty sequence. It takes no memory.
    pub fn new(alloc: Global) -> Self
        ensures { result ≡ [] }
    {
        Sequence {
            items: Vec::new(alloc),
        }
    }

    /// Gives the values in their order.
    pub fn as_slice(&self) -> &[T]
        ensures { result.now ≡ self.now }
    {
        self.items.as_slice()
    }
}

impl<T: Drop> Sequence<T> {
    /// Puts a value at the end.
    ///
    /// # Errors
    ///
    /// `AllocError` when out of memory.
    pub fn push(&mut self, item: T) -> Result<(), AllocError>
        ensures ok { OnOk result (self.new ≡ self.old ++ item ∷ []) }
        ensures err { OnErr result (self.new ≡ self.old) }
    {
        self.items.push(item).map_err(AllocError::from)
    }
}

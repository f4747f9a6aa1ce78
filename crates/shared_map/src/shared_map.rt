//! The map as a whole.
ghost use Rattle.std.specs.{Prelude.{◌≡◌, ◌⊎◌, ℕ, List, Some, T, map, IfOk, OnOk, OnErr, option_copied}, FinMap.{empty, get, insert, remove, entries, keys}};
ghost use Rattle.std.specs.{FinMap.Entries.is_sorted, List.{All, Contains}, List.Sorted.IsStrictlySortedBy, Map.Iter.deref};
ghost use Rattle.shared_map.specs.{Entries.by_bytes, Rows.row_entries};

use crate::comparing::unlike;
use crate::listing::{entries_of, names_of};
use crate::parts::{Part, shared};
use crate::putting::put_entry;
use crate::remaking::remade;
use crate::removing::remove_entry;
use crate::same::Same;
use crate::searching::find;
use byte_string::ByteString;
use std::alloc::{AllocError, Global};
use std::marker::Model;
use std::sync::Arc;

/// A map from names, which go by their bytes. Its entries are in parts of up to 128, which copies
/// share: a change copies the parts that it is in, if they are shared, and no other.
pub struct SharedMap<V: Drop> {
    parts: Vec<Arc<Part<V>>>,
}

impl<V: Drop> Drop for SharedMap<V> {
    fn drop(self) {
        let SharedMap { parts: _ } = self;
    }
}

impl<V: Drop> Model for SharedMap<V> {
    ghost use Rattle.std.specs.{Coded.{coded_ℕ, coded_list}, FinMap.{FinMap, code, from_sorted}};
    ghost use Rattle.shared_map.specs.Entries.{by_bytes, all_entries, AreParts};

    ghost Value = { FinMap by_bytes V };

    ghost coded = { code (coded_list coded_ℕ) V.code };

    ghost view = { λ m. from_sorted {R = by_bytes} (all_entries m.parts.items) };

    ghost invariant = { λ m. AreParts m.parts.items };
}

impl<V: Drop> SharedMap<V> {
    /// Makes a map without entries.
    pub fn new(alloc: Global) -> Self
        ensures { result ≡ empty }
    {
        SharedMap {
            parts: Vec::new(alloc),
        }
    }

    /// Finds the value at the name.
    pub fn get(&self, name: &ByteString) -> Option<&V>
        ensures { option_copied result ≡ get self.now name.now }
    {
        find(&self.parts, name)
    }

    /// Puts the value at the name, in place of another one there. Copies stay as they are.
    pub fn put(&mut self, alloc: Global, name: ByteString, value: V) -> Result<(), AllocError>
        ensures ok { OnOk result (self.new ≡ insert self.old name value) }
        ensures err { OnErr result (self.new ≡ self.old) }
    {
        let entry = Arc::new(alloc, (name, value))?;
        put_entry(&mut self.parts, alloc, entry)
    }

    /// Takes the value at the name out, if there is one. Copies stay as they are.
    pub fn remove(&mut self, name: &ByteString) -> Result<(), AllocError>
        ensures ok { OnOk result (self.new ≡ remove self.old name.now) }
        ensures err { OnErr result (self.new ≡ self.old) }
    {
        remove_entry(&mut self.parts, name)
    }

    /// Makes a copy, which shares the parts.
    pub fn share(&self, alloc: Global) -> Result<Self, AllocError>
        ensures { IfOk result (λ copy. copy ≡ self.now) }
    {
        Ok(SharedMap {
            parts: shared(alloc, &self.parts)?,
        })
    }

    /// Gives the entries, in the order of their names.
    pub fn entries(&self, alloc: Global) -> Result<Vec<&(ByteString, V)>, AllocError>
        ensures entries { IfOk result (λ list. map deref list.items ≡ entries self.now) }
        ensures ordered { IsStrictlySortedBy by_bytes (keys self.now) }
    {
        entries_of(alloc, &self.parts)
    }

    /// Gives the names, by their bytes.
    pub fn names(&self, alloc: Global) -> Result<Vec<&ByteString>, AllocError>
        ensures names { IfOk result (λ list. map deref list.items ≡ keys self.now) }
        ensures ordered { IsStrictlySortedBy by_bytes (keys self.now) }
    {
        names_of(alloc, &self.parts)
    }
}

impl<V: Same + Drop> SharedMap<V> {
    /// Makes a map of these rows, which are in the order of their names. It shares what this map has of them.
    pub fn remade(&self, alloc: Global, rows: &[(&ByteString, V)]) -> Result<Self, AllocError>
        requires { T (is_sorted by_bytes (row_entries rows.now)) }
        ensures { IfOk result (λ made. entries made ≡ row_entries rows.now) }
    {
        let parts = remade(alloc, &self.parts, rows)?;
        Ok(SharedMap { parts })
    }

    /// Lists the entries that another map has not.
    pub fn unlike(
        &self,
        alloc: Global,
        other: &SharedMap<V>,
    ) -> Result<Vec<&(ByteString, V)>, AllocError>
        ensures from { IfOk result (λ list. All (λ e. get self.now e.0 ≡ Some e.1)
            (map deref list.items)) }
        ensures others { IfOk result (λ list. (name : List ℕ) (value : V)
            → get self.now name ≡ Some value → (get other.now name ≡ Some value)
            ⊎ Contains (map deref list.items) (name, value)) }
    {
        let entries = entries_of(alloc, &self.parts)?;
        let others = entries_of(alloc, &other.parts)?;
        unlike(alloc, entries.as_slice(), others.as_slice())
    }
}

//! The list as a whole.
ghost use Rattle.std.specs.Prelude.{◌≡◌, ◌≤◌, ◌<◌, ◌++◌, ◌∷◌, [], length, IfOk, IsErrOf, slice_get, slice_set, option_copied, Err};

use crate::parts::{Branch, Leaf, WIDTH, count, item, with_one_more};
use crate::replacing::{replaced, replaced_in_branches, replaced_in_leaves};
use std::alloc::{AllocError, Global};
use std::marker::Model;
use std::sync::Arc;

/// The most items of a list.
pub const ITEM_LIMIT: usize = 262_144;

/// Why nothing was put at the end.
#[derive(Clone, Copy, Debug, PartialEq, Eq)]
pub enum PushFault {
    /// There are as many items as there can be.
    Full,
    NoMemory,
}

impl From<AllocError> for PushFault {
    ghost use Rattle.std.specs.Prelude.{◌≡◌};
    ghost use Rattle.pvec.specs.declared.pvec.PushFault.TheVariants.{NoMemory};

    ghost from_gives = { λ _ fault. fault ≡ NoMemory };

    fn from(_error: AllocError) -> Self {
        PushFault::NoMemory
    }
}

/// A list that is never changed, in three levels of shared parts: full branches of 64 full leaves of 64
/// items, then full leaves, then the items behind them. A longer list shares all but the last parts.
pub struct PVec<T: Drop> {
    branches: Arc<Vec<Arc<Branch<T>>>>,
    leaves: Arc<Branch<T>>,
    tail: Arc<Leaf<T>>,
}

impl<T: Drop> Drop for PVec<T> {
    fn drop(self) {
        let PVec {
            branches: _,
            leaves: _,
            tail: _,
        } = self;
    }
}

impl<T: Drop> Model for PVec<T> {
    ghost use Rattle.std.specs.Prelude.{List};
    ghost use Rattle.pvec.specs.Parts.{items_of, IsEven};

    ghost Value = { List T };

    ghost view = { λ v. items_of v.branches.value.items v.leaves.value.items v.tail.value.items };

    ghost invariant = { λ v. IsEven v.branches.value.items v.leaves.value.items v.tail.value.items };
}

impl<T: Drop> PVec<T> {
    /// Makes a list without items.
    pub fn new(alloc: Global) -> Result<Self, AllocError>
        ensures { IfOk result (λ v. v ≡ []) }
    {
        Ok(PVec {
            branches: Arc::new(alloc, Vec::new(alloc))?,
            leaves: Arc::new(alloc, Vec::new(alloc))?,
            tail: Arc::new(alloc, Vec::new(alloc))?,
        })
    }

    /// Gives the same list, shared. No memory is asked for.
    pub fn share(&self) -> Result<Self, AllocError>
        ensures { IfOk result (λ v. v ≡ self.now) }
    {
        Ok(PVec {
            branches: Arc::try_clone(&self.branches)?,
            leaves: Arc::try_clone(&self.leaves)?,
            tail: Arc::try_clone(&self.tail)?,
        })
    }

    /// Counts the items.
    pub fn len(&self) -> usize
        ensures length { result ≡ length self.now }
        ensures limit { result ≤ 262144 }
    {
        count(&self.branches, &self.leaves, &self.tail)
    }

    /// Gives the item at the place, if there is one.
    pub fn get(&self, place: usize) -> Option<&T>
        ensures { option_copied result ≡ slice_get self.now place }
    {
        item(&self.branches, &self.leaves, &self.tail, place)
    }

    /// Makes the list with one item more. This one stays as it is.
    pub fn pushed(&self, alloc: Global, item: Arc<T>) -> Result<Self, PushFault>
        ensures ok { IfOk result (λ v. v ≡ self.now ++ item.value ∷ []) }
        ensures limit { length self.now ≡ 262144 → result ≡ Err PushFault.Full }
        ensures full { IsErrOf result PushFault.Full → length self.now ≡ 262144 }
    {
        if self.len() >= ITEM_LIMIT {
            std::mem::drop(item);
            return Err(PushFault::Full);
        }
        Ok(self.with_one(alloc, item)?)
    }

    /// Makes the list with one item more, for which there is a place. This one stays as it is.
    pub fn with_one(&self, alloc: Global, item: Arc<T>) -> Result<Self, AllocError>
        requires { length self.now < 262144 }
        ensures { IfOk result (λ v. v ≡ self.now ++ item.value ∷ []) }
    {
        let tail = with_one_more(alloc, &self.tail, item)?;
        if tail.len() != WIDTH {
            return Ok(PVec {
                branches: Arc::try_clone(&self.branches)?,
                leaves: Arc::try_clone(&self.leaves)?,
                tail: Arc::new(alloc, tail)?,
            });
        }
        let leaves = with_one_more(alloc, &self.leaves, Arc::new(alloc, tail)?)?;
        if leaves.len() != WIDTH {
            return Ok(PVec {
                branches: Arc::try_clone(&self.branches)?,
                leaves: Arc::new(alloc, leaves)?,
                tail: Arc::new(alloc, Vec::new(alloc))?,
            });
        }
        let branches = with_one_more(alloc, &self.branches, Arc::new(alloc, leaves)?)?;
        Ok(PVec {
            branches: Arc::new(alloc, branches)?,
            leaves: Arc::new(alloc, Vec::new(alloc))?,
            tail: Arc::new(alloc, Vec::new(alloc))?,
        })
    }

    /// Makes the list with another item at the place. This one stays as it is.
    pub fn replaced(&self, alloc: Global, place: usize, item: Arc<T>) -> Result<Self, AllocError>
        requires { place < length self.now }
        ensures { IfOk result (λ v. v ≡ slice_set self.now place item.value) }
    {
        let branches = self.branches.as_slice();
        let in_full = branches.len() * 4096;
        if place < in_full {
            let branches = replaced_in_branches(alloc, branches, place, item)?;
            return Ok(PVec {
                branches: Arc::new(alloc, branches)?,
                leaves: Arc::try_clone(&self.leaves)?,
                tail: Arc::try_clone(&self.tail)?,
            });
        }
        let behind = place - in_full;
        let leaves = self.leaves.as_slice();
        let in_full = leaves.len() * WIDTH;
        if behind < in_full {
            let leaves = replaced_in_leaves(alloc, leaves, behind, item)?;
            return Ok(PVec {
                branches: Arc::try_clone(&self.branches)?,
                leaves: Arc::new(alloc, leaves)?,
                tail: Arc::try_clone(&self.tail)?,
            });
        }
        let tail = replaced(alloc, &self.tail, behind - in_full, item)?;
        Ok(PVec {
            branches: Arc::try_clone(&self.branches)?,
            leaves: Arc::try_clone(&self.leaves)?,
            tail: Arc::new(alloc, tail)?,
        })
    }
}

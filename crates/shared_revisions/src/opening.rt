//! A new repository.
ghost use Rattle.std.specs.Prelude.{◌≡◌, ◌∷◌, [], IfOk};
ghost use Rattle.repo_api.specs.Opening.{new_repository};
ghost use Rattle.shared_revisions.specs.Contents.{held_state};

use crate::held::Held;
use byte_string::ByteString;
use noderevs::Nodes;
use pvec::PVec;
use revision_data::{ChangeList, opening_properties};
use std::alloc::{AllocError, Global};
use std::sync::Arc;

impl Held {
    /// Makes an empty repository: revision 0, with its date.
    pub fn opened(alloc: Global, uuid: u128, date: ByteString) -> Result<Held, AllocError>
        ensures { IfOk result (λ h. held_state h ≡ new_repository uuid date) }
    {
        let list = opening_properties(alloc, date)?;
        let nodes = Nodes::opened(alloc)?;
        let changes = one(alloc, ChangeList::new(alloc))?;
        let properties = one(alloc, list)?;
        Ok(Held {
            uuid,
            nodes,
            changes,
            properties,
            rising_from: 0,
        })
    }
}

/// Makes a list of one item.
fn one<T: Drop>(alloc: Global, item: T) -> Result<PVec<T>, AllocError>
    ensures { IfOk result (λ v. v ≡ item ∷ []) }
{
    let list = PVec::new(alloc)?;
    let list = list.with_one(alloc, Arc::new(alloc, item)?)?;
    Ok(list)
}

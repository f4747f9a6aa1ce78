//! A further revision.
ghost use Rattle.std.specs.Prelude.{◌≡◌, ◌<◌, ◌++◌, ◌∷◌, [], length, IfOk};
ghost use Rattle.noderevs.specs.{Held.{count, node_at}, Soundness.IsNext};
ghost use Rattle.shared_revisions.specs.{Contents.{revisions_of, block_tree}, Growing.HasNext, Maps.Mapped, Placed.IsPlacedBlock};

use crate::dating::rising_from;
use crate::held::Held;
use noderevs::Block;
use pvec::PVec;
use repo_api::Properties;
use revision_data::ChangeList;
use std::alloc::{AllocError, Global};
use std::sync::Arc;

impl Held {
    /// Makes the same with a further revision: its nodes, its changes and its properties.
    pub fn with_revision(
        &self,
        alloc: Global,
        block: Block,
        changes: ChangeList,
        properties: Properties,
    ) -> Result<Held, AllocError>
        requires next { IsNext (node_at self.now.nodes) (count self.now.nodes) block }
        requires placed { IsPlacedBlock (node_at self.now.nodes) (count self.now.nodes) block }
        requires tree { ∥ Mapped (block_tree self.now.nodes block) ∥₁ }
        requires room { length (revisions_of self.now) < 262144 }
        ensures { IfOk result (λ h. HasNext self.now h block changes properties) }
    {
        let nodes = self.nodes.with_block(alloc, block)?;
        let changes = with_one_more(alloc, &self.changes, changes)?;
        let properties = with_one_more(alloc, &self.properties, properties)?;
        let rising_from = rising_from(&properties, self.count(), self.rising_from);
        Ok(Held {
            uuid: self.uuid,
            nodes,
            changes,
            properties,
            rising_from,
        })
    }
}

/// Makes the list with one item more, for which there is a place.
fn with_one_more<T: Drop>(alloc: Global, items: &PVec<T>, more: T) -> Result<PVec<T>, AllocError>
    requires { length items.now < 262144 }
    ensures { IfOk result (λ v. v ≡ items.now ++ more ∷ []) }
{
    items.with_one(alloc, Arc::new(alloc, more)?)
}

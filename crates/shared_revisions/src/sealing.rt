//! The revision that a transaction's tree makes.
ghost use Rattle.std.specs.Prelude.{◌<◌, length, IfOk};
ghost use Rattle.shared_revisions.specs.{Contents.revisions_of, Growing.HasRevision, Maps.Mapped, Sealed.sealed_tree};

use crate::held::Held;
use repo_api::Properties;
use revision_data::ChangeList;
use std::alloc::{AllocError, Global};
use txntree::TxnTree;

impl Held {
    /// Makes the same with the revision that the transaction's tree makes, with these changes and properties.
    pub fn with_tree(
        &self,
        alloc: Global,
        tree: &TxnTree,
        changes: ChangeList,
        properties: Properties,
    ) -> Result<Held, AllocError>
        requires mapped { ∥ Mapped (sealed_tree self.now.nodes tree.now) ∥₁ }
        requires room { length (revisions_of self.now) < 262144 }
        ensures { IfOk result (λ h. HasRevision self.now h
            (sealed_tree self.now.nodes tree.now) changes properties) }
    {
        let revision = self.count() as u32;
        let block = tree.seal(alloc, &self.nodes, revision)?;
        let held = self.with_revision(alloc, block, changes, properties)?;
        Ok(held)
    }
}

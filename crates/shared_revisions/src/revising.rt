//! A changed property of a revision.
ghost use Rattle.std.specs.Prelude.{◌≡◌, ◌<◌, length, IfOk, slice_set};
ghost use Rattle.repo_api.specs.RevisionProperties.{with_changed_property};
ghost use Rattle.shared_revisions.specs.{Growing.HasSameBut, Rising.RisesFrom};

use crate::dating::rising_from;
use crate::held::Held;
use byte_string::ByteString;
use pvec::PVec;
use repo_api::Properties;
use revision_data::changed_property;
use std::alloc::{AllocError, Global};
use std::sync::Arc;

impl Held {
    /// Makes the same with a property of a revision changed.
    pub fn with_property(
        &self,
        alloc: Global,
        revision: u64,
        name: ByteString,
        value: Option<ByteString>,
    ) -> Result<Held, AllocError>
        ensures { IfOk result (λ h. HasSameBut self.now h
            (λ s. with_changed_property s revision name value)) }
    {
        let Some(list) = self.properties(revision) else {
            std::mem::drop((name, value));
            return self.with_lists(self.properties.share()?, self.rising_from);
        };
        self.with_list(alloc, revision, changed_property(list, name, value)?)
    }

    /// Makes the same with another list of properties of a revision.
    pub fn with_list(
        &self,
        alloc: Global,
        revision: u64,
        list: Properties,
    ) -> Result<Held, AllocError>
        requires { revision < length self.now.properties }
        ensures { IfOk result (λ h. HasSameBut self.now h
            (λ s. record s { properties = slice_set s.properties revision list })) }
    {
        let list = Arc::new(alloc, list)?;
        let lists = self.properties.replaced(alloc, revision as usize, list)?;
        let rising_from = rising_from(&lists, revision, self.rising_from);
        self.with_lists(lists, rising_from)
    }

    /// Makes the same with other lists of properties, as many as there are, whose dates rise from this revision on.
    fn with_lists(&self, properties: PVec<Properties>, rising_from: u64) -> Result<Held, AllocError>
        requires many { length properties ≡ length self.now.properties }
        requires rising { RisesFrom properties rising_from }
        ensures { IfOk result (λ h. HasSameBut self.now h
            (λ s. record s { properties = properties })) }
    {
        let nodes = self.nodes.share()?;
        let changes = self.changes.share()?;
        Ok(Held {
            uuid: self.uuid,
            nodes,
            changes,
            properties,
            rising_from,
        })
    }
}

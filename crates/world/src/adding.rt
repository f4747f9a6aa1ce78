//! A further revision that was read.
ghost use Rattle.std.specs.{Prelude.{◌≡◌, ◌<◌, length, IfOk, Decides}, FinMap.entries};
ghost use Rattle.history_marks.specs.Sound.{IsSoundRepo};
ghost use Rattle.shared_revisions.specs.Contents.{held_state, revisions_of};
ghost use Rattle.block_rules.specs.Rules.{IsNextRevision, past_of};
ghost use Rattle.world.specs.Adding.{ComesIf, HasAdded, HasFirstList, HasSoundNext, MayComeNext};

use crate::world::World;
use block_rules::NextBlock;
use noderevs::Block;
use repo_api::{Properties, REVISION_LIMIT};
use revision_data::ChangeList;
use shared_revisions::Held;
use std::alloc::{AllocError, Global};
use std::mem::drop;
use std::sync::Arc;

/// Makes what is held with a further revision that keeps the rules.
fn with_next(
    alloc: Global,
    held: &Held,
    block: Block,
    changes: ChangeList,
    properties: Properties,
) -> Result<Arc<Held>, AllocError>
    requires sound { ∥ IsSoundRepo (held_state held.now) ∥₁ }
    requires next { IsNextRevision (past_of held.now.nodes) block (entries changes) }
    requires room { length (revisions_of held.now) < 262144 }
    ensures { IfOk result (λ h. HasSoundNext held.now h.value block changes properties) }
{
    let next = held.with_revision(alloc, block, changes, properties)?;
    Ok(Arc::new(alloc, next)?)
}

/// Says whether a block and changes may be the next revision.
fn may_come_next(
    alloc: Global,
    held: &Held,
    block: &Block,
    changes: &ChangeList,
) -> Result<bool, AllocError>
    ensures { IfOk result (λ answer. Decides answer (MayComeNext held.now block.now
        (entries changes.now))) }
{
    if held.count() >= REVISION_LIMIT {
        return Ok(false);
    }
    let next = NextBlock {
        nodes: held.nodes(),
        block,
        changes: changes.as_slice(),
    };
    next.is_next_revision(alloc)
}

/// Makes what is held with a further revision, if it may come next.
fn with_checked(
    alloc: Global,
    held: &Held,
    block: Block,
    changes: ChangeList,
    properties: Properties,
) -> Result<Option<Arc<Held>>, AllocError>
    requires { ∥ IsSoundRepo (held_state held.now) ∥₁ }
    ensures { IfOk result (λ next. ComesIf next (MayComeNext held.now block (entries changes))
        (λ h. HasSoundNext held.now h.value block changes properties)) }
{
    match may_come_next(alloc, held, &block, &changes) {
        Ok(true) => Ok(Some(with_next(alloc, held, block, changes, properties)?)),
        Ok(false) => {
            drop((block, changes, properties));
            Ok(None)
        }
        Err(error) => {
            drop((block, changes, properties));
            Err(error)
        }
    }
}

/// Makes what is held with these properties of revision 0.
fn with_first_list(alloc: Global, held: &Held, list: Properties) -> Result<Arc<Held>, AllocError>
    requires { ∥ IsSoundRepo (held_state held.now) ∥₁ }
    ensures revised { IfOk result (λ h. HasFirstList held.now h.value list) }
    ensures sound { IfOk result (λ h. ∥ IsSoundRepo (held_state h.value) ∥₁) }
{
    let revised = held.with_list(alloc, 0, list)?;
    Ok(Arc::new(alloc, revised)?)
}

impl World {
    /// Makes the repository with these properties of revision 0.
    pub fn with_first_properties(&self, list: Properties) -> Result<World, AllocError>
        ensures held { IfOk result (λ w. HasFirstList self.now.held.value w.held.value list) }
        ensures locks { IfOk result (λ w. w.locks.value ≡ self.now.locks.value) }
    {
        let held = with_first_list(self.alloc, &self.held, list)?;
        let locks = Arc::try_clone(&self.locks)?;
        Ok(World {
            alloc: self.alloc,
            held,
            locks,
        })
    }

    /// Makes the repository with a further revision of these nodes, changes and properties, if they keep
    /// the rules and a number is left; `None` if not.
    pub fn with_revision(
        &self,
        block: Block,
        changes: ChangeList,
        properties: Properties,
    ) -> Result<Option<World>, AllocError>
        ensures { IfOk result (λ next. ComesIf next
            (MayComeNext self.now.held.value block (entries changes))
            (λ w. HasAdded self.now w block changes properties)) }
    {
        let Some(held) = with_checked(self.alloc, &self.held, block, changes, properties)? else {
            return Ok(None);
        };
        let locks = Arc::try_clone(&self.locks)?;
        Ok(Some(World {
            alloc: self.alloc,
            held,
            locks,
        }))
    }
}

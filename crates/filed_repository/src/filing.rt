//! The repository behind each change, with its files.
ghost use Rattle.std.specs.Prelude.{◌≡◌, ◌++◌, ◌∷◌, [], Some, IfOk, IfSome, length, true};
ghost use Rattle.shared_revisions.specs.Growing.{HasOneMore};
ghost use Rattle.filed_laws.specs.Fitting.{NextFit};
ghost use Rattle.stored_repository.specs.Filing.{WritesLocks, WritesProperties, WritesRevision};
ghost use Rattle.filed_repository.specs.{Reading.{GoesOn, IsRightNext}, Files.{AreLocks, HasOneMoreRevision, HasOtherProperties, IsOf, filed_content}};

use crate::filed_world::FiledWorld;
use crate::written::{current_file, locks_file, properties_file};
use block_rules::NextBlock;
use filed_trees::Table;
use filed_writing::{Written, write_revision};
use fsfs_nodes::{Current, NextIds};
use pvec::PVec;
use repo_api::Repository;
use std::alloc::{AllocError, Global};
use std::sync::Arc;
use stored_repository::{NewProperties, NewRevision};
use svnpath::Path;
use world::World;

/// Makes the file of all locks of a repository.
#[tactic(auto, using(crate::proofs::Listed::all_listed))]
fn all_locks_file(alloc: Global, world: &World) -> Result<Vec<u8>, AllocError>
    ensures { IfOk result (λ file. AreLocks (Some file.items) world.now.locks.value) }
{
    let root = Path::root(alloc);
    let locks = world.locks_under(&root)?;
    locks_file(alloc, locks.as_slice())
}

/// Makes the tables with one more, for which there is a place.
pub(crate) fn with_table(
    alloc: Global,
    tables: &PVec<Table>,
    table: Table,
) -> Result<PVec<Table>, AllocError>
    ensures { IfOk result (λ made. made ≡ tables.now ++ table ∷ []) }
{
    if tables.len() >= 262_144 {
        std::mem::drop(table);
        return Err(AllocError);
    }
    tables.with_one(alloc, Arc::new(alloc, table)?)
}

/// Gives the ids that come next, where they are counted over all revisions.
fn next_ids(current: Current) -> Option<NextIds>
    ensures same { result ≡ current.ids }
    ensures fit { IfSome result NextFit }
{
    let NextIds { node, copy } = current.ids?;
    Some(NextIds { node, copy })
}

impl FiledWorld {
    /// Makes the repository with other locks, and the file of its locks.
    pub(crate) fn with_locks(&self, world: World) -> Result<(FiledWorld, Vec<u8>), AllocError>
        requires { world.held.value ≡ self.now.world.held.value }
        ensures world { IfOk result (λ made. made.0.world ≡ world) }
        ensures files { IfOk result (λ made. WritesLocks IsOf self.now made.1.items made.0) }
    {
        let file = all_locks_file(self.alloc, &world)?;
        let tables = self.tables.share()?;
        let made = FiledWorld {
            alloc: self.alloc,
            world,
            tables,
            current: self.current,
        };
        Ok((made, file))
    }

    /// Makes the repository with other properties of a revision, and the file of these.
    pub(crate) fn with_properties(
        &self,
        world: World,
        revision: u64,
    ) -> Result<(FiledWorld, NewProperties), AllocError>
        requires { HasOtherProperties self.now.world world revision }
        ensures world { IfOk result (λ made. made.0.world ≡ world) }
        ensures number { IfOk result (λ made. made.1.revision ≡ revision) }
        ensures files { IfOk result (λ made.
            WritesProperties IsOf self.now revision made.1.file.items made.0) }
    {
        let Some(list) = world.revision_properties(revision) else {
            return Err(AllocError);
        };
        if revision >= 262_144 {
            return Err(AllocError);
        }
        let file = properties_file(self.alloc, list)?;
        let tables = self.tables.share()?;
        let made = FiledWorld {
            alloc: self.alloc,
            world,
            tables,
            current: self.current,
        };
        let new = NewProperties {
            revision: revision as u32,
            file,
        };
        Ok((made, new))
    }

    /// Says whether the youngest revision of a repository that has one more than this one keeps the rules of a
    /// history.
    fn is_right_next(&self, world: &World) -> Result<bool, AllocError>
        requires { HasOneMore self.now.world.held.value world.now.held.value }
        ensures { IfOk result (λ right. right ≡ true → IsRightNext self.now world.now) }
    {
        let number = world.youngest();
        let nodes = self.world.nodes();
        let Some(block) = world.nodes().block(number) else {
            return Ok(false);
        };
        if nodes.count() >= 262_144 {
            return Ok(false);
        }
        let next = NextBlock {
            nodes,
            block,
            changes: world.changes(number),
        };
        next.is_next_revision(self.alloc)
    }

    /// Writes the file of the youngest revision of a repository that has one more than this one. What does not keep the
    /// rules of a history, of which no commit makes one, is not written.
    fn written(&self, world: &World) -> Result<Written, AllocError>
        requires more { HasOneMore self.now.world.held.value world.now.held.value }
        ensures { IfOk result (λ made. GoesOn self.now world.now made.file.items made.table) }
    {
        if !self.is_right_next(world)? {
            return Err(AllocError);
        }
        write_revision(
            self.alloc,
            world.nodes(),
            &self.tables,
            world.changes(world.youngest()),
            next_ids(self.current),
        )
    }

    /// Makes the repository with one more revision, and the files of it.
    pub(crate) fn with_revision(
        &self,
        world: World,
    ) -> Result<(FiledWorld, NewRevision), AllocError>
        requires { HasOneMoreRevision self.now.world world }
        ensures world { IfOk result (λ made. made.0.world ≡ world) }
        ensures number { IfOk result (λ made. made.1.number
            ≡ length (filed_content self.now).revisions) }
        ensures files { IfOk result (λ made. WritesRevision IsOf self.now made.1 made.0) }
    {
        let number = world.youngest();
        let Some(list) = world.revision_properties(number) else {
            return Err(AllocError);
        };
        let properties = properties_file(self.alloc, list)?;
        let Written { file, table, ids } = self.written(&world)?;
        let current = Current {
            format: self.current.format,
            youngest: self.tables.len() as u32,
            ids,
        };
        let new = NewRevision {
            number,
            revision: file,
            properties,
            current: current_file(self.alloc, current)?,
        };
        let tables = with_table(self.alloc, &self.tables, table)?;
        let made = FiledWorld {
            alloc: self.alloc,
            world,
            tables,
            current,
        };
        Ok((made, new))
    }
}

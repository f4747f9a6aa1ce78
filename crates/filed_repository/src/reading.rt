//! A repository whose files are read, one revision after another.
ghost use Rattle.std.specs.{Prelude.{◌≡◌, ◌<◌, ◌≤◌, ◌++◌, ◌∷◌, [], ℕ, List, Option, Some, length, slice_get, IfOk, None, option_copied}, Result.result_ok};
ghost use Rattle.std.specs.FinMap.{entries};
ghost use Rattle.repo_api.specs.Properties.{PropertyList};
ghost use Rattle.world.specs.Adding.{MayComeNext};
ghost use Rattle.repostore.specs.{Current.count_in, Files.Files, Reading.IfFindsFaulty};
ghost use Rattle.fsfs_nodes.specs.Properties.{properties_of};
ghost use Rattle.filed_trees.specs.{Pieces.RevisionBytes, Readable.Judges, StandsFor.locks_in};
ghost use Rattle.filed_repository.specs.{Files.IsOf, Reading.{ContinueHistory, HasRead, HasReadFirst, HasReadHistory, HasReadLocks, HasReadMore, HasTaken}};
ghost use Rattle.filed_repository.specs.Reading.{IsNew, IsNextOf, IsSaidNext, JudgesFirst, JudgesNext, ReadsLocks};

use crate::filed_world::FiledWorld;
use crate::filing::with_table;
use filed_trees::{
    ReadRevision, Table, check_same_properties, nothing_is_tabled, read_next, tabulated,
};
use fsfs::{KnownDumps, judge_revision, read_known_revision};
use fsfs_nodes::{Current, read_locks, read_properties};
use fsfs_text::FileFault;
use pvec::PVec;
use repo_api::{Lock, Properties, Repository};
use std::alloc::{AllocError, Global};
use svnpath::Path;
use world::World;

/// Lists the locks that their file says, if there is one.
fn listed(alloc: Global, locks: Option<&[u8]>) -> Result<Vec<(Path, Lock)>, FileFault>
    ensures ok { IfOk result (λ listed. locks_in (option_copied locks.entry) ≡ Some listed.items) }
    ensures faulty { IfFindsFaulty result (locks_in (option_copied locks.entry) ≡ None) }
{
    match locks {
        Some(bytes) => read_locks(alloc, bytes),
        None => Ok(Vec::new(alloc)),
    }
}

impl FiledWorld {
    /// Begins with a new repository, of which no revision has been read.
    pub fn unread(alloc: Global, world: World, current: Current) -> Result<FiledWorld, AllocError>
        ensures world { IfOk result (λ made. made.world ≡ world) }
        ensures read { IfOk result (HasReadFirst world current) }
    {
        nothing_is_tabled();
        match PVec::new(alloc) {
            Ok(tables) => Ok(FiledWorld {
                alloc,
                world,
                tables,
                current,
            }),
            Err(error) => {
                std::mem::drop(world);
                Err(error)
            }
        }
    }

    /// Shows the repository of the revisions that have been read.
    pub fn world(&self) -> &World
        ensures { result.now ≡ self.now.world }
    {
        &self.world
    }

    /// Says how many revisions have been read.
    pub fn count(&self) -> usize
        ensures count { result ≡ length self.now.tables }
        ensures limit { result ≤ 262144 }
    {
        self.tables.len()
    }

    /// Compares the files of revision 0 with that of a world, and gives the tables with that of the revision.
    fn compared(
        &self,
        world: &World,
        revision: &[u8],
        properties: &[u8],
    ) -> Result<PVec<Table>, FileFault>
        requires { length self.now.tables ≡ 0 }
        ensures judges { JudgesFirst world.now (revision.now, properties.now) result }
        ensures read { IfOk result (λ tables.
            IsNextOf self.now world.now → IsNew world.now.held.value → HasReadMore self.now
            (revision.now, properties.now) (record self.now { world = world.now; tables = tables })) }
    {
        let number = self.tables.len() as u64;
        let table = tabulated(
            self.alloc,
            world.nodes(),
            &self.tables,
            world.changes(number),
            revision,
        )?;
        match self.check_list(world, properties) {
            Ok(()) => Ok(with_table(self.alloc, &self.tables, table)?),
            Err(fault) => {
                std::mem::drop(table);
                Err(fault)
            }
        }
    }

    /// Checks that the file of the next revision's properties says those of the world.
    fn check_list(&self, world: &World, properties: &[u8]) -> Result<(), FileFault>
        ensures { (list : PropertyList)
            → slice_get world.now.held.value.properties (length self.now.tables) ≡ Some list
            → Judges result (result_ok (properties_of properties.now) ≡ Some list) }
    {
        let Some(list) = world.revision_properties(self.tables.len() as u64) else {
            return Err(FileFault::BadLine);
        };
        let said = read_properties(self.alloc, properties)?;
        check_same_properties(self.alloc, &said, list)
    }

    /// Takes the files of revision 0, if they say what that of a world is.
    ///
    /// # Errors
    ///
    /// As `tabulated` and `read_properties`; `BadLine` where properties differ.
    pub(crate) fn with_read_revision(
        &self,
        world: World,
        revision: &[u8],
        properties: &[u8],
    ) -> Result<FiledWorld, FileFault>
        requires { length self.now.tables ≡ 0 }
        ensures world { IfOk result (λ made. made.world ≡ world) }
        ensures judges { JudgesFirst world (revision.now, properties.now) result }
        ensures read { IfOk result (λ made. IsNextOf self.now world → IsNew world.held.value
            → HasReadMore self.now (revision.now, properties.now) made) }
    {
        match self.compared(&world, revision, properties) {
            Ok(tables) => Ok(FiledWorld {
                alloc: self.alloc,
                world,
                tables,
                current: self.current,
            }),
            Err(fault) => {
                std::mem::drop(world);
                Err(fault)
            }
        }
    }

    /// Reads the files of revision 0, which a repository has when it is new but for its properties.
    fn with_first_revision(
        &self,
        revision: &[u8],
        properties: &[u8],
    ) -> Result<FiledWorld, FileFault>
        requires { length self.now.tables ≡ 0 }
        ensures read { IfOk result (HasReadMore self.now (revision.now, properties.now)) }
        ensures judges { IsNew self.now.world.held.value
            → Judges result (ContinueHistory [] (revision.now, properties.now)) }
    {
        let list = read_properties(self.alloc, properties)?;
        let world = self.world.with_first_properties(list)?;
        self.with_read_revision(world, revision, properties)
    }

    /// Makes the repository of a world that has one revision more, whose nodes stand so in its file.
    fn with_world(&self, world: World, table: Table) -> Result<FiledWorld, AllocError>
        ensures world { IfOk result (λ made. made.world ≡ world) }
        ensures tables { IfOk result (λ made. made.tables ≡ self.now.tables ++ table ∷ []) }
        ensures current { IfOk result (λ made. made.current ≡ self.now.current) }
    {
        match with_table(self.alloc, &self.tables, table) {
            Ok(tables) => Ok(FiledWorld {
                alloc: self.alloc,
                world,
                tables,
                current: self.current,
            }),
            Err(error) => {
                std::mem::drop(world);
                Err(error)
            }
        }
    }

    /// Takes a revision that was read, if it may come next.
    ///
    /// # Errors
    ///
    /// `BadLine` where it may not; `NoMemory`.
    pub(crate) fn with_read(
        &self,
        read: ReadRevision,
        list: Properties,
    ) -> Result<FiledWorld, FileFault>
        ensures taken { IfOk result (λ made. HasTaken self.now made read list) }
        ensures may { Judges result (MayComeNext self.now.world.held.value read.block
            (entries read.changes)) }
    {
        let table = read.table;
        match self.world.with_revision(read.block, read.changes, list) {
            Ok(Some(world)) => Ok(self.with_world(world, table)?),
            Ok(None) => {
                std::mem::drop(table);
                Err(FileFault::BadLine)
            }
            Err(_) => {
                std::mem::drop(table);
                Err(FileFault::NoMemory)
            }
        }
    }

    /// Reads what the files of a revision after revision 0 say, by what is known of directories, and judges it.
    ///
    /// # Errors
    ///
    /// As `read_known_revision`, `judge_revision`, `read_properties` and `read_next`.
    pub(crate) fn read_further(
        &self,
        known: &mut KnownDumps,
        revision: &[u8],
        properties: &[u8],
    ) -> Result<(ReadRevision, Properties), FileFault>
        requires { 0 < length self.now.tables }
        ensures read { IfOk result (λ said. IsSaidNext self.now revision.now said.0) }
        ensures list { IfOk result (λ said. result_ok (properties_of properties.now) ≡ Some said.1) }
        ensures faulty { (files : RevisionBytes) → HasReadHistory self.now files
            → IfFindsFaulty result (ContinueHistory files (revision.now, properties.now) → ⊥) }
    {
        let number = self.tables.len() as u32;
        let file = read_known_revision(known, number, revision)?;
        judge_revision(known, number, &file)?;
        let list = read_properties(self.alloc, properties)?;
        match read_next(known, self.world.nodes(), &self.tables, &file) {
            Ok(read) => Ok((read, list)),
            Err(fault) => {
                std::mem::drop(list);
                Err(fault)
            }
        }
    }

    /// Reads the files of a revision after revision 0.
    fn with_further_revision(
        &self,
        known: &mut KnownDumps,
        revision: &[u8],
        properties: &[u8],
    ) -> Result<FiledWorld, FileFault>
        requires { 0 < length self.now.tables }
        ensures read { IfOk result (HasReadMore self.now (revision.now, properties.now)) }
        ensures judges { JudgesNext self.now (revision.now, properties.now) result }
    {
        let (read, list) = self.read_further(known, revision, properties)?;
        self.with_read(read, list)
    }

    /// Reads the files of the next revision, by what is known of directories, and takes them.
    ///
    /// # Errors
    ///
    /// As `read_known_revision`, `judge_revision`, `read_properties` and `read_next`; `BadLine` where the revision
    /// may not be the next one, or revision 0 is not that of a new repository.
    pub fn with_next_revision(
        &self,
        known: &mut KnownDumps,
        revision: &[u8],
        properties: &[u8],
    ) -> Result<FiledWorld, FileFault>
        ensures read { IfOk result (HasReadMore self.now (revision.now, properties.now)) }
        // A fault is found only where these are not the files of a next revision.
        ensures judges { (self.now.tables ≡ [] → IsNew self.now.world.held.value)
            → JudgesNext self.now (revision.now, properties.now) result }
    {
        if self.tables.len() == 0 {
            self.with_first_revision(revision, properties)
        } else {
            self.with_further_revision(known, revision, properties)
        }
    }

    /// Makes the repository with the locks of a list and no others.
    pub(crate) fn with_listed_locks(&self, locks: &[(Path, Lock)]) -> Result<FiledWorld, AllocError>
        ensures read { IfOk result (λ made. (file : Option (List ℕ))
            → locks_in file ≡ Some locks.now → HasReadLocks self.now file made) }
        ensures tables { IfOk result (λ made. made.tables ≡ self.now.tables) }
        ensures held { IfOk result (λ made. made.world.held.value ≡ self.now.world.held.value) }
    {
        let world = self.world.with_listed_locks(locks)?;
        let tables = self.tables.share()?;
        Ok(FiledWorld {
            alloc: self.alloc,
            world,
            tables,
            current: self.current,
        })
    }

    /// Takes the file of locks, if there is one.
    ///
    /// # Errors
    ///
    /// As `read_locks`.
    pub fn with_read_locks(&self, locks: Option<&[u8]>) -> Result<FiledWorld, FileFault>
        ensures { ReadsLocks self.now (option_copied locks.entry) result }
    {
        let listed = listed(self.alloc, locks)?;
        Ok(self.with_listed_locks(listed.as_slice())?)
    }

    /// Shows that a repository is that of the files that have been read, where those of all revisions
    /// are among them.
    pub fn read_whole(&self)
        ensures { (files : Files) → HasRead self.now files
            → count_in files.current ≡ Some (length files.revisions) → IsOf self.now files }
    {}
}

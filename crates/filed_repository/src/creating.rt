//! A new repository, and its files.
ghost use Rattle.std.specs.{Prelude.{◌≡◌, ◌≤◌, List, ℕ, IfOk, None, Some}, Result.result_ok};
ghost use Rattle.dates.specs.{Dates.IsDateText, declared.TheConstants.LAST_MOMENT};
ghost use Rattle.repo_api.specs.Opening.{new_repository};
ghost use Rattle.repostore.specs.Current.{count_in};
ghost use Rattle.repository_creation.specs.Creating.{opening_files};
ghost use Rattle.fsfs_text.specs.Formats.{format_of};
ghost use Rattle.fsfs_nodes.specs.Identity.{uuid_of};
ghost use Rattle.filed_repository.specs.{Files.{IsOf, filed_content}, Creating.{SayNew, ids_in, new_files}, Reading.{HasReadFirst, IsNextOf}};
ghost use Rattle.world.specs.Whole.{world_content};

use crate::filed_world::FiledWorld;
use crate::written::{current_file, format_file, properties_file};
use filed_writing::write_revision;
use fsfs_nodes::{Current, NextIds, append_uuid, read_uuid};
use fsfs_text::Format;
use pvec::PVec;
use repo_api::Repository;
use repository_creation::Opening;
use std::alloc::{AllocError, Global};
use world::World;

/// The format of the folder around a repository's files, for other programs.
pub const REPOSITORY_FORMAT: &[u8] = b"5\n";

/// The kind of a repository's files, for other programs.
pub const KIND: &[u8] = b"fsfs\n";

/// The ids before those of revision 0, in both formats: the root's copy has the first one.
const FIRST_IDS: NextIds = NextIds { node: 0, copy: 1 };

/// The files of a new repository that are not the same in all.
#[derive(Drop)]
pub struct NewFiles {
    pub format: Vec<u8>,
    pub uuid: Vec<u8>,
    pub current: Vec<u8>,
    pub revision: Vec<u8>,
    pub properties: Vec<u8>,
}

impl NewFiles {
    /// Gives all files of the repository.
    pub fn opening(&self) -> Opening<'_>
        ensures { opening_files result None ≡ new_files self.now }
    {
        Opening {
            format: self.format.as_slice(),
            repository_format: REPOSITORY_FORMAT,
            kind: KIND,
            uuid: self.uuid.as_slice(),
            current: self.current.as_slice(),
            revision: self.revision.as_slice(),
            properties: self.properties.as_slice(),
        }
    }
}

/// Makes the file `uuid`. Where it could not be read back it is not made.
fn uuid_file(alloc: Global, uuid: u128) -> Result<Vec<u8>, AllocError>
    ensures { IfOk result (λ file. result_ok (uuid_of file.items) ≡ Some uuid) }
{
    let mut file = Vec::new(alloc);
    append_uuid(&mut file, uuid)?;
    match read_uuid(file.as_slice()) {
        Ok(read) if read == uuid => Ok(file),
        _ => Err(AllocError),
    }
}

/// Gives the ids that come next, where they are counted over all revisions.
fn ids_in(format: Format, ids: Option<NextIds>) -> Option<NextIds>
    ensures { result ≡ ids_in format ids }
{
    match format {
        Format::Two => ids,
        Format::Three(_) => None,
    }
}

/// Makes the files of a new repository, and says what `current` says.
fn first_files(
    alloc: Global,
    world: &World,
    format: Format,
) -> Result<(NewFiles, Current), AllocError>
    ensures says { IfOk result (λ made. SayNew world.now.held.value.uuid made.1 made.0) }
    ensures format { IfOk result (λ made. made.1.format ≡ format) }
{
    let Some(list) = world.revision_properties(0) else {
        return Err(AllocError);
    };
    let properties = properties_file(alloc, list)?;
    let tables = PVec::new(alloc)?;
    let changes = world.changes(0);
    let written = write_revision(alloc, world.nodes(), &tables, changes, Some(FIRST_IDS))?;
    let current = Current {
        format,
        youngest: 0,
        ids: ids_in(format, written.ids),
    };
    let files = NewFiles {
        format: format_file(alloc, format)?,
        uuid: uuid_file(alloc, world.uuid())?,
        current: current_file(alloc, current)?,
        revision: written.file,
        properties,
    };
    Ok((files, current))
}

/// Begins with a new repository, of which no revision has been read.
fn unread(alloc: Global, world: &World, current: Current) -> Result<FiledWorld, AllocError>
    ensures read { IfOk result (HasReadFirst world.now current) }
    ensures next { IfOk result (λ unread. (uuid : ℕ) (date : List ℕ)
        → world_content world.now ≡ new_repository uuid date → IsNextOf unread world.now) }
{
    FiledWorld::unread(alloc, world.share()?, current)
}

/// Makes a new repository of which these are the files.
fn with_files(
    alloc: Global,
    world: World,
    files: &NewFiles,
    current: Current,
) -> Result<FiledWorld, AllocError>
    requires { SayNew world.held.value.uuid current files.now }
    ensures world { IfOk result (λ made. made.world ≡ world) }
    ensures files { IfOk result (λ made. (uuid : ℕ) (date : List ℕ)
        → world_content world ≡ new_repository uuid date → IsOf made (new_files files.now)) }
{
    let unread = match unread(alloc, &world, current) {
        Ok(unread) => unread,
        Err(error) => {
            std::mem::drop(world);
            return Err(error);
        }
    };
    let revision = files.revision.as_slice();
    match unread.with_read_revision(world, revision, files.properties.as_slice()) {
        Ok(made) => {
            made.read_whole();
            Ok(made)
        }
        Err(_) => Err(AllocError),
    }
}

/// Makes a new repository, whose revision 0 is dated at the moment, a count of microseconds since the
/// beginning of 1970; and its files, which are of the format.
pub fn new_filed(
    alloc: Global,
    uuid: u128,
    moment: u64,
    format: Format,
) -> Result<(FiledWorld, NewFiles), AllocError>
    requires { moment ≤ LAST_MOMENT }
    ensures content { IfOk result (λ made. (date : List ℕ) × IsDateText moment date
        × (filed_content made.0 ≡ new_repository uuid date)) }
    ensures files { IfOk result (λ made. IsOf made.0 (new_files made.1)) }
    ensures count { IfOk result (λ made. count_in made.1.current.items ≡ Some 1) }
    ensures format { IfOk result (λ made. format_of made.1.format.items ≡ Some format) }
{
    let world = World::new(alloc, uuid, moment)?;
    match first_files(alloc, &world, format) {
        Ok((files, current)) => match with_files(alloc, world, &files, current) {
            Ok(made) => Ok((made, files)),
            Err(error) => {
                std::mem::drop(files);
                Err(error)
            }
        },
        Err(error) => {
            std::mem::drop(world);
            Err(error)
        }
    }
}

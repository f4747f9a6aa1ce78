//! What a change writes is saved, and then the repository is the next one.
ghost use Rattle.std.specs.Prelude.{◌≡◌};
ghost use Rattle.filed_archive.specs.Writing.{SavesChange, SavesFiles, Writes, kept_of, told_as};
ghost use Rattle.repo_api.specs.Accepted.{Accepted};
ghost use Rattle.archives.specs.Archives.{MaySave};

use crate::filed_archive::FiledArchive;
use crate::unsaved::{ChangedFiles, Unsaved};
use archives::SaveFault;
use repostore::Saves;
use std::mem::drop;
use store_files::{Store, StoreFault};
use stored_repository::Filed;

/// Says how a save that failed is answered, by whether saves have come to a halt.
fn told(is_halted: bool, fault: StoreFault) -> SaveFault
    ensures { result ≡ told_as is_halted fault }
{
    if let StoreFault::NoMemory = fault {
        return SaveFault::NoMemory;
    }
    if is_halted {
        SaveFault::Halted
    } else {
        SaveFault::Device
    }
}

/// Saves what a change writes.
fn save_files<S: Store>(saves: &mut Saves<S>, new: &ChangedFiles) -> Result<(), StoreFault>
    ensures { SavesFiles S.Store new.now saves.old result saves.new }
{
    match new {
        ChangedFiles::Revision(new) => saves.save_commit(
            new.revision.as_slice(),
            new.properties.as_slice(),
            new.current.as_slice(),
        ),
        ChangedFiles::Locks(file) => saves.save_locks(file.as_slice()),
        ChangedFiles::Properties(new) => saves.save_rev_prop(new.revision, new.file.as_slice()),
    }
}

impl<F: Filed, S: Store> FiledArchive<F, S> {
    /// Saves a change that was made of this repository, and then has the repository behind it. A stop at any moment
    /// of the call leaves the files of the repository from before the change, or behind it.
    pub fn save_change(&mut self, unsaved: Unsaved<F>) -> Result<(), SaveFault>
        requires { MaySave kept_of Writes self.old unsaved }
        ensures { (e : Accepted) → Writes self.old unsaved e
            → SavesChange e self.old result self.new }
    {
        let Unsaved { next, files } = unsaved;
        match save_files(&mut self.saves, &files) {
            Ok(()) => {
                drop(files);
                self.repository = next;
                Ok(())
            }
            Err(fault) => {
                drop((next, files));
                Err(told(self.saves.is_halted(), fault))
            }
        }
    }
}

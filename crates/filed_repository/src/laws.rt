//! What holds of repositories over files. The functions do nothing: their contracts are the laws.
ghost use Rattle.repo_api.specs.Soundness.{AreSound};
ghost use Rattle.store_files.specs.Folders.{Folder};
ghost use Rattle.repostore.specs.{Files.{Files, HasFiles}, Reading.IsFaulty};
ghost use Rattle.filed_repository.specs.{Files.{IsOf, filed_content}, declared.filed_world.FiledWorld.FiledWorld, Faults.folder_faults};

use crate::filed_world::FiledWorld;

/// Shows that the trees of an opened repository are sound: a hub may be made over it.
pub fn opened_trees_are_sound(_filed: &FiledWorld)
    ensures { AreSound (filed_content _filed.now).revisions }
{}

/// Shows that no file of a repository is faulty: where a folder has the files of one, opening it finds
/// no fault in them.
pub fn files_of_a_repository_are_not_faulty()
    ensures { (f : FiledWorld) (files : Files) (folder : Folder) → IsOf f files
        → HasFiles files folder → IsFaulty folder_faults folder → ⊥ }
{}

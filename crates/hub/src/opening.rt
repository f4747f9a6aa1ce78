//! A hub over a repository that is opened from its files.
ghost use Rattle.std.specs.Prelude.{◌≡◌, [], false};
ghost use Rattle.repostore.specs.Saving.{Stands};
ghost use Rattle.hub.specs.{State.hub_at, Opening.{HaltLeaves, opened_hub}};
ghost use Rattle.stored_repository.specs.{Keeping.HasRepository, Stored.{BeginsOver, point_of}};
ghost use Rattle.filed_repository.specs.Files.{IsOf, filed_content};

use crate::hub::Hub;
use filed_repository::{FolderRepository, opened_trees_are_sound};
use machine::Options;
use std::alloc::Global;
use store_files::Store;

/// A hub over a repository in files.
pub type FolderHub<S> = Hub<FolderRepository<S>>;

/// Makes a hub without sessions over a repository that was opened.
pub fn hub_over<S: Store>(
    alloc: Global,
    repository: FolderRepository<S>,
    options: Options,
) -> FolderHub<S>
    ensures state { result ≡ hub_at options (point_of repository) [] 0 }
    // Over what was just opened of a store, it is not halted, has no pending change, and counts the failures that the
    // store had before: none where it has not failed.
    ensures begins { (store : S) → BeginsOver store repository
        → result ≡ opened_hub options (filed_content repository.repository) (S.failed store) }
{
    opened_trees_are_sound(repository.repository());
    Hub::with_access(alloc, repository, options)
}

/// Shows the store of a hub's files. While changes are made, what it reads has the files of the hub's repository,
/// and so has what a stop leaves now. Once changes have come to a halt, it has those of the hub's repository, or those
/// behind the change that was being saved then, and so has what a stop leaves now.
pub fn store_of<S: Store>(hub: &FolderHub<S>) -> &S
    ensures stands { S.is_honest result.now → hub.now.halted ≡ false
        → Stands S.Store result.now (λ f. ∥ HasRepository filed_content IsOf hub.now.content f ∥₁) }
    ensures halted { ∥ HaltLeaves S.Store result.now hub.now ∥₁ }
{
    hub.access().store()
}

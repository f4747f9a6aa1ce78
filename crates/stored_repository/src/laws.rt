//! What a stop and an opening say together.
ghost use Rattle.std.specs.Prelude.{◌≡◌, false, List, [], ◌∷◌};
ghost use Rattle.store_files.specs.Folders.{Folder};
ghost use Rattle.repo_api.specs.{Accepted.Accepted, States.RepoState};
ghost use Rattle.repostore.specs.declared.saves.Saves.{Saves};
ghost use Rattle.access.specs.{Beginnings.{GoesOnTo, IsAmong}, Calls.{IsWithin, after_calls}};
ghost use Rattle.stored_repository.specs.{Keeping.{HasRepository, StandsFor}, Leaving.{FilesLeave, FilesStand, MakesCalls}};

use crate::filed::Filed;
use store_files::Store;

/// Shows that a folder with the files of a repository stands for what the repository contains, and for
/// nothing else.
pub fn a_repository_stands_in_its_folder<F: Filed>()
    ensures stands { (c : RepoState) (f : Folder) → HasRepository F.content F.is_of c f
        → StandsFor F.stands_for c f }
    ensures alone { (c found : RepoState) (f : Folder) → HasRepository F.content F.is_of c f
        → StandsFor F.stands_for found f → found ≡ c }
{}

/// Shows that what is opened after a stop, at any moment from one to another of which it is known what a stop leaves, is
/// one of these repositories, and nothing else.
pub fn a_stop_is_opened_as_one_of_these<F: Filed, S: Store>()
    ensures { (old new : Saves S) (cs : List RepoState) → FilesLeave F.content F.is_of S.Store old new cs
        → S.is_honest old.store → (found : RepoState) (f : Folder)
        → S.left_since new.store (S.moment old.store) f → StandsFor F.stands_for found f
        → ∥ IsAmong found cs ∥₁ }
{}

/// Shows what a stop leaves at any moment of calls of a repository, one after another: the files of the repository after
/// a beginning of the accepted changes. It holds all that the repository contained as the stopped call began, so each
/// change that was answered before, and each that was seen before; and besides at most changes for which that call asks,
/// which the rules accept.
pub fn a_stop_leaves_a_beginning<F: Filed, S: Store>()
    ensures stop { (k : F × Saves S) (calls : List (List Accepted × (F × Saves S))) → k.1.is_halted ≡ false
        → FilesStand F.content F.is_of S.Store k.1 (F.content k.0 ∷ [])
        → MakesCalls F.content F.is_of S.Store k calls → (cs : List RepoState)
        × FilesLeave F.content F.is_of S.Store k.1 (after_calls k calls).1 cs
        × ((c : RepoState) → IsAmong c cs → IsWithin (λ x. F.content x.0) k calls c) }
    ensures beginning { (k : F × Saves S) (calls : List (List Accepted × (F × Saves S))) (c : RepoState)
        → MakesCalls F.content F.is_of S.Store k calls → IsWithin (λ x. F.content x.0) k calls c
        → GoesOnTo (F.content k.0) c }
{}

//! What the promises of saves say together.
ghost use Rattle.std.specs.Prelude.{◌≡◌, ◌⊎◌};
ghost use Rattle.store_files.specs.{Folders.Folder, Stops.LeavesOnly};
ghost use Rattle.repostore.specs.Files.{Files, HasFiles, HasEither};

use store_files::Store;

/// Shows that what is opened after a stop in a save are the files from before it or those from after it, and nothing
/// else.
pub fn a_stop_is_opened_as_old_or_new()
    ensures { (old new found : Files) (f : Folder) → HasEither old new f → HasFiles found f
        → (found ≡ old) ⊎ (found ≡ new) }
{}

/// Shows that a stop in one of two saves, the one after the other, leaves the files from before the first, from between
/// them or from after the second.
pub fn runs_of_saves_join<S: Store>()
    ensures { (start mid end : S) (before between behind : Files)
        → LeavesOnly S.Store start mid (HasEither before between)
        → LeavesOnly S.Store mid end (HasEither between behind)
        → LeavesOnly S.Store start end
        (λ f. HasEither before between f ⊎ HasEither between behind f) }
{}

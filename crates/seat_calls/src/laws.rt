//! What a stop leaves within a run of calls.
ghost use Rattle.std.specs.Prelude.{◌≡◌, false, List};
ghost use Rattle.repo_api.specs.{Accepted.Accepted, States.RepoState};
ghost use Rattle.published.specs.Events.{state_of};
ghost use Rattle.access.specs.{Beginnings.{GoesOnTo, IsAmong}, Calls.{IsWithin, after_calls}};
ghost use Rattle.keepers.specs.Standing.{IsSteady, MakesCalls, Standing};

use archives::Archive;
use repo_api::Repository;

/// Shows what a stop leaves at any moment of a run of calls of a keeper, by whichever of its seats: the files of the
/// repository after a beginning of the accepted changes. It holds all events of the keeper's list from before the call
/// that was stopped, so each change that was answered, and each that a seat has seen; and besides them at most changes
/// for which that call asks, which the rules accept.
pub fn a_stop_leaves_a_beginning<R: Repository, S: Archive<R>>()
    ensures stop { (k : Standing S) (calls : List (List Accepted × Standing S))
        → IsSteady S.kept S.stands k → (S.kept k.archive).halted ≡ false
        → MakesCalls S.kept S.leaves k calls
        → (cs : List RepoState) × S.leaves k.archive (after_calls k calls).archive cs
        × ((c : RepoState) → IsAmong c cs → IsWithin (λ x. state_of x.list) k calls c) }
    ensures beginning { (k : Standing S) (calls : List (List Accepted × Standing S)) (c : RepoState)
        → MakesCalls S.kept S.leaves k calls → IsWithin (λ x. state_of x.list) k calls c
        → GoesOnTo (state_of k.list) c }
{}

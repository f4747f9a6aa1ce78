//! What holds of a repository that threads share. The functions do nothing: their contracts are the laws.
ghost use Rattle.std.specs.Prelude.{◌≡◌, ◌<◌, ◌++◌, ℕ, List, [], ◌∷◌, length};
ghost use Rattle.repo_api.specs.Accepted.{Accepted};
ghost use Rattle.access.specs.Points.{Point};
ghost use Rattle.wire_replies.specs.declared.reply.Reply.{Reply};
ghost use Rattle.machine.specs.{Settings.Settings, Stages.Stage, Steps.FeedLost, declared.env.Env.Env};
ghost use Rattle.conversations.specs.{Conversation.PiecesAt, Pieces.Piece};
ghost use Rattle.published.specs.{Events.{Event, IsHistory, changes_in, own_in, state_of}, Events.Event.Makes};
ghost use Rattle.session_pool.specs.Serving.{ServesInTurn, Stand};
ghost use Rattle.shared_runs.specs.{Histories.GoesOnWell, Own.{OwnInTurn, OwnOfBroken, OwnPieces}};

use access::SharedAccess;
use conversations::EnvSource;

/// Shows that what is an access's own, of the changes of the repository, is what the sessions that were served at it have asked
/// for by their inputs, in this order, each answered as the machine answers it: there is no other, and none is left out. So it
/// is of the pieces that one session was fed, of the inputs of the piece at which it broke off, and of sessions in turn.
pub fn own_changes_are_asked_for<A: SharedAccess, E: EnvSource>()
    ensures pieces { (s : Settings) (p : Point) (phase : Stage) (pieces : List Piece) (told : List Reply)
        (q : Point) (phase' : Stage) → PiecesAt A.rules s p phase pieces told q phase'
        → OwnPieces s phase pieces p.own q.own phase' }
    ensures broken { (s : Settings) (env : Env) (p : Point) (phase : Stage) (stream : List ℕ) (q : Point)
        (lost : FeedLost A.rules s env p phase stream q (λ _. Unit {0}))
        → OwnOfBroken s env lost.inputs lost.left phase p.own q.own }
    ensures turns { (old new : Stand E) → ServesInTurn A.rules E.gives old new
        → (turns : List (List Accepted)) × OwnInTurn old.settings old.point.own turns new.point.own }
{}

/// Shows that each change in the history of a shared repository, whoever made it, is what the sessions have asked for that were
/// served at the seat of its author: it stands among what they asked for, and so do those that this author made before it and
/// after it, in this order. The seat began with no change of its own, and knows the history for how far it has come.
pub fn changes_of_the_history_are_asked_for<A: SharedAccess, E: EnvSource>()
    ensures { (old new : Stand E) (author : ℕ) (before : List Event) (change : Accepted)
        (later : List Event) → ServesInTurn A.rules E.gives old new
        → old.point.own ≡ [] → new.point.own ≡ own_in author (before ++ Makes author change ∷ later)
        → (turns : List (List Accepted)) × OwnInTurn old.settings [] turns
        (own_in author before ++ change ∷ own_in author later) }
{}

/// Shows that, from each moment of the history of a shared repository to each later one, it goes on by the changes of the
/// events between, whoever made them, and by nothing else: each is accepted, no commit overwrites what was changed since its
/// base, locks are respected, and old revisions, their properties and the trees stay as they are to.
pub fn histories_go_on_well()
    ensures { (xs rest : List Event) → 0 < length xs → IsHistory (xs ++ rest)
        → GoesOnWell (state_of xs) (changes_in rest) (state_of (xs ++ rest)) }
{
    repo_laws::commits_keep_both_sides();
    repo_laws::changes_of_properties_keep_revisions();
    pathlocks::accepted_commits_hold_locks();
    pathlocks::unnamed_locks_stay();
    pathlocks::tokens_stay_distinct();
}

//! What holds of all that a stream brings. The functions do nothing: their contracts are the laws.
ghost use Rattle.std.specs.Prelude.{◌≡◌, ℕ, List, Bool, None, Result};
ghost use Rattle.traces.specs.declared.place.Place.{Place};
ghost use Rattle.wire_edits.specs.declared.editing.EditorCommand.{EditorCommand};
ghost use Rattle.wire_forms.specs.declared.fault.CommandFault.{CommandFault};
ghost use Rattle.repo_api.specs.States.{RepoState};
ghost use Rattle.machine.specs.{FileTexts.FollowInTurn, Settings.Settings, Stages.{Stage, EditRests, StandsOn}, Soundness.MeetBy};
ghost use Rattle.machine.specs.{Answers.{Answer, content_after}, Machine.{EditingStep, InputStep, MachineEdit, UnreleasedStep}};
ghost use Rattle.machine.specs.{Hearing.{Input, Yields, HasNoMore, EndsBroken}, declared.env.Env.Env, declared.phase.Phase.TheVariants.Editing};

/// Shows that a stream that has brought all that it does so far has brought these inputs and no others, and this is
/// left of it; and so up to the byte that goes on to no item, where it has one. A stream that has one never comes to
/// rest.
pub fn one_hearing()
    ensures settled { (stream : List ℕ) (xs ys : List Input) (rest end : List ℕ) → Yields stream xs rest
        → Yields stream ys end → HasNoMore rest → HasNoMore end → (xs ≡ ys) × (rest ≡ end) }
    ensures broken { (stream : List ℕ) (xs ys : List Input) (rest end : List ℕ) → Yields stream xs rest
        → Yields stream ys end → EndsBroken xs → EndsBroken ys → (xs ≡ ys) × (rest ≡ end) }
    ensures never_both { (stream : List ℕ) (xs ys : List Input) (rest end : List ℕ) → Yields stream xs rest
        → EndsBroken xs → Yields stream ys end → HasNoMore end → ⊥ }
{
    items::one_reading();
    items::one_fault();
    items::fault_is_answered_again();
}

/// Shows that a session's edit goes on to rest on what the repository contains.
pub fn steps_rest()
    ensures { (halted : Bool) (s : Settings) (env : Env) (c : RepoState) (phase : Stage) (input : Input) (a : Answer)
        → EditRests phase c → InputStep s env phase input halted c a → EditRests a.phase (content_after c a.effect) }
{}

/// Shows that where every tree of the repository is a tree whose marks name what they mark, and so is the tree of the
/// session's edit, which has seen revisions that exist, so it is after an input, and a commit that is accepted meets
/// the youngest revision well; and so too within an edit whatever was read for a text, and where memory is refused for
/// the release after a commit.
pub fn steps_keep_trees()
    ensures step { (halted : Bool) (s : Settings) (env : Env) (c : RepoState) (phase : Stage) (input : Input) (a : Answer)
        → StandsOn phase c → InputStep s env phase input halted c a
        → StandsOn a.phase (content_after c a.effect) × MeetBy c a.effect.changes }
    ensures read { (halted : Bool) (env : Env) (c : RepoState) (edit : MachineEdit) (r : Result EditorCommand CommandFault) (a : Answer)
        → StandsOn (Editing edit) c → EditingStep ⊥ env edit r halted c a
        → StandsOn a.phase (content_after c a.effect) × MeetBy c a.effect.changes }
    ensures unreleased { (halted : Bool) (env : Env) (c : RepoState) (phase : Stage) (input : Input) (a : Answer)
        → StandsOn phase c → UnreleasedStep env phase input halted c a
        → StandsOn a.phase (content_after c a.effect) × MeetBy c a.effect.changes }
{
    edit_rules::edits_keep_trees();
    repo_laws::accepted_commits_meet_well();
    repo_laws::commits_keep_both_sides();
}

/// Shows that of the revisions of a file that a client is told, the deltas one after another give each revision's text, and
/// where there is no delta it is the text of the one before.
pub fn file_texts_follow()
    ensures { (c : RepoState) (places : List Place) → FollowInTurn c None places }
{
    text_deltas::deltas_give_the_text();
}

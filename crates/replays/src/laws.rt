//! What holds of edits. The function does nothing: its contract is the law.
ghost use Rattle.std.specs.Prelude.{◌≡◌, ◌<◌, ◌≤◌, ℕ, List, Some, length, true};
ghost use Rattle.svnpath.specs.Paths.{PathValue};
ghost use Rattle.svndiff0.specs.Window.{limit};
ghost use Rattle.repo_api.specs.{Kinds.text_at, Soundness.AreTrees, States.RepoState};
ghost use Rattle.replays.specs.{Edits.edit_commands, Mirrors.LeadsToRevision, declared.ask.ReplayAsk.ReplayAsk};

/// Shows that the edit of a revision leads a mirror of the revision before to the revision: each of its commands finds what
/// it needs, whatever the revision's list of changes says.
pub fn edits_lead_to_their_revision()
    ensures { (c : RepoState) (ask : ReplayAsk) (r : ℕ) → AreTrees c.revisions
        → r < length c.revisions → ask.sends_deltas ≡ true
        → ((n : ℕ) (q : PathValue) (text : List ℕ) → text_at c n q ≡ Some text → length text ≤ limit)
        → LeadsToRevision c ask r (edit_commands c ask r) }
{
    text_deltas::deltas_give_the_text();
}

//! What holds of right changes. The functions do nothing: their contracts are the laws.
ghost use Rattle.std.specs.Prelude.{◌≡◌, None};
ghost use Rattle.repo_api.specs.{Accepted.Accepted.Commits, Commits.commit_refusal, Soundness.AreSound, States.{RepoState, TxnState}};
ghost use Rattle.repo_api.specs.{declared.ask.CommitAsk.CommitAsk, Transactions.MayCommit};
ghost use Rattle.published.specs.Changes.{IsRight};

/// Shows that an accepted commit of a sound transaction is right.
pub fn commits_are_right()
    ensures { (c : RepoState) (ask : CommitAsk) (t : TxnState) → AreSound c.revisions
        → MayCommit c t → commit_refusal c ask t ≡ None → IsRight c (Commits ask t) }
{
    repo_laws::accepted_commits_meet_well();
    repo_laws::commits_keep_both_sides();
}

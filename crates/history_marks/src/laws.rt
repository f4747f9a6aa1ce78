//! What marks tell of histories. The functions do nothing: their contracts are the laws.
ghost use Rattle.std.specs.{Prelude.{◌≡◌, ◌≤◌, ℕ, List, None, IsSome, length, min, take}, FinMap.get};
ghost use Rattle.svnpath.specs.Paths.{PathValue};
ghost use Rattle.repo_api.specs.{Accepted.{Accepted, changed, IsAccepted}, Commits.{commit_refusal, committed}, Histories.{History, history_of, IsQuietSince}};
ghost use Rattle.repo_api.specs.{Kinds.created_of, Marks.AreMarked, Opening.new_repository, RightEdits.IsRightEdit, Soundness.AreSound};
ghost use Rattle.repo_api.specs.States.{IsBeginning, IsBegun, IsEdited, RepoState, Revision, tree_at, tree_of, trees_in, TxnState, youngest};
ghost use Rattle.repo_api.specs.{Transactions.IsMarkedTxn, Trees.{IsTree, Tree}, declared.ask.CommitAsk.CommitAsk, declared.edit.EditOp.EditOp};
ghost use Rattle.history_marks.specs.{Quiet.{own_revision, IsMarkedBy, MarksLeadBack}, Settling.{HasNoLaterMark, or_zero}};
ghost use Rattle.history_marks.specs.{Sound.{IsMarkedRepo, IsSoundRepo, IsSoundTxn, IsSoundChange}, Transactions.IsToldTxn};

/// Shows that from the newest revision of the marks at and above a place up to the place's own revision nothing is
/// listed at, under or above it: a walk may go there at once.
pub fn marks_lead_back()
    ensures { (trees : ℕ → Tree) (h : History) → IsMarkedBy trees h → MarksLeadBack trees h }
{}

/// Shows that the marks of a new repository tell of its lists of changes.
pub fn new_repositories_are_marked()
    ensures { (uuid : ℕ) (date : List ℕ) → IsMarkedRepo (new_repository uuid date) }
{}

/// Shows that the marks of a transaction tell of its changes when it begins, and after each edit that may be made of
/// it, over revisions that go on from those last shown.
pub fn transactions_tell_changes()
    ensures begins { (c : RepoState) (t : TxnState) → IsBegun c t → IsToldTxn t }
    ensures edits { (shown : List Revision) (old : TxnState) (op : EditOp) (new : TxnState)
        → IsBeginning old.shown shown → IsTree (trees_in old.shown old.base)
        → IsTree (tree_of old.tree) → IsRightEdit (trees_in shown) (tree_of old.tree) op
        → IsEdited shown old op new → IsToldTxn old → IsToldTxn new }
{}

/// Shows that where the marks of a repository tell of its lists of changes, and those of a transaction of its changes,
/// they tell of that of the revision too that a commit adds, whatever it was merged with.
pub fn commits_mark_changes()
    ensures { (c : RepoState) (ask : CommitAsk) (t : TxnState) → AreMarked (trees_in c.revisions)
        → IsTree (trees_in c.revisions (youngest c)) → IsBeginning t.shown c.revisions
        → IsMarkedTxn t → IsTree (tree_of t.tree) → IsToldTxn t → commit_refusal c ask t ≡ None
        → IsMarkedRepo c → IsMarkedRepo (committed c ask t) }
{}

/// Shows that a transaction is sound when it begins in a sound repository, and after each edit that may be made of it,
/// over sound revisions that go on from those last shown.
pub fn transactions_stay_sound()
    ensures begins { (c : RepoState) (t : TxnState) → IsSoundRepo c → IsBegun c t → IsSoundTxn t }
    ensures edits { (shown : List Revision) (old : TxnState) (op : EditOp) (new : TxnState)
        → AreSound shown → IsBeginning old.shown shown
        → IsRightEdit (trees_in shown) (tree_of old.tree) op → IsEdited shown old op new
        → IsSoundTxn old → IsSoundTxn new }
{
    repo_laws::beginnings_are_trees();
}

/// Shows that a repository is sound when it is new, and after each change that is accepted, where a commit is of a
/// sound transaction.
pub fn repositories_stay_sound()
    ensures opens { (uuid : ℕ) (date : List ℕ) → IsSoundRepo (new_repository uuid date) }
    ensures changes { (c : RepoState) (e : Accepted) → IsSoundRepo c → IsAccepted c e
        → IsSoundChange c e → IsSoundRepo (changed c e) }
{
    repo_laws::opening_is_a_tree();
}

/// Shows that in a sound repository nothing was changed at, under or above what exists at a path after the newest of
/// the marks there and above. The marks above are those at the path's first names.
pub fn marks_settle()
    ensures quiet { (c : RepoState) (n : ℕ) (p : PathValue) (k : ℕ) → IsSoundRepo c
        → IsSome (get (tree_at c n) p) → HasNoLaterMark (tree_of (tree_at c n)) p k
        → IsQuietSince (history_of c) p (min n k) n }
    ensures walked { (t : Tree) (p : PathValue) (k : ℕ) → or_zero (created_of (t p)) ≤ k
        → ((names : ℕ) → names ≤ length p → or_zero (own_revision (t (take names p))) ≤ k)
        → HasNoLaterMark t p k }
{}

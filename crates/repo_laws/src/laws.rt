//! What holds of trees. The functions do nothing: their contracts are the laws.
ghost use Rattle.std.specs.{Prelude.{◌≡◌, ◌<◌, ℕ, true, false, length, List, ◌++◌, ◌∷◌, [], Option, Some, None, option_map}, FinMap.get};
ghost use Rattle.svnpath.specs.Paths.{PathValue};
ghost use Rattle.repo_api.specs.{Accepted.{Accepted, changed, IsAccepted}, Accepted.Accepted.ChangesProperty, Commits.{commit_refusal, committed, next_tree}};
ghost use Rattle.repo_api.specs.{Edits.{begun, edited}, LockRuns.{HasSameOtherwise, HasSameRevisions, is_of_locks}};
ghost use Rattle.repo_api.specs.Marks.{AreMarked, HasSource, IsFree, IsTransactionOf, KeepsTrees, last_of, MarksName, MeetWell, own_of, shown, with_tree};
ghost use Rattle.repo_api.specs.{Merge.{HasNoConflict, is_changed, merged, sealed}, Opening.opening_tree, Properties.is_same_value};
ghost use Rattle.repo_api.specs.{RevisionProperties.property_refusal, RightEdits.IsRightEdit, Soundness.AreTrees};
ghost use Rattle.repo_api.specs.States.{ChangeMap, IsBeginning, IsBegun, IsEdited, RepoState, Revision, tree_at, tree_of, trees_in, TxnState, youngest};
ghost use Rattle.repo_api.specs.{Transactions.IsMarkedTxn, Trees.{IsTree, Tree}, declared.ask.CommitAsk.CommitAsk};
ghost use Rattle.repo_api.specs.{declared.property_ask.PreviousValue.TheVariants.Exactly, declared.property_ask.PropertyAsk.PropertyAsk};
ghost use Rattle.repo_api.specs.{declared.entry.Mark.TheVariants.Made, declared.edit.EditOp.EditOp};
ghost use Rattle.refusals.specs.declared.Refusal.TheVariants as refusals;

/// Shows that the tree of a new repository is a tree.
pub fn opening_is_a_tree()
    ensures { IsTree (tree_of opening_tree) }
{}

/// Shows that a transaction begins from a tree.
pub fn beginnings_are_trees()
    ensures { (t : Tree) → IsTree t → IsTree (begun t) }
{}

/// Shows that an edit that may be made of a tree makes a tree, over revisions whose trees are trees.
pub fn edits_keep_trees()
    ensures { (revisions : List Revision) (t : Tree) (op : EditOp) → AreTrees revisions → IsTree t
        → IsRightEdit (trees_in revisions) t op → IsTree (edited (trees_in revisions) t op) }
{}

/// Shows that what has the same entries is the same tree.
pub fn same_entries_make_a_tree()
    ensures { (t u : Tree) → ((p : PathValue) → t p ≡ u p) → IsTree t → IsTree u }
{}

/// Shows that the marks of a new repository name what they mark.
pub fn opening_is_marked()
    ensures { (changes : ChangeMap)
        → AreMarked (trees_in (record { tree = opening_tree; changes = changes } ∷ [])) }
{}

/// Shows that in a transaction that begins at a revision, marks name what they mark.
pub fn beginnings_are_marked()
    ensures { (trees : ℕ → Tree) (n : ℕ) → AreMarked trees
        → IsTransactionOf trees (trees n) (begun (trees n)) }
{}

/// Shows that whatever edit is made, where what is copied exists, marks name what they mark.
pub fn edits_keep_marks()
    ensures { (trees : ℕ → Tree) (base t : Tree) (op : EditOp) → AreMarked trees
        → HasSource trees op → IsTransactionOf trees base t
        → IsTransactionOf trees base (edited trees t op) }
{}

/// Shows that an open transaction goes on where revisions are added.
pub fn new_revisions_keep_transactions()
    ensures { (old new : ℕ → Tree) (base : ℕ) (txn : Tree) → KeepsTrees old new → IsTree (old base)
        → IsTransactionOf old (old base) txn → IsTransactionOf new (new base) txn }
{}

/// Shows that with the revision that a merge adds, marks name what they mark.
pub fn merges_keep_marks()
    ensures { (trees : ℕ → Tree) (n base youngest : ℕ) (txn : Tree) → IsFree trees n
        → MeetWell trees base txn youngest
        → AreMarked (with_tree trees n (merged n (trees base) txn (trees youngest))) }
{}

/// Shows that a merge makes a tree.
pub fn merges_are_trees()
    ensures { (trees : ℕ → Tree) (n base youngest : ℕ) (txn : Tree)
        → MeetWell trees base txn youngest → IsTree (merged n (trees base) txn (trees youngest)) }
{}

/// Shows that a commit never overwrites what was changed since its base: each path that others changed stays as they
/// left it, and each path that the transaction changed is as the transaction left it.
pub fn merges_keep_both_sides()
    ensures theirs { (trees : ℕ → Tree) (n base youngest : ℕ) (txn : Tree)
        → MeetWell trees base txn youngest → (p : PathValue)
        → is_changed (trees base p) (trees youngest p) ≡ true
        → (shown (merged n (trees base) txn (trees youngest) p) ≡ shown (trees youngest p))
        × (own_of (merged n (trees base) txn (trees youngest) p) ≡ own_of (trees youngest p)) }
    ensures ours { (trees : ℕ → Tree) (n base youngest : ℕ) (txn : Tree)
        → MeetWell trees base txn youngest → (p : PathValue)
        → is_changed (trees base p) (txn p) ≡ true
        → shown (merged n (trees base) txn (trees youngest) p) ≡ shown (txn p) }
{}

/// Shows that a commit at whose time nobody else has committed since its base meets no conflict, and makes the
/// transaction's tree with its marks closed.
pub fn merges_with_the_base()
    ensures clean { (base txn : Tree) → HasNoConflict base txn base }
    ensures sealed { (trees : ℕ → Tree) (n base : ℕ) (txn : Tree) → MeetWell trees base txn base
        → (p : PathValue)
        → merged n (trees base) txn (trees base) p ≡ option_map (sealed n p) (txn p) }
{}

/// Shows that a closed mark names one thing wherever it stands: a `last` one subtree, an `own` one kind, properties and
/// text.
pub fn marks_name_one_thing()
    ensures lasts { (trees : ℕ → Tree) (x y : Tree) (p q : PathValue) (n : ℕ) (at : PathValue)
        → MarksName trees x → MarksName trees y → last_of (x p) ≡ Some (Made n at)
        → last_of (y q) ≡ Some (Made n at) → (rest : PathValue) → x (p ++ rest) ≡ y (q ++ rest) }
    ensures owns { (trees : ℕ → Tree) (x y : Tree) (p q : PathValue) (n : ℕ) (at : PathValue)
        → MarksName trees x → MarksName trees y → own_of (x p) ≡ Some (Made n at)
        → own_of (y q) ≡ Some (Made n at) → shown (x p) ≡ shown (y q) }
{}

/// Shows that a transaction begins among the revisions with its marks in order.
pub fn transactions_begin_marked()
    ensures { (c : RepoState) (t : TxnState) → AreMarked (trees_in c.revisions)
        → IsTree (trees_in c.revisions (youngest c)) → IsBegun c t → IsMarkedTxn t }
{}

/// Shows that an edit over revisions that go on from those last shown keeps a transaction's marks in order.
pub fn transactions_stay_marked()
    ensures { (shown : List Revision) (old : TxnState) (op : EditOp) (new : TxnState)
        → AreMarked (trees_in shown) → IsBeginning old.shown shown → HasSource (trees_in shown) op
        → IsMarkedTxn old → IsEdited shown old op new → IsMarkedTxn new }
{}

/// Shows that a commit that is accepted meets the youngest revision well.
pub fn accepted_commits_meet_well()
    ensures { (c : RepoState) (ask : CommitAsk) (t : TxnState) → AreMarked (trees_in c.revisions)
        → IsTree (trees_in c.revisions (youngest c)) → IsBeginning t.shown c.revisions
        → IsMarkedTxn t → IsTree (tree_of t.tree) → commit_refusal c ask t ≡ None
        → MeetWell (trees_in c.revisions) t.base (tree_of t.tree) (youngest c) }
{}

/// Shows that what an accepted commit adds is a tree, marks go on naming what they mark, and nothing that was changed
/// on either side since the base is lost.
pub fn commits_keep_both_sides()
    ensures tree { (c : RepoState) (t : TxnState)
        → MeetWell (trees_in c.revisions) t.base (tree_of t.tree) (youngest c)
        → IsTree (tree_of (next_tree c t)) }
    ensures marks { (c : RepoState) (ask : CommitAsk) (t : TxnState)
        → MeetWell (trees_in c.revisions) t.base (tree_of t.tree) (youngest c)
        → AreMarked (trees_in (committed c ask t).revisions) }
    ensures theirs { (c : RepoState) (t : TxnState)
        → MeetWell (trees_in c.revisions) t.base (tree_of t.tree) (youngest c) → (p : PathValue)
        → is_changed (get (tree_at c t.base) p) (get (tree_at c (youngest c)) p) ≡ true
        → (shown (get (next_tree c t) p) ≡ shown (get (tree_at c (youngest c)) p))
        × (own_of (get (next_tree c t) p) ≡ own_of (get (tree_at c (youngest c)) p)) }
    ensures ours { (c : RepoState) (t : TxnState)
        → MeetWell (trees_in c.revisions) t.base (tree_of t.tree) (youngest c) → (p : PathValue)
        → is_changed (get (tree_at c t.base) p) (get t.tree p) ≡ true
        → shown (get (next_tree c t) p) ≡ shown (get t.tree p) }
{}

/// Shows that a lock, an unlock and a release change the locks alone: no revision, no property of one, and not the
/// repository's name. So what is sound stays sound.
pub fn changes_of_locks_keep_revisions()
    ensures { (c : RepoState) (e : Accepted) → is_of_locks e ≡ true
        → HasSameRevisions c (changed c e) }
{}

/// Shows that a change of a property of a revision changes the properties of that revision alone: no tree, no list of
/// changes, no property of another revision, no lock, and not the repository's name.
pub fn changes_of_properties_keep_revisions()
    ensures { (c : RepoState) (ask : PropertyAsk)
        → HasSameOtherwise ask.revision c (changed c (ChangesProperty ask)) }
{}

/// Shows that once a property of a revision was given a value, a change of it that asks for another value before is
/// refused. So of two clients that have seen one value, and ask for it, one alone changes it.
pub fn changes_from_one_value_exclude_each_other()
    ensures { (c : RepoState) (first second : PropertyAsk) (value : List ℕ)
        (previous : Option (List ℕ)) → IsAccepted c (ChangesProperty first)
        → first.revision < length c.properties → first.value ≡ Some value
        → second.revision ≡ first.revision → second.name ≡ first.name
        → second.previous ≡ Exactly previous → is_same_value (Some value) previous ≡ false
        → property_refusal (changed c (ChangesProperty first)) second
        ≡ Some refusals.PreviousValueDiffers }
{}

//! What holds of locks. The functions do nothing: their contracts are the laws.
ghost use Rattle.std.specs.{Prelude.{◌≡◌, ℕ, true, false, IsTrue, List, Option, Some, None}, FinMap.{get, empty, insert, remove}, List.list_any};
ghost use Rattle.svnpath.specs.Paths.{PathValue, same_path};
ghost use Rattle.repo_api.specs.{Accepted.{Accepted, changed_all}, Commits.commit_refusal, LockRuns.{HaveNewTokens, HaveOwnTokens, names_lock}};
ghost use Rattle.repo_api.specs.Locking.{after_release, check_refusal, HandedTokens, is_handed_in, is_in_the_way, released, releases};
ghost use Rattle.repo_api.specs.{States.{ChangeMap, LockMap, RepoState, TxnState}, declared.lock.Lock.Lock, declared.ask.CommitAsk.CommitAsk};

/// Shows that, where no lock refuses a commit, each lock in its way is its user's, and its token was handed in.
pub fn locks_in_the_way_are_held()
    ensures { (locks : LockMap) (changes : ChangeMap) (user : Option (List ℕ))
        (tokens : HandedTokens)
        → check_refusal locks changes user tokens ≡ None → (p : PathValue) (l : Lock)
        → get locks p ≡ Some l → is_in_the_way changes p ≡ true
        → (user ≡ Some l.owner) × IsTrue (is_handed_in tokens l.token) }
{}

/// Shows that a lock, an unlock and a release leave the locks at paths that they do not name as they were.
pub fn other_locks_stay()
    ensures locks { (locks : LockMap) (p q : PathValue) (l : Lock) → same_path p q ≡ false
        → get (insert locks p l) q ≡ get locks q }
    ensures unlocks { (locks : LockMap) (p q : PathValue) → same_path p q ≡ false
        → get (remove locks p) q ≡ get locks q }
    ensures releases { (locks : LockMap) (user : Option (List ℕ)) (tokens : HandedTokens)
        (q : PathValue)
        → list_any (λ t. same_path t.0 q) tokens ≡ false
        → get (after_release user tokens locks) q ≡ get locks q }
{}

/// Shows that a release that takes no lock changes nothing.
pub fn a_release_of_none_changes_nothing()
    ensures asked { (locks : LockMap) (user : Option (List ℕ)) (tokens : HandedTokens)
        → releases user tokens locks ≡ false → after_release user tokens locks ≡ locks }
    ensures taken { (locks : LockMap) (user : Option (List ℕ)) (tokens : HandedTokens)
        → released user tokens locks ≡ empty → after_release user tokens locks ≡ locks }
{}

/// Shows that each lock in the way of an accepted commit is its user's, and its token was handed in.
pub fn accepted_commits_hold_locks()
    ensures { (c : RepoState) (ask : CommitAsk) (t : TxnState) → commit_refusal c ask t ≡ None
        → (p : PathValue) (l : Lock) → get c.locks p ≡ Some l → is_in_the_way t.changes p ≡ true
        → (ask.author ≡ Some l.owner) × IsTrue (is_handed_in ask.tokens l.token) }
{}

/// Shows that what stands at a path that no change names as its lock's stays through changes, whatever they are.
pub fn unnamed_locks_stay()
    ensures { (c : RepoState) (changes : List Accepted) (p : PathValue)
        → list_any (λ e. names_lock e p) changes ≡ false
        → get (changed_all c changes).locks p ≡ get c.locks p }
{}

/// Shows that, where no two locks have one token, and each new lock has a token that none has then, no two locks come
/// to have one.
pub fn tokens_stay_distinct()
    ensures { (c : RepoState) (changes : List Accepted) → HaveOwnTokens c.locks
        → HaveNewTokens c changes → HaveOwnTokens (changed_all c changes).locks }
{}

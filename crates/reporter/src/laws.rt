//! What holds of reports. The functions do nothing: their contracts are the laws.
ghost use Rattle.std.specs.Prelude.{◌≡◌, ℕ, true, false, List, [], ◌∷◌, ◌++◌, length, drop, option_and_then, Some};
ghost use Rattle.svnpath.specs.Paths.{is_at_or_under, PathValue};
ghost use Rattle.repo_api.specs.{Soundness.AreTrees, States.{RepoState, Revision}, Trees.Tree};
ghost use Rattle.small_rules.specs.GivingWay.{gives_way};
ghost use Rattle.drive_rules.specs.{Scopes.HoldsTogether, declared.depth.Depth.TheVariants.Infinity};
ghost use Rattle.reporter.specs.{Places.AllHoldTogether, Reported.{reported, reported_entries}, Targets.{WholeReport, client_tree, goal_path, is_apart}};
ghost use Rattle.reporter.specs.{Targets.{is_stale, is_stale_token, old_tree, new_tree, target_entries, target_tree}, declared.graft.Graft.Graft};
ghost use Rattle.reporter.specs.declared.graft.Subtree.{Subtree};

/// Shows that what exists in a revision exists in a directory of it, wherever each tree is a tree.
pub fn revisions_hold_together()
    ensures { (rs : List Revision) → AreTrees rs → AllHoldTogether rs }
{}

/// Shows that, whatever is reported, what exists in the reported tree exists in a directory of it, from the target on.
pub fn reported_trees_hold_together()
    ensures { (trees : ℕ → Tree) (top : PathValue) (grafts : List Graft)
        → ((n : ℕ) → HoldsTogether [] (trees n))
        → HoldsTogether top (reported_entries (reported trees top grafts)) }
{}

/// Shows that what exists in one of the two trees of a drive exists in a directory of it, from the target on, wherever
/// each tree of the repository is a tree.
pub fn drive_trees_hold_together()
    ensures { (c : RepoState) (report : WholeReport) → AreTrees c.revisions
        → HoldsTogether report.ask.target (old_tree c report)
        × HoldsTogether report.ask.target (new_tree c report) }
{}

/// Shows that a client of the other kind is led to the goal, whatever it reports of links: what it is to have is what is
/// there, what gives way to it does not stay, and its tokens are judged there.
pub fn others_are_led_to_the_goal()
    ensures { (c : RepoState) (report : WholeReport) (q : PathValue)
        → report.ask.is_of_today ≡ false
        → (target_entries c report q ≡ target_tree c report.ask q)
        × (is_apart c report q ≡ gives_way (old_tree c report q) (new_tree c report q))
        × (is_stale c report q ≡ is_stale_token c.locks (goal_path report.ask q)
        (target_tree c report.ask q)
        (option_and_then (λ h. h.token) (client_tree c report q))) }
{}

/// Shows that, of a report of the target alone, of all that is in it, the client has what its revision has.
pub fn whole_reports_are_revisions()
    ensures { (trees : ℕ → Tree) (g : Graft) (s : Subtree) (q : PathValue)
        → g.subtree ≡ Some s → s.starts_empty ≡ false → s.depth ≡ Infinity
        → is_at_or_under q g.path ≡ true
        → reported_entries (reported trees g.path (g ∷ [])) q
        ≡ trees s.revision (g.from ++ drop (length g.path) q) }
{}

//! What holds of histories. The functions do nothing: their contracts are the laws.
ghost use Rattle.std.specs.Prelude.{ℕ, List};
ghost use Rattle.repo_api.specs.{Histories.History, States.RepoState};
ghost use Rattle.history.specs.{Dates.dated_rev, Laws.{TracesFall, LogsAreRight, AreOnTraces, IsGreatestDated}};

/// Shows that along a trace the revisions fall.
pub fn traces_fall()
    ensures { (h : History) → TracesFall h }
{}

/// Shows that what a log lists is between the two revisions, each once and in order, and on one of the traces.
pub fn logs_are_right()
    ensures { (h : History) → LogsAreRight h }
{}

/// Shows that a location is on the trace of the place, or the place is on that of the location.
pub fn locations_are_on_traces()
    ensures { (c : RepoState) → AreOnTraces c }
{}

/// Shows that the dated revision is the greatest that is not dated after the date.
pub fn dated_revisions_are_greatest()
    ensures { (c : RepoState) (date : List ℕ) → IsGreatestDated c date (dated_rev c date) }
{}

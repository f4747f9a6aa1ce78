//! What holds of what entries are told. The functions do nothing: their contracts are the laws.
ghost use Rattle.std.specs.Prelude.{◌≡◌, ℕ, true, Bool, List, Option};
ghost use Rattle.svnpath.specs.Paths.{PathValue};
ghost use Rattle.repo_api.specs.{declared.entry.Entry.Entry, States.RepoState};
ghost use Rattle.drive_rules.specs.Steps.{is_entry_property};
ghost use Rattle.reporter.specs.{declared.ask.Purpose.Purpose, Targets.{WholeReport, old_tree, new_tree}, EntryProperties.{entry_property, told}, Sent.seen_by};
ghost use Rattle.drive_visits.specs.Walks.{LeadsOver};
ghost use Rattle.drive_news.specs.News.{news_of, news_steps, own_steps_of};

/// Shows that what entries are told leads from what the client has of each to what it is to have.
pub fn news_lead()
    ensures { (c : RepoState) (report : WholeReport) → LeadsOver (seen_by report.ask.purpose)
        (old_tree c report) (new_tree c report) (own_steps_of c report) }
{}

/// Shows that what an entry is told by an entry property is what is due.
pub fn entry_properties_are_told()
    ensures { (c : RepoState) (purpose : Purpose) (stale : Bool) (old : Option Entry)
        (e : Entry) (q : PathValue) (name : List ℕ) → is_entry_property name ≡ true
        → told q name (news_steps q (news_of c purpose stale old e))
        ≡ entry_property c stale e name }
{}

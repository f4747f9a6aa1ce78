//! Whether what a client has may stay by lines of history.
ghost use Rattle.std.specs.Prelude.{◌≡◌, true, option_copied, IfOk};
ghost use Rattle.history.specs.Logs.{place_at};
ghost use Rattle.reporter.specs.{Aims.{counts_ancestry, is_of_line, keeps_line, may_change_line}, Targets.client_tree};
ghost use Rattle.drive_sides.specs.{Known.IsHadAt, Lines.{KeepsLines, KeepsLinesBeside}, OnTrees.on_trees};

use crate::pairs::EntryPair;
use crate::two_trees::TwoTrees;
use byte_string::ByteString;
use drive_news::Place;
use history::{are_one_line_beneath, are_one_line_beside, is_one_line};
use repo_api::Repository;
use reporter::{DriveAsk, Graft, ReportedPlace};
use std::alloc::{AllocError, Global};
use std::collections::BTreeSet;
use svnpath::Path;

/// Copies a path of a revision, as a place of the history.
fn history_place(revision: u64, path: &Path) -> Result<history::Place, AllocError>
    ensures { IfOk result (λ place. place ≡ place_at revision path.now) }
{
    Ok(history::Place {
        path: path.clone()?,
        revision,
    })
}

/// Says whether ancestry counts: a client of today asks, and does not say that it is to be ignored.
fn counts_ancestry(ask: &DriveAsk) -> bool
    ensures { result ≡ counts_ancestry ask.now }
{
    ask.is_of_today && !ask.ignores_ancestry
}

/// Says whether what keeps its kind at a path stays where it is of another line of history.
fn may_change_line(ask: &DriveAsk, link: Option<&Graft>, path: &Path) -> bool
    ensures { result ≡ may_change_line ask.now (option_copied link.entry) path.now }
{
    !counts_ancestry(ask) || link.is_some() || path.is_root()
}

/// Says whether lines of history let everything stay at and beneath two places: ancestry does not count, or all that is
/// at and beneath both is of one line. A `false` answer is always right.
pub(crate) fn keeps_lines<R: Repository>(
    alloc: Global,
    view: &R,
    ask: &DriveAsk,
    one: Place<'_>,
    two: Place<'_>,
) -> Result<bool, AllocError>
    ensures { IfOk result (λ all. all ≡ true → KeepsLines (R.content view.now) ask.now
        (place_at one.entry.revision one.entry.path.now)
        (place_at two.entry.revision two.entry.path.now)) }
{
    if !counts_ancestry(ask) {
        return Ok(true);
    }
    let older = history_place(one.revision, one.path)?;
    let newer = history_place(two.revision, two.path)?;
    are_one_line_beneath(alloc, view, &older, &newer)
}

/// Says whether lines of history let everything stay at and beneath the two places of a pair, but for what is beneath them by
/// these names. A `false` answer is always right.
pub(crate) fn keeps_lines_beside<R: Repository>(
    alloc: Global,
    view: &R,
    ask: &DriveAsk,
    names: &BTreeSet<ByteString>,
    pair: EntryPair<'_>,
) -> Result<bool, AllocError>
    ensures { IfOk result (λ all. all ≡ true
        → KeepsLinesBeside names.now.keys (R.content view.now) ask.now
        (place_at pair.entry.revision pair.entry.old.now) (place_at ask.now.revision pair.entry.new.now)) }
{
    if !counts_ancestry(ask) {
        return Ok(true);
    }
    let older = history_place(pair.revision, pair.old)?;
    let newer = history_place(ask.revision, pair.new)?;
    are_one_line_beside(alloc, view, names, &older, &newer)
}

impl<'a, R: Repository> TwoTrees<'a, R> {
    /// Says whether what the client has at a path is of one line of history with what is at a goal.
    fn is_of_line(
        &self,
        alloc: Global,
        path: &Path,
        had: &Option<ReportedPlace>,
        goal: &Path,
    ) -> Result<bool, AllocError>
        requires { on_trees self.now IsHadAt path.now had.now }
        ensures { IfOk result (λ one. one ≡ is_of_line (R.content self.now.view.now)
            self.now.report.now.ask (on_trees self.now client_tree path.now) goal.now) }
    {
        let Some(had) = had else {
            return Ok(false);
        };
        let older = history_place(had.revision, &had.path)?;
        let newer = history_place(self.report.ask.revision, goal)?;
        is_one_line(alloc, self.view, &older, &newer)
    }

    /// Says whether what the client has at a path may stay by lines of history: it may change its line, as where a link
    /// leads the path, or it is of one line with what is at the goal.
    pub(crate) fn keeps_line(
        &self,
        alloc: Global,
        path: &Path,
        link: Option<&Graft>,
        had: &Option<ReportedPlace>,
        goal: &Path,
    ) -> Result<bool, AllocError>
        requires { on_trees self.now IsHadAt path.now had.now }
        ensures { IfOk result (λ keeps. keeps ≡ keeps_line (R.content self.now.view.now)
            self.now.report.now.ask (option_copied link.entry) path.now
            (on_trees self.now client_tree path.now) goal.now) }
    {
        if may_change_line(&self.report.ask, link, path) {
            return Ok(true);
        }
        self.is_of_line(alloc, path, had, goal)
    }
}

//! What the entries of a drive are told, and what else is to be known of them.
ghost use Rattle.std.specs.Prelude.{◌≡◌, true, IfOk, option_and_then, option_copied, option_map};
ghost use Rattle.repo_api.specs.Trees.{text_of};
ghost use Rattle.drive_visits.specs.Knowing.{IsKnown};
ghost use Rattle.reporter.specs.{Reported.ReportedEntry, Targets.{client_tree, drive_scope, due_in, is_stale, is_to_be_opened, is_written_anew, keeps_report}};
ghost use Rattle.reporter.specs.Targets.{new_tree, old_tree, stale_in};
ghost use Rattle.drive_news.specs.{News.{news_at, news_of}, Places.entry_had};
ghost use Rattle.drive_sides.specs.{Depths.IsOfPlace, Known.IsKnownOf, OnTrees.on_trees};

use crate::known::DrivePlace;
use crate::scope::asks_for_all;
use crate::two_trees::TwoTrees;
use crate::views::had_at;
use drive_news::{Had, News, Place, Sight, news_of};
use repo_api::{FileText, Repository};
use reporter::{DriveAsk, ReportedPlace, is_to_the_end};
use std::alloc::{AllocError, Global};

/// Says whether a client writes a directory down anew when it is opened, by what it has there.
fn is_written_anew(ask: &DriveAsk, had: &ReportedPlace) -> bool
    ensures { (h : ReportedEntry) → IsOfPlace had.now h → result ≡ is_written_anew ask.now h }
{
    had.kind.is_directory()
        && (had.starts_empty || (asks_for_all(ask.depth) && !is_to_the_end(had.depth)))
}

impl<'a, R: Repository> TwoTrees<'a, R> {
    /// Says whether what is reported of a path holds of what is to be there: of a client of today only where it stays.
    pub(crate) fn keeps_report(&self, place: &DrivePlace) -> bool
        requires { IsKnown (on_trees self.now IsKnownOf) place.now }
        ensures { result ≡ on_trees self.now keeps_report place.now.path }
    {
        !self.report.ask.is_of_today || place.known.stays
    }

    /// Says whether the client's token of a path is stale.
    fn is_stale(&self, place: &DrivePlace) -> bool
        requires { IsKnown (on_trees self.now IsKnownOf) place.now }
        ensures { result ≡ on_trees self.now is_stale place.now.path }
    {
        if !self.keeps_report(place) {
            return false;
        }
        let Some(had) = &place.known.had else {
            return false;
        };
        let Some(token) = &had.token else {
            return false;
        };
        if !self.kind_to_be(place).is_present() {
            return false;
        }
        match self.view.lock_at(&place.known.goal) {
            None => true,
            Some(lock) => &lock.token != token,
        }
    }

    /// Says whether a client of today is to open a directory that stays, so that it writes it down anew.
    fn is_to_be_opened(&self, place: &DrivePlace) -> bool
        requires { IsKnown (on_trees self.now IsKnownOf) place.now }
        ensures { result ≡ on_trees self.now is_to_be_opened place.now.path }
    {
        let ask = &self.report.ask;
        if !ask.is_of_today || !place.known.stays {
            return false;
        }
        match &place.known.had {
            None => false,
            Some(had) => is_written_anew(ask, had),
        }
    }

    /// Says whether a path of the drive is due: the client's token of it is stale, or it is to be opened.
    pub(crate) fn is_due_unchanged(&self, place: &DrivePlace) -> bool
        requires known { IsKnown (on_trees self.now IsKnownOf) place.now }
        requires scope { on_trees self.now drive_scope place.now.path ≡ true }
        ensures { result ≡ on_trees self.now due_in place.now.path }
    {
        self.is_stale(place) || self.is_to_be_opened(place)
    }

    /// Gives the revision that the client reports of what it has at a path.
    pub fn reported_revision(&self, place: &DrivePlace) -> Option<u64>
        requires { IsKnown (on_trees self.now IsKnownOf) place.now }
        ensures { result ≡ option_map (λ h. h.revision)
            (on_trees self.now client_tree place.now.path) }
    {
        match &place.known.had {
            None => None,
            Some(had) => Some(had.revision),
        }
    }

    /// Finds the text that the client has of a path of the drive, if it has a file there.
    pub fn had_text(&self, place: &DrivePlace) -> Option<&FileText>
        requires { IsKnown (on_trees self.now IsKnownOf) place.now }
        ensures { on_trees self.now drive_scope place.now.path ≡ true
            → option_copied result ≡ text_of (on_trees self.now old_tree place.now.path) }
    {
        match &place.known.had {
            None => None,
            Some(had) => self.view.text(had.revision, &had.path),
        }
    }

    /// Gives what an entry of the drive is told of itself, beside what is had of it, if any is.
    fn news_over(
        &self,
        alloc: Global,
        place: &DrivePlace,
        old: Option<Had<'_>>,
    ) -> Result<Option<News>, AllocError>
        requires scope { on_trees self.now drive_scope place.now.path ≡ true }
        requires known { IsKnown (on_trees self.now IsKnownOf) place.now }
        ensures { IfOk result (λ found. found ≡ option_map (news_of (R.content self.now.view.now)
            self.now.report.now.ask.purpose (on_trees self.now stale_in place.now.path)
            (option_and_then (entry_had (R.content self.now.view.now)) old.entry))
            (on_trees self.now new_tree place.now.path)) }
    {
        if !self.kind_to_be(place).is_present() {
            return Ok(None);
        }
        let ask = &self.report.ask;
        let sight = Sight {
            purpose: ask.purpose,
            is_stale: self.is_stale(place),
            old,
            new: Place {
                revision: ask.revision,
                path: &place.known.goal,
            },
        };
        news_of(alloc, self.view, sight)
    }

    /// Gives what an entry of the drive is told of itself, opened or anew.
    fn news_of_place(
        &self,
        alloc: Global,
        place: &DrivePlace,
        is_anew: bool,
    ) -> Result<Option<News>, AllocError>
        requires scope { on_trees self.now drive_scope place.now.path ≡ true }
        requires known { IsKnown (on_trees self.now IsKnownOf) place.now }
        ensures { IfOk result (λ found. found ≡ option_map
            (on_trees self.now news_at place.now.path is_anew)
            (on_trees self.now new_tree place.now.path)) }
    {
        if is_anew {
            return self.news_over(alloc, place, None);
        }
        match &place.known.had {
            None => self.news_over(alloc, place, None),
            Some(had) => self.news_over(alloc, place, Some(had_at(had))),
        }
    }

    /// Gives what an entry is told of itself, opened or anew.
    pub fn news(
        &self,
        alloc: Global,
        place: &DrivePlace,
        is_anew: bool,
    ) -> Result<Option<News>, AllocError>
        requires { IsKnown (on_trees self.now IsKnownOf) place.now }
        ensures { IfOk result (λ found. found ≡ option_map
            (on_trees self.now news_at place.now.path is_anew)
            (on_trees self.now new_tree place.now.path)) }
    {
        if !self.is_in_scope(alloc, &place.path)? {
            return Ok(None);
        }
        self.news_of_place(alloc, place, is_anew)
    }
}

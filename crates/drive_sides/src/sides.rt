//! The two trees of a drive, as a walk over them asks.
use crate::known::{DriveKnown, DrivePlace, drive_place_copied};
use crate::leading::is_apart;
use crate::names::{children_of, put_graft_names, put_names, put_place_names};
use crate::pairs::{are_one_pair, key_of};
use crate::reach::Reach;
use crate::two_trees::TwoTrees;
use crate::views::had_at;
use byte_string::ByteString;
use drive_news::{Place, entries_differ};
use drive_visits::{Kinds, Sides};
use repo_api::{NodeKind, Repository};
use std::alloc::{AllocError, Global};
use std::collections::BTreeSet;
use svnpath::Path;

impl<'a, R: Repository> TwoTrees<'a, R> {
    ghost use Rattle.std.specs.Prelude.{◌≡◌, ◌∷◌, ◌++◌, [], false, true, is_some, IfOk, OnOk};
    ghost use Rattle.svnpath.specs.Paths.{Component};
    ghost use Rattle.repo_api.specs.Readings.{is_name_among};
    ghost use Rattle.reporter.specs.{Places.is_grafted_over, Targets.{client_tree, drive_scope, new_tree, old_tree}, Sent.counts_changes};
    ghost use Rattle.drive_sides.specs.{Known.IsKnownOf, Names.{NameNew, NameTarget}, OnTrees.on_trees, Plans.drive_trees};
    ghost use Rattle.drive_visits.specs.{Knowing.IsKnown, Walks.IsListed};
    ghost use Rattle.drive_news.specs.Places.{Compares};

    /// Finds the names of what is to exist straight beneath a path, as far as the client does not have it.
    fn target_names(
        &self,
        alloc: Global,
        place: &DrivePlace,
    ) -> Result<BTreeSet<ByteString>, AllocError>
        requires { IsKnown (on_trees self.now IsKnownOf) place.now }
        ensures { IfOk result (λ names. on_trees self.now (NameTarget names.keys) place.now.path) }
    {
        let mut names = BTreeSet::new(alloc);
        let revision = self.report.ask.revision;
        put_names(self.view, revision, &place.known.goal, &mut names)?;
        Ok(names)
    }

    /// Puts the names of what the client has straight beneath a path, but for those of grafts
    /// there, among others.
    fn put_client_names(
        &self,
        place: &DrivePlace,
        names: &mut BTreeSet<ByteString>,
    ) -> Result<(), AllocError>
        requires { IsKnown (on_trees self.now IsKnownOf) place.now }
        ensures keeps { OnOk result ((c : Component) → is_name_among names.old.keys c ≡ true
            → is_name_among names.new.keys c ≡ true) }
        ensures adds { OnOk result ((c : Component)
            → is_grafted_over self.now.report.now.grafts place.now.path (place.now.path ++ c ∷ []) ≡ false
            → is_some (on_trees self.now client_tree place.now.path) ≡ true
            → is_some (on_trees self.now client_tree (place.now.path ++ c ∷ [])) ≡ true
            → is_name_among names.new.keys c ≡ true) }
    {
        match &place.known.had {
            None => Ok(()),
            Some(had) => put_place_names(self.view, had, names),
        }
    }

    /// Makes the paths of what a directory has on either side. The names are those of what is to exist there, as far as
    /// the client does not have it.
    fn listed(
        &self,
        alloc: Global,
        place: &DrivePlace,
        new: BTreeSet<ByteString>,
    ) -> Result<Vec<Path>, AllocError>
        requires known { IsKnown (on_trees self.now IsKnownOf) place.now }
        requires new { on_trees self.now (NameNew new.keys) place.now.path }
        ensures { IfOk result (λ v. IsListed (on_trees self.now drive_trees) place.now.path v.items) }
    {
        let mut names = new;
        self.put_client_names(place, &mut names)?;
        put_graft_names(self.report.grafts.as_slice(), &place.path, &mut names)?;
        children_of(alloc, &place.path, names)
    }

    /// Makes the paths of what a directory has on either side.
    pub(crate) fn child_paths(
        &self,
        alloc: Global,
        place: &DrivePlace,
    ) -> Result<Vec<Path>, AllocError>
        requires { IsKnown (on_trees self.now IsKnownOf) place.now }
        ensures { IfOk result (λ v. IsListed (on_trees self.now drive_trees) place.now.path v.items) }
    {
        match self.reach(alloc, &place.path)? {
            Reach::NoChild => Ok(Vec::new(alloc)),
            Reach::ChildHad => self.listed(alloc, place, BTreeSet::new(alloc)),
            Reach::AnyChild => {
                let names = self.target_names(alloc, place)?;
                self.listed(alloc, place, names)
            }
        }
    }

    /// Says whether an entry of the drive differs on both sides.
    fn differs(&self, alloc: Global, place: &DrivePlace) -> Result<bool, AllocError>
        requires scope { on_trees self.now drive_scope place.now.path ≡ true }
        requires known { IsKnown (on_trees self.now IsKnownOf) place.now }
        ensures { IfOk result (λ answer. Compares
            (counts_changes self.now.report.now.ask.purpose) answer
            (on_trees self.now old_tree place.now.path) (on_trees self.now new_tree place.now.path)) }
    {
        let ask = &self.report.ask;
        match &place.known.had {
            None => Ok(self.kind_to_be(place).is_present()),
            Some(had) => {
                if !self.kind_to_be(place).is_present() {
                    return Ok(true);
                }
                let new = Place {
                    revision: ask.revision,
                    path: &place.known.goal,
                };
                entries_differ(alloc, self.view, ask.purpose, had_at(had), new)
            }
        }
    }
}

impl<'a, R: Repository> Sides for TwoTrees<'a, R> {
    ghost use Rattle.drive_sides.specs.{Bounds.path_bound, BoundLaws.new_is_shorter, Known.IsKnownOf, LeadLaws.news_leads, OnTrees.on_trees};
    ghost use Rattle.drive_sides.specs.Plans.{drive_trees, whole};

    type Known = DriveKnown;

    ghost trees = { λ s. on_trees s drive_trees };

    ghost start = { λ s. s.report.now.ask.target };

    ghost knows = { λ s. on_trees s IsKnownOf };

    ghost bound = { λ s. on_trees s path_bound };

    ghost ends = { λ s. new_is_shorter (R.content s.view.now) (whole s.report.now s.root) };

    ghost leads = { λ s. news_leads (R.content s.view.now) (whole s.report.now s.root) };

    fn top(&self, alloc: Global) -> Result<DrivePlace, AllocError> {
        self.top_place(alloc)
    }

    fn kinds(&self, alloc: Global, place: &DrivePlace) -> Result<Kinds, AllocError> {
        if !self.is_in_scope(alloc, &place.path)? {
            return Ok(Kinds {
                old: NodeKind::Absent,
                new: NodeKind::Absent,
                is_apart: false,
            });
        }
        let old = self.kind_had(place);
        Ok(Kinds {
            old,
            new: self.kind_to_be(place),
            is_apart: is_apart(old, place.known.stays),
        })
    }

    fn children(&self, alloc: Global, place: &DrivePlace) -> Result<Vec<Path>, AllocError> {
        self.child_paths(alloc, place)
    }

    fn reached(
        &self,
        alloc: Global,
        from: &DrivePlace,
        path: Path,
    ) -> Result<DrivePlace, AllocError> {
        if path == from.path {
            return drive_place_copied(from);
        }
        self.child_place(alloc, from, path)
    }

    fn unlike_children(
        &self,
        alloc: Global,
        place: &DrivePlace,
    ) -> Result<Vec<DrivePlace>, AllocError> {
        let paths = self.paths_holding_unlike(alloc, place)?;
        self.unlike_places(alloc, place, paths)
    }

    fn pair_key(&self, _alloc: Global, place: &DrivePlace) -> Result<Option<u64>, AllocError> {
        match self.pair_at(place) {
            None => Ok(None),
            Some(pair) => Ok(Some(key_of(self.view, self.report.ask.revision, pair))),
        }
    }

    fn is_same_pair(
        &self,
        alloc: Global,
        place: &DrivePlace,
        other: &DrivePlace,
    ) -> Result<bool, AllocError> {
        let Some(one) = self.pair_at(place) else {
            return Ok(false);
        };
        match self.pair_at(other) {
            None => Ok(false),
            Some(two) => are_one_pair(alloc, self.view, &self.report.ask, one, two),
        }
    }

    fn is_due(&self, alloc: Global, place: &DrivePlace) -> Result<bool, AllocError> {
        if !self.is_in_scope(alloc, &place.path)? {
            return Ok(false);
        }
        Ok(self.is_due_unchanged(place) || self.differs(alloc, place)?)
    }

    fn copied(&self, place: &DrivePlace) -> Result<DrivePlace, AllocError> {
        drive_place_copied(place)
    }
}

//! The paths that a drive is of.
ghost use Rattle.std.specs.Prelude.{◌≡◌, true, Option, IfOk};
ghost use Rattle.svnpath.specs.Paths.{is_at_or_under};
ghost use Rattle.repo_api.specs.{Kinds.kind_of, declared.entry.Entry.Entry};
ghost use Rattle.drive_rules.specs.Scopes.{depth_added, depth_said, includes, includes_child, keeps_reported, own_or_inherited, top_limit};
ghost use Rattle.reporter.specs.{Depths.asks_for_all, Targets.{client_tree, counted_entries, depth_inherited, depth_kept, drive_limit, drive_scope}};
ghost use Rattle.reporter.specs.Targets.{first_depth, is_hidden, reported_depth, target_entries};
ghost use Rattle.drive_visits.specs.{Knowing.IsKnown, Walks.IsChild};
ghost use Rattle.drive_sides.specs.{Known.IsKnownOf, OnTrees.on_trees, Pairs.IsOfAll, Plans.whole, Depths.{depth_at, FollowsWholeReport, Reaches}};

use crate::known::DrivePlace;
use crate::leading::kind_if;
use crate::reach::{Reach, reach_of};
use crate::two_trees::TwoTrees;
use drive_rules::Depth;
use repo_api::{NodeKind, Repository};
use reporter::{DepthAsked, DriveAsk, depth_below, is_excluded_at, is_to_the_end};
use std::alloc::{AllocError, Global};
use svnpath::Path;

/// Says whether a directory of this depth brings in a child, by what it was and what it is to be.
fn includes_child(depth: Depth, old: NodeKind, new: NodeKind) -> bool
    ensures { (e f : Option Entry) → old ≡ kind_of e → new ≡ kind_of f
        → result ≡ includes_child depth e f }
{
    match depth {
        Depth::Empty => false,
        Depth::Files => old.is_file() || new.is_file(),
        Depth::Immediates | Depth::Infinity => true,
    }
}

/// Gives what a client of today takes a directory for that is added in a directory of a depth.
fn depth_added(above: Depth) -> Depth
    ensures { result ≡ depth_added above }
{
    match above {
        Depth::Immediates => Depth::Empty,
        Depth::Infinity => Depth::Infinity,
        Depth::Files => Depth::Infinity,
        Depth::Empty => Depth::Infinity,
    }
}

/// Gives what a directory inherits of its parent's depth.
fn depth_inherited(ask: &DriveAsk, above: Depth) -> Depth
    ensures { result ≡ depth_inherited ask.now above }
{
    if ask.is_of_today {
        depth_added(above)
    } else {
        depth_below(above)
    }
}

/// Gives the depth that was said of a directory, or else what it inherits of its parent's.
fn own_or_inherited(ask: &DriveAsk, said: Option<Depth>, above: Depth) -> Depth
    ensures { result ≡ own_or_inherited (depth_inherited ask.now) said above }
{
    match said {
        Some(depth) => depth,
        None => depth_inherited(ask, above),
    }
}

/// Says whether everything is asked for.
pub(crate) fn asks_for_all(depth: DepthAsked) -> bool
    ensures { result ≡ asks_for_all depth }
{
    match depth {
        DepthAsked::AsReported => false,
        DepthAsked::Given(given) => is_to_the_end(given),
    }
}

/// Says whether as much is asked for as was reported.
fn asks_as_reported(depth: DepthAsked) -> bool
    ensures { result ≡ true → depth ≡ DepthAsked.AsReported }
{
    match depth {
        DepthAsked::AsReported => true,
        DepthAsked::Given(_) => false,
    }
}

impl<'a, R: Repository> TwoTrees<'a, R> {
    /// Gives the depth that was reported of a directory.
    fn reported_depth(&self, place: &DrivePlace) -> Option<Depth>
        requires { IsKnown (on_trees self.now IsKnownOf) place.now }
        ensures { result ≡ reported_depth (on_trees self.now client_tree) place.now.path }
    {
        match &place.known.had {
            None => None,
            Some(had) => {
                if had.kind.is_directory() {
                    Some(had.depth)
                } else {
                    None
                }
            }
        }
    }

    /// Gives the depth that was reported of a directory, where that holds of what is to be there.
    fn depth_kept(&self, place: &DrivePlace) -> Option<Depth>
        requires { IsKnown (on_trees self.now IsKnownOf) place.now }
        ensures { result ≡ on_trees self.now depth_kept place.now.path }
    {
        if self.keeps_report(place) {
            self.reported_depth(place)
        } else {
            None
        }
    }

    /// Gives the depth that was said of a directory.
    fn own_depth(&self, place: &DrivePlace) -> Option<Depth>
        requires { IsKnown (on_trees self.now IsKnownOf) place.now }
        ensures { result ≡ depth_said (on_trees self.now drive_limit) place.now.path }
    {
        match self.report.ask.depth {
            DepthAsked::Given(_) => None,
            DepthAsked::AsReported => self.depth_kept(place),
        }
    }

    /// Gives the depth of a target of which none was reported that holds.
    fn first_depth(&self, top: &DrivePlace) -> Depth
        requires known { IsKnown (on_trees self.now IsKnownOf) top.now }
        requires top { top.now.path ≡ self.now.report.now.ask.target }
        ensures { result ≡ on_trees self.now first_depth }
    {
        if top.known.had.is_some() && !self.keeps_report(top) {
            Depth::Infinity
        } else {
            self.root.depth
        }
    }

    /// Gives the depth of the top.
    fn top_limit(&self, top: &DrivePlace) -> Depth
        requires known { IsKnown (on_trees self.now IsKnownOf) top.now }
        requires top { top.now.path ≡ self.now.report.now.ask.target }
        ensures { result ≡ top_limit (on_trees self.now drive_limit)
            self.now.report.now.ask.target }
    {
        match self.report.ask.depth {
            DepthAsked::Given(depth) => depth,
            DepthAsked::AsReported => match self.depth_kept(top) {
                Some(depth) => depth,
                None => self.first_depth(top),
            },
        }
    }

    /// Says whether a drive as deep as was reported is of a path because the client has it.
    fn keeps_reported(&self, old: NodeKind) -> bool
        ensures { (e : Option Entry) → old ≡ kind_of e
            → result ≡ keeps_reported (on_trees self.now drive_limit) e }
    {
        match self.report.ask.depth {
            DepthAsked::Given(_) => false,
            DepthAsked::AsReported => old.is_present(),
        }
    }

    /// Gives the kind of what counts of what the client has in a directory.
    fn counted_kind(&self, place: &DrivePlace, child: &DrivePlace) -> NodeKind
        requires place { IsKnown (on_trees self.now IsKnownOf) place.now }
        requires child { IsKnown (on_trees self.now IsKnownOf) child.now }
        requires inside { IsChild place.now.path child.now.path }
        ensures { result ≡ kind_of (on_trees self.now counted_entries child.now.path) }
    {
        kind_if(self.holder_at(place).counts, self.kind_had(child))
    }

    /// Says whether a directory of this depth lets its child into the scope.
    fn includes(&self, depth: Depth, place: &DrivePlace, child: &DrivePlace) -> bool
        requires place { IsKnown (on_trees self.now IsKnownOf) place.now }
        requires child { IsKnown (on_trees self.now IsKnownOf) child.now }
        requires inside { IsChild place.now.path child.now.path }
        ensures { result ≡ includes (on_trees self.now drive_limit)
            (on_trees self.now counted_entries) (on_trees self.now target_entries) depth
            child.now.path }
    {
        let old = self.counted_kind(place, child);
        includes_child(depth, old, self.kind_to_be(child)) || self.keeps_reported(old)
    }

    /// Says whether the client excludes a path in a directory, and something is to exist there.
    fn is_hidden(
        &self,
        alloc: Global,
        place: &DrivePlace,
        child: &DrivePlace,
    ) -> Result<bool, AllocError>
        requires place { IsKnown (on_trees self.now IsKnownOf) place.now }
        requires child { IsKnown (on_trees self.now IsKnownOf) child.now }
        requires inside { IsChild place.now.path child.now.path }
        ensures { IfOk result (λ hidden. hidden ≡ on_trees self.now is_hidden child.now.path) }
    {
        if !self.holder_at(place).counts {
            return Ok(false);
        }
        if !child.known.kind.is_present() {
            return Ok(false);
        }
        is_excluded_at(alloc, &self.report.grafts, &child.path)
    }

    /// Says whether the names from the target down to a path stay in scope.
    fn stays_in_scope(&self, alloc: Global, path: &Path) -> Result<bool, AllocError>
        requires { is_at_or_under path.now self.now.report.now.ask.target ≡ true }
        ensures { IfOk result (λ answer. answer ≡ on_trees self.now drive_scope path.now) }
    {
        let target = self.report.ask.target.as_path();
        let mut here = self.top_place(alloc)?;
        let mut depth = self.top_limit(&here);
        for name in &path.components()[target.len()..] {
            let child = here.path.child(alloc, name.clone()?)?;
            let next = self.child_place(alloc, &here, child)?;
            if self.is_hidden(alloc, &here, &next)? {
                return Ok(false);
            }
            if !self.includes(depth, &here, &next) {
                return Ok(false);
            }
            depth = own_or_inherited(&self.report.ask, self.own_depth(&next), depth);
            here = next;
        }
        Ok(true)
    }

    /// Says whether as much is asked for as was reported, and everything was reported.
    fn follows_whole_report(&self) -> bool
        ensures { result ≡ true → FollowsWholeReport (whole self.now.report.now self.now.root) }
    {
        asks_as_reported(self.report.ask.depth)
            && is_to_the_end(self.root.depth)
            && !self.report.grafts.has_shallow()
    }

    /// Says whether the drive is surely of everything at and under its target.
    pub(crate) fn is_of_all(&self) -> bool
        ensures { result ≡ true → on_trees self.now IsOfAll }
    {
        if self.report.grafts.has_excluded() {
            return false;
        }
        asks_for_all(self.report.ask.depth) || self.follows_whole_report()
    }

    /// Says whether a drive is of a path.
    pub(crate) fn is_in_scope(&self, alloc: Global, path: &Path) -> Result<bool, AllocError>
        ensures { IfOk result (λ answer. answer ≡ on_trees self.now drive_scope path.now) }
    {
        let ask = &self.report.ask;
        if !path.is_at_or_under(ask.target.as_path()) {
            return Ok(false);
        }
        if self.is_of_all() {
            return Ok(true);
        }
        self.stays_in_scope(alloc, path)
    }

    /// Finds how deep a drive goes from a directory at or under its target.
    fn depth_at(&self, alloc: Global, path: &Path) -> Result<Depth, AllocError>
        requires { is_at_or_under path.now self.now.report.now.ask.target ≡ true }
        ensures { IfOk result (λ d. d ≡ on_trees self.now depth_at path.now) }
    {
        let target = self.report.ask.target.as_path();
        let mut here = self.top_place(alloc)?;
        let mut depth = self.top_limit(&here);
        for name in &path.components()[target.len()..] {
            let child = here.path.child(alloc, name.clone()?)?;
            here = self.child_place(alloc, &here, child)?;
            depth = own_or_inherited(&self.report.ask, self.own_depth(&here), depth);
        }
        Ok(depth)
    }

    /// Says which children of a directory a drive can be of.
    pub(crate) fn reach(&self, alloc: Global, path: &Path) -> Result<Reach, AllocError>
        ensures { IfOk result (λ reach. on_trees self.now (Reaches reach) path.now) }
    {
        let ask = &self.report.ask;
        if !path.is_at_or_under(ask.target.as_path()) {
            return Ok(Reach::AnyChild);
        }
        if self.is_of_all() {
            return Ok(Reach::AnyChild);
        }
        let depth = self.depth_at(alloc, path)?;
        Ok(reach_of(depth, ask.depth))
    }
}

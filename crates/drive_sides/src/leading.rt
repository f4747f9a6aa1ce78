//! Where a path of a drive is led, by what its directory says.
ghost use Rattle.std.specs.Prelude.{◌≡◌, ◌&&◌, None, not, Option, is_some, option_copied, IfOk, if◌then◌else◌};
ghost use Rattle.repo_api.specs.{Kinds.kind_of, declared.entry.Entry.Entry};
ghost use Rattle.reporter.specs.{Aims.{are_of_one_kind, entry_led}, Links.led_to, Targets.client_entries};
ghost use Rattle.drive_sides.specs.{Known.{IsHadAt, IsLedFrom}, OnTrees.on_trees};

use crate::known::{DriveKnown, DrivePlace};
use crate::two_trees::TwoTrees;
use drive_visits::KnownPath;
use repo_api::{NodeKind, Repository};
use reporter::{Graft, ReportedPlace, link_at};
use small_rules::gives_way;
use std::alloc::{AllocError, Global};
use std::mem::drop;
use svnpath::Path;

/// What the directory of a path says of it: whether what was reported of the path counts, and whether something may exist
/// there.
#[derive(Clone, Copy)]
pub struct Holder {
    pub(crate) counts: bool,
    pub(crate) may_stand: bool,
}

/// Gives the path of the repository that a path is led to: that of its link, or else its own.
fn led_to(own: Path, link: Option<&Graft>) -> Result<Path, AllocError>
    ensures { IfOk result (λ goal. goal ≡ led_to own (option_copied link.entry)) }
{
    match link {
        None => Ok(own),
        Some(link) => {
            drop(own);
            link.from.clone()
        }
    }
}

/// Gives a kind, or that of nothing, where something does not hold.
pub(crate) fn kind_if(holds: bool, kind: NodeKind) -> NodeKind
    ensures { (e : Option Entry) → kind ≡ kind_of e → result ≡ kind_of (if holds then e else None) }
{
    if holds { kind } else { NodeKind::Absent }
}

/// Says whether a directory exists on both sides, or a file on both.
fn are_of_one_kind(old: NodeKind, new: NodeKind) -> bool
    ensures { (e f : Option Entry) → old ≡ kind_of e → new ≡ kind_of f
        → result ≡ are_of_one_kind e f }
{
    old.is_present() && !gives_way(old, new)
}

/// Says whether what the client has at a path is apart: there is something, and it does not stay.
pub(crate) fn is_apart(old: NodeKind, stays: bool) -> bool
    ensures { (e : Option Entry) → old ≡ kind_of e → result ≡ (is_some e && not stays) }
{
    old.is_present() && !stays
}

/// Gives the kind of what is to exist at a path: at a link, only of what is of the kind that the client has.
fn kind_led(link: Option<&Graft>, old: NodeKind, there: NodeKind) -> NodeKind
    ensures { (e f : Option Entry) → old ≡ kind_of e → there ≡ kind_of f
        → result ≡ kind_of (entry_led (option_copied link.entry) e f) }
{
    match link {
        None => there,
        Some(_) => kind_if(are_of_one_kind(old, there), there),
    }
}

impl<'a, R: Repository> TwoTrees<'a, R> {
    /// Gives the kind of what the client has at a path, by where that comes from.
    pub(crate) fn kind_at(&self, path: &Path, had: &Option<ReportedPlace>) -> NodeKind
        requires { on_trees self.now IsHadAt path.now had.now }
        ensures { result ≡ kind_of (on_trees self.now client_entries path.now) }
    {
        match had {
            None => NodeKind::Absent,
            Some(place) => place.kind,
        }
    }

    /// Finds what is known of a path, by what its directory says of it and by its own path of the repository.
    pub(crate) fn place_from(
        &self,
        alloc: Global,
        path: Path,
        own: Path,
        holder: Holder,
    ) -> Result<DrivePlace, AllocError>
        ensures { IfOk result (on_trees self.now IsLedFrom holder own path) }
    {
        let had = self.client_place(alloc, &path)?;
        let link = link_at(alloc, self.report, holder.counts, &path)?;
        let goal = led_to(own, link)?;
        let there = kind_if(
            holder.may_stand,
            self.view.kind(self.report.ask.revision, &goal),
        );
        let old = kind_if(holder.counts, self.kind_at(&path, &had));
        let kind = kind_led(link, old, there);
        let stays = are_of_one_kind(old, kind) && self.keeps_line(alloc, &path, link, &had, &goal)?;
        Ok(KnownPath {
            path,
            known: DriveKnown {
                goal,
                kind,
                had,
                stays,
            },
        })
    }
}

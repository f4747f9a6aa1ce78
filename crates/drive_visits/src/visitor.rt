//! The visits of a drive, made as they are asked for.
use crate::making::{next_found, unvisited_below, unvisited_top};
use crate::memory::Memory;
use crate::sides::Sides;
use crate::unvisited::{Found, Unvisited};
use crate::visit::KnownVisit;
use std::alloc::{AllocError, Global};
use std::collections::VecDeque;

/// The visits of a drive, made as they are asked for: it keeps the directories that are open, the
/// innermost first, each with what is not visited in it, and what was found out of paths that were searched. So it takes no
/// more memory than these directories have entries, and the paths that it remembers, however many paths the drive names.
pub struct Visitor<K: Drop> {
    open: VecDeque<Unvisited<K>>,
    memory: Memory<K>,
}

impl<K: Drop> Drop for Visitor<K> {
    fn drop(self) {
        let Visitor { open: _, memory: _ } = self;
    }
}

impl<K: Drop> Visitor<K> {
    ghost use Rattle.std.specs.Prelude.{◌≡◌, ◌∷◌, [], false, IfOk, IfSome, List, MatchOption, OnOk, option_map};
    ghost use Rattle.repo_api.specs.Trees.{HasDirectory};
    ghost use Rattle.drive_visits.specs.{Knowing.{AreLeftKnown, HoldsKnown, IsVisitKnown, visit_of}, Left.{behind, IsRootPlan, IsTopPlan}};
    ghost use Rattle.drive_visits.specs.{Visiting.{MayVisit, IsNew, IsNext}, Visits.Visit, declared.visit.KnownVisit.TheVariants.Close};

    /// Makes the visits of a drive of the whole tree: what it does below the root, which is opened
    /// before.
    pub fn of_root<S: Sides<Known = K>>(alloc: Global, sides: &S) -> Result<Self, AllocError>
        requires root { S.start sides.now ≡ [] }
        requires old { HasDirectory (S.trees sides.now).old [] }
        requires new { HasDirectory (S.trees sides.now).new [] }
        requires stays { (S.trees sides.now).apart [] ≡ false }
        ensures plan { IfOk result (λ v. (vs : List Visit) → MayVisit (S.trees sides.now) v vs
            → IsRootPlan (S.trees sides.now) vs) }
        ensures known { IfOk result (HoldsKnown (S.knows sides.now)) }
    {
        let top = sides.top(alloc)?;
        let below = unvisited_below(alloc, sides, &top, false)?;
        Visitor::of(alloc, below)
    }

    /// Makes the visits of a drive from its top on.
    pub fn of_top<S: Sides<Known = K>>(alloc: Global, sides: &S) -> Result<Self, AllocError>
        ensures plan { IfOk result (λ v. (vs : List Visit) → MayVisit (S.trees sides.now) v vs
            → IsTopPlan (S.trees sides.now) (S.start sides.now) vs) }
        ensures known { IfOk result (HoldsKnown (S.knows sides.now)) }
    {
        let here = unvisited_top(alloc, sides)?;
        Visitor::of(alloc, here)
    }

    /// Makes the visits of one directory.
    fn of(alloc: Global, here: Unvisited<K>) -> Result<Self, AllocError>
        ensures { IfOk result (λ v. IsNew v here) }
    {
        let mut open = VecDeque::new(alloc);
        open.push_front(here)?;
        Ok(Visitor {
            open,
            memory: Memory::new(alloc),
        })
    }

    /// Gives the next visit, with what is known of the path of an entry that it enters. After the last there is none, and after an error none is to be asked
    /// for. The two sides are those that the visitor was made for.
    ///
    /// # Errors
    ///
    /// `AllocError` when out of memory.
    pub fn next<S: Sides<Known = K>>(
        &mut self,
        alloc: Global,
        sides: &S,
    ) -> Result<Option<KnownVisit<K>>, AllocError>
        requires { HoldsKnown (S.knows sides.now) self.old }
        ensures next { IfOk result (λ found. IsNext (S.trees sides.now) self.old self.new
            (option_map visit_of found)) }
        ensures visit { IfOk result (λ found. IfSome found (IsVisitKnown (S.knows sides.now))) }
        ensures known { OnOk result (HoldsKnown (S.knows sides.now) self.new) }
    {
        let Some(mut here) = self.open.pop_front() else {
            return Ok(None);
        };
        match next_found(alloc, sides, &mut self.memory, &mut here)? {
            Found::Nothing => Ok(self.closed()),
            Found::Single(visit) => {
                self.open.push_front(here)?;
                Ok(Some(visit))
            }
            Found::Entered(visit, below) => {
                self.open.push_front(here)?;
                self.open.push_front(below)?;
                Ok(Some(visit))
            }
        }
    }

    /// Gives the visit that closes a directory, unless it was the last.
    fn closed(&self) -> Option<KnownVisit<K>>
        ensures end { MatchOption result (self.now.open.items ≡ []) (λ visit. (vs : List Visit)
            → behind self.now.open.items vs ≡ visit_of visit ∷ vs) }
        ensures close { IfSome result (λ visit. visit ≡ Close) }
    {
        if self.open.is_empty() {
            None
        } else {
            Some(KnownVisit::Close)
        }
    }
}

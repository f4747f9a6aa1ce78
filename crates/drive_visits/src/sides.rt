//! Two trees side by side.
ghost use Rattle.std.specs.Prelude.{◌≡◌, ℕ, true, IfOk, MatchBool};
ghost use Rattle.svnpath.specs.Paths.{PathValue};
ghost use Rattle.drive_visits.specs.Knowing.{AreKnown, IsKnown, IsKnownAt, IsReached, paths_of};
ghost use Rattle.drive_visits.specs.Walks.{WalkedTrees, IsSame, IsSamePair, IsShorter, AreUnlikeListed, LeadsOver, AreKindsAt, IsListed, IsDue};

use crate::kinds::Kinds;
use crate::known_path::KnownPath;
use std::alloc::{AllocError, Global};
use svnpath::Path;

/// Two trees side by side: what the client has, and what it is to have.
pub trait Sides {
    /// What is known of a path, in addition to the path.
    type Known: Drop;

    /// Both trees, which entries are due and which are apart, and what entries are told.
    ghost trees: { Self → WalkedTrees };

    /// The path that a walk begins at.
    ghost start: { Self → PathValue };

    /// What is known of a path is so.
    ghost knows: { Self → Self.Known → PathValue → Type 0 };

    /// No path of what it is to have is this long.
    ghost bound: { Self → ℕ };

    ghost ends: { (s : Self) → IsShorter (trees s).new (bound s) };

    /// What an entry is told leads from what it was to what it is to be.
    ghost leads: { (s : Self) → LeadsOver (trees s).counts.seen (trees s).old (trees s).new (trees s).own };

    /// Gives the path that a walk begins at, with what is known of it.
    fn top(&self, alloc: Global) -> Result<KnownPath<Self::Known>, AllocError>
        ensures { IfOk result (IsKnownAt (knows self.now) (start self.now)) };

    /// Says what exists at the path on both sides, and whether it is apart.
    fn kinds(&self, alloc: Global, place: &KnownPath<Self::Known>) -> Result<Kinds, AllocError>
        requires { IsKnown (knows self.now) place.now }
        ensures { IfOk result (AreKindsAt (trees self.now) place.now.path) };

    /// Gives the paths of what a directory has on either side.
    fn children(
        &self,
        alloc: Global,
        place: &KnownPath<Self::Known>,
    ) -> Result<Vec<Path>, AllocError>
        requires { IsKnown (knows self.now) place.now }
        ensures { IfOk result (λ v. IsListed (trees self.now) place.now.path v.items) };

    /// Finds what is known of a path that is this one or in it.
    fn reached(
        &self,
        alloc: Global,
        from: &KnownPath<Self::Known>,
        path: Path,
    ) -> Result<KnownPath<Self::Known>, AllocError>
        requires known { IsKnown (knows self.now) from.now }
        requires near { IsReached from.now.path path }
        ensures { IfOk result (IsKnownAt (knows self.now) path) };

    /// Gives the paths of what a directory has on either side, but for such at and under which all is the same, with nothing
    /// due or apart, each with what is known of it. One too many is always right, and makes the walk longer.
    fn unlike_children(
        &self,
        alloc: Global,
        place: &KnownPath<Self::Known>,
    ) -> Result<Vec<KnownPath<Self::Known>>, AllocError>
        requires { IsKnown (knows self.now) place.now }
        ensures listed { IfOk result (λ v. AreUnlikeListed (trees self.now) place.now.path (paths_of v.items)) }
        ensures known { IfOk result (λ v. AreKnown (knows self.now) v.items) };

    /// Gives a number to look up the pair of entries at a path by, or `None` if it is not one to be remembered. Nothing
    /// but the time of a walk rests on it.
    fn pair_key(
        &self,
        alloc: Global,
        place: &KnownPath<Self::Known>,
    ) -> Result<Option<u64>, AllocError>
        requires { IsKnown (knows self.now) place.now };

    /// Says whether the pairs of entries at two paths are one, so that all beneath them is the same. A false answer is
    /// always right, and makes the walk longer.
    fn is_same_pair(
        &self,
        alloc: Global,
        place: &KnownPath<Self::Known>,
        other: &KnownPath<Self::Known>,
    ) -> Result<bool, AllocError>
        requires one { IsKnown (knows self.now) place.now }
        requires other { IsKnown (knows self.now) other.now }
        ensures { IfOk result (λ same. same ≡ true
            → IsSamePair (trees self.now) place.now.path other.now.path) };

    /// Says whether something is to be said of the entry itself.
    fn is_due(&self, alloc: Global, place: &KnownPath<Self::Known>) -> Result<bool, AllocError>
        requires { IsKnown (knows self.now) place.now }
        ensures { IfOk result (λ due. MatchBool due (IsDue (trees self.now) place.now.path)
            (IsSame (trees self.now) place.now.path)) };

    /// Copies a path, with what is known of it.
    fn copied(&self, place: &KnownPath<Self::Known>) -> Result<KnownPath<Self::Known>, AllocError>
        requires { IsKnown (knows self.now) place.now }
        ensures { IfOk result (IsKnownAt (knows self.now) place.now.path) };
}

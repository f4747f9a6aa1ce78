//! The paths of a replay, with what is known of them.
ghost use Rattle.std.specs.Prelude.{◌≡◌, ◌<◌, ◌+◌, ◌++◌, ◌∷◌, [], ℕ, IfOk};
ghost use Rattle.repo_api.specs.{Histories.history_of, States.RepoState};
ghost use Rattle.replays.specs.{Places.{child_of, run_at}, Shaping.base_of};

use crate::listing::run_of;
use crate::places::{Shape, child_of, copied};
use byte_string::ByteString;
use repo_api::Change;
use std::alloc::{AllocError, Global};
use svnpath::Path;
use traces::Place;

/// A path of a replay: where the client has what is there, if it has it; what the revision's list has at the path and
/// beneath it; and how many names deeper the replay goes.
#[derive(Drop)]
pub(crate) struct Spot<'a> {
    pub(crate) path: Path,
    pub(crate) place: Option<Place>,
    pub(crate) run: &'a [(Path, Change)],
    pub(crate) levels: usize,
}

/// Finds what is known of an entry of a directory.
pub(crate) fn spot_in<'a>(
    alloc: Global,
    here: &Spot<'a>,
    name: ByteString,
) -> Result<Spot<'a>, AllocError>
    requires { 0 < here.now.levels }
    ensures path { IfOk result (λ spot. spot.path ≡ here.now.path ++ name ∷ []) }
    ensures place { IfOk result (λ spot. spot.place ≡ child_of name here.now.place) }
    ensures run { IfOk result (λ spot. (c : RepoState) (n : ℕ)
        → here.now.run.now ≡ run_at (history_of c n) here.now.path
        → spot.run.now ≡ run_at (history_of c n) spot.path) }
    ensures levels { IfOk result (λ spot. here.now.levels ≡ spot.levels + 1) }
{
    let place = child_of(alloc, &name, &here.place)?;
    let path = here.path.child(alloc, name)?;
    let run = run_of(here.run, &path);
    Ok(Spot {
        path,
        place,
        run,
        levels: here.levels - 1,
    })
}

/// Gives what is known of an entry once it was opened or added: the client has what it keeps or has copied.
pub(crate) fn spot_entered<'a>(spot: &Spot<'a>, shape: &Shape) -> Result<Spot<'a>, AllocError>
    ensures path { IfOk result (λ here. here.path ≡ spot.now.path) }
    ensures place { IfOk result (λ here. here.place ≡ base_of shape.now) }
    ensures run { IfOk result (λ here. here.run.now ≡ spot.now.run.now) }
    ensures levels { IfOk result (λ here. here.levels ≡ spot.now.levels) }
{
    let place = match shape.base() {
        None => None,
        Some(base) => Some(copied(base)?),
    };
    let path = spot.path.clone()?;
    Ok(Spot {
        path,
        place,
        run: spot.run,
        levels: spot.levels,
    })
}

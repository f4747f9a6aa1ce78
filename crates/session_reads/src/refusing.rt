//! Refusals at paths. Where one of these fails, a part of what it says was written.
ghost use Rattle.std.specs.Prelude.{◌≡◌, ◌∷◌, [], IfOk, Some, option_copied};
ghost use Rattle.machine.specs.Answers.{failure_at};
ghost use Rattle.wire_replies.specs.Sinks.{Says};

use machine::failure_at;
use refusals::Refusal;
use std::alloc::AllocError;
use svnpath::Path;
use wire_replies::{ReplySink, say_new};

/// Writes that a command of a client of today, or of another, is refused at a path.
pub(crate) fn tell_refusal_at<S: ReplySink>(
    is_of_today: bool,
    refusal: Refusal,
    path: &Path,
    out: &mut S,
) -> Result<(), AllocError>
    ensures { Says result (S.writes out.old out.new)
        (failure_at is_of_today refusal (Some path.now) ∷ []) }
{
    match path.clone() {
        Ok(path) => say_new(failure_at(is_of_today, refusal, Some(path)), out),
        Err(error) => Err(error),
    }
}

/// Copies a path, if there is one.
pub(crate) fn copied(path: Option<&Path>) -> Result<Option<Path>, AllocError>
    ensures { IfOk result (λ copy. copy ≡ option_copied path.entry) }
{
    match path {
        None => Ok(None),
        Some(path) => Ok(Some(path.clone()?)),
    }
}

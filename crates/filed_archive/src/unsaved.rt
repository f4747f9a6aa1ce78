//! A change that was made and is yet to be saved.
ghost use Rattle.std.specs.Prelude.{◌≡◌, IfOk, None};
ghost use Rattle.repo_api.specs.Accepted.{IsJudged};

use repo_api::ChangeFault;
use stored_repository::{Filed, NewProperties, NewRevision};

/// What a change writes.
#[derive(Drop)]
pub enum ChangedFiles {
    Revision(NewRevision),
    /// The file of the locks.
    Locks(Vec<u8>),
    Properties(NewProperties),
}

/// A change that is yet to be saved: the repository behind it, and what it writes.
#[derive(Drop)]
pub struct Unsaved<F: Drop> {
    pub next: F,
    pub files: ChangedFiles,
}

/// Makes a change that is yet to be saved, with another hold of the repository after it.
pub(crate) fn with_hold<F: Filed>(
    next: F,
    files: ChangedFiles,
) -> Result<(F, Unsaved<F>), ChangeFault>
    ensures judged { IsJudged result None }
    ensures made { IfOk result (λ made. (F.content made.0 ≡ F.content next)
        × (made.1.next ≡ next) × (made.1.files ≡ files)) }
{
    match next.share() {
        Ok(shown) => Ok((shown, Unsaved { next, files })),
        Err(_) => {
            std::mem::drop((next, files));
            Err(ChangeFault::NoMemory)
        }
    }
}

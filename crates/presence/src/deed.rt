//! What a client has done.

use byte_string::ByteString;
use refusals::Refusal;
use repo_api::ChangeFault;
use svnpath::Path;

/// What a client has done to a repository, or what has kept it from that.
#[derive(Clone, Copy)]
pub enum Deed<'a> {
    /// It has committed this revision.
    Commits(u64),
    /// It has locked a file.
    Locks(&'a Path),
    /// It has taken the lock of a file away.
    Unlocks(&'a Path),
    /// It has changed the property of this name, of this revision.
    ChangesProperty(u64, &'a ByteString),
    /// A change was refused, at this path, if it was at one.
    IsRefused(Refusal, Option<&'a Path>),
    /// A change was not made because the store failed, now or before.
    MeetsFailure,
}

/// Says what a change has come to that was not made; nothing is to be said where memory ran out.
pub(crate) fn failed_deed<'a>(fault: ChangeFault, path: Option<&'a Path>) -> Option<Deed<'a>> {
    match fault {
        ChangeFault::Refused(refusal) => Some(Deed::IsRefused(refusal, path)),
        ChangeFault::StoreFailed | ChangeFault::Halted => Some(Deed::MeetsFailure),
        ChangeFault::NoMemory => None,
    }
}

/// Says what a change has come to, which is this deed if it was made.
pub(crate) fn deed_of<'a>(
    deed: Deed<'a>,
    path: Option<&'a Path>,
    done: Result<(), ChangeFault>,
) -> Option<Deed<'a>> {
    match done {
        Ok(()) => Some(deed),
        Err(fault) => failed_deed(fault, path),
    }
}

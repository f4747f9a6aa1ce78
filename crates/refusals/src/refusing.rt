//! How a client is told that a path or a URL is none.
ghost use Rattle.std.specs.Prelude.{◌≡◌};
ghost use Rattle.refusals.specs.Refusing.{path_refusal};

use crate::Refusal;
use svnpath::PathFault;

/// Says how a client is told that a path or a URL is invalid.
pub fn path_refusal(fault: PathFault) -> Refusal
    ensures { result ≡ path_refusal fault }
{
    match fault {
        PathFault::EmptyComponent => Refusal::BadPath,
        PathFault::ForbiddenComponent => Refusal::BadPath,
        PathFault::TooLong => Refusal::BadPath,
        PathFault::TooDeep => Refusal::BadPath,
        PathFault::NotThisRepository => Refusal::NoSuchRepository,
        PathFault::NoMemory => Refusal::BadPath,
    }
}

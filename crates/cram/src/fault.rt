use std::alloc::{AllocError, AllocFailed};
use thiserror::Error;

/// Why a login or a file of users is refused. No fault tells anything of a password.
#[derive(Clone, Copy, Debug, Error, PartialEq, Eq)]
pub enum CramFault {
    /// The answer isn't a name, one space and 32 lower-case hexadecimal digits.
    #[error("malformed answer")]
    MalformedAnswer,
    /// No user has the name.
    #[error("unknown user")]
    UnknownUser,
    /// The digits aren't those of the digest under the user's password.
    #[error("wrong password")]
    WrongPassword,
    /// The first line of the file that breaks a rule, counted from 1.
    #[error("bad users file, line {0}")]
    BadUsers(usize),
    /// Memory has run out.
    #[error("out of memory")]
    NoMemory,
}

impl From<AllocError> for CramFault {
    ghost use Rattle.std.specs.Prelude.{◌≡◌};
    ghost use Rattle.cram.specs.declared.fault.CramFault.TheVariants.{NoMemory};

    ghost from_gives = { λ _ e. e ≡ NoMemory };

    fn from(_error: AllocError) -> CramFault {
        CramFault::NoMemory
    }
}

impl<T: Drop> From<AllocFailed<T>> for CramFault {
    ghost use Rattle.std.specs.Prelude.{◌≡◌};
    ghost use Rattle.cram.specs.declared.fault.CramFault.TheVariants.{NoMemory};

    ghost from_gives = { λ _ e. e ≡ NoMemory };

    fn from(_error: AllocFailed<T>) -> CramFault {
        CramFault::NoMemory
    }
}

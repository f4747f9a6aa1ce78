//! Why an item is no command.
use std::alloc::AllocError;
use thiserror::Error;

/// Why an item is no command.
#[derive(Clone, Copy, Debug, PartialEq, Eq, Error)]
pub enum CommandFault {
    /// No command has that name.
    #[error("unknown name")]
    UnknownName,
    /// The item has not the form of a command, or its parameters have another form.
    #[error("bad parameters")]
    BadParameters,
    /// Memory was refused.
    #[error("no memory")]
    NoMemory,
}

impl From<AllocError> for CommandFault {
    ghost use Rattle.std.specs.Prelude.{◌≡◌};
    ghost use Rattle.wire_forms.specs.declared.fault.CommandFault.TheVariants.{NoMemory};

    ghost from_gives = { λ _ fault. fault ≡ NoMemory };

    fn from(_error: AllocError) -> Self {
        CommandFault::NoMemory
    }
}

//! Why a document gives no text.

ghost use Rattle.std.specs.Prelude.{◌≡◌};
ghost use Rattle.svndiff0.specs.declared.fault.DiffFault.TheVariants.{NoMemory};

use std::alloc::AllocError;
use thiserror::Error;

/// The rule that a document breaks, or `NoMemory`.
#[derive(Clone, Copy, Debug, PartialEq, Eq, Error)]
pub enum DiffFault {
    /// The document doesn't begin with `SVN` and a zero byte.
    #[error("the header isn't that of svndiff 0")]
    BadHeader,
    /// An instruction copies from the target view.
    #[error("an instruction copies from the target view")]
    TargetCopy,
    /// An instruction is of no kind, has length zero, or is cut by the end of its section.
    #[error("an instruction is malformed")]
    BadInstruction,
    /// An instruction copies what isn't in the source view.
    #[error("a copy goes beyond the source view")]
    CopyBeyondView,
    /// The source view isn't in the base.
    #[error("the source view goes beyond the base")]
    ViewBeyondBase,
    /// The instructions don't add up to the target view, or don't take the new data exactly.
    #[error("the lengths of a window disagree")]
    LengthsDisagree,
    /// The document ends within its header or a window.
    #[error("the document is cut short")]
    Truncated,
    /// An integer of more than nine bytes, or a length or a whole text over 16,777,216 bytes.
    #[error("a length is too large")]
    TooLarge,
    /// There was no memory for the text. Nothing changed.
    #[error("out of memory")]
    NoMemory,
}

impl From<AllocError> for DiffFault {
    ghost from_gives = { λ _ e. e ≡ NoMemory };

    fn from(_e: AllocError) -> DiffFault {
        DiffFault::NoMemory
    }
}

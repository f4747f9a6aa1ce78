//! Texts in memory.
ghost use Rattle.std.specs.Prelude.{◌≡◌, Decides};

use crate::file_text::FileText;
use crate::reading_texts::Texts;
use std::alloc::{AllocError, Global};

/// Gives texts whose bytes are in memory. None is another than the one that is known.
#[derive(Drop)]
pub struct HeldTexts {}

/// Says whether both have the same bytes.
fn are_same_bytes(bytes: &[u8], other: &[u8]) -> bool
    ensures { Decides result (bytes.now ≡ other.now) }
{
    bytes == other
}

impl Texts for HeldTexts {
    ghost is_honest = { λ _. Unit {0} };

    ghost reads = { λ _ _. Unit {0} };

    ghost at_rest = { λ _. tt };

    ghost goes_on = { λ _ _ _ _ _. tt };

    ghost before = { λ _ _ _ _. tt };

    fn load(&mut self, _alloc: Global, text: &FileText) -> Result<FileText, AllocError> {
        text.clone()
    }

    fn are_same(
        &mut self,
        _alloc: Global,
        text: &FileText,
        other: &FileText,
    ) -> Result<bool, AllocError> {
        Ok(are_same_bytes(text.as_slice(), other.as_slice()))
    }
}

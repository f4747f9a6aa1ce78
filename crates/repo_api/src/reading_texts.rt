//! Texts as they are read.
ghost use Rattle.std.specs.Prelude.{◌≡◌, Decides, IfOk};
ghost use Rattle.md5.specs.Md5.{md5};

use crate::file_text::FileText;
use std::alloc::{AllocError, Global};

/// What reads texts. It fails where memory runs out, or for another reason, which it keeps itself.
pub trait Texts {
    /// Each text that was read was the one that is known.
    ghost is_honest: { Self → Type 0 };

    /// From one moment to a later one texts were read, and nothing else happened.
    ghost reads: { Self → Self → Type 0 };

    /// Reads a text. What is read has the text's MD5, whether it is the one that is known or not.
    fn load(&mut self, alloc: Global, text: &FileText) -> Result<FileText, AllocError>
        ensures reads { reads self.old self.new }
        ensures digest { IfOk result (λ loaded. md5 loaded ≡ md5 text.now) }
        ensures found { is_honest self.new → IfOk result (λ loaded. loaded ≡ text.now) };

    /// Says whether two texts have the same bytes.
    fn are_same(
        &mut self,
        alloc: Global,
        text: &FileText,
        other: &FileText,
    ) -> Result<bool, AllocError>
        ensures reads { reads self.old self.new }
        ensures same { is_honest self.new → IfOk result (λ same. Decides same (text.now ≡ other.now)) };

    ghost at_rest: { (s : Self) → reads s s };

    ghost goes_on: { (s t u : Self) → reads s t → reads t u → reads s u };

    /// What was read before a moment is known, where what was read up to a later one is.
    ghost before: { (s t : Self) → reads s t → is_honest t → is_honest s };
}

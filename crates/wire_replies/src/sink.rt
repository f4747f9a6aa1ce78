//! Where replies go.
ghost use Rattle.std.specs.Prelude.{◌≡◌, ◌∷◌, ◌++◌, [], List, ℕ};
ghost use Rattle.wire_replies.specs.Sinks.{Says, Writes};

use crate::reply::Reply;
use repo_api::{FileText, HeldTexts, Texts};
use std::alloc::{AllocError, Global};
use std::marker::Model;

/// Where the replies to a client go, and what reads the texts that they have.
pub trait ReplySink: Texts {
    /// These bytes were written from one moment to a later one, where each text that was read is the one that is known.
    ghost writes: { Self → Self → List ℕ → Type 0 };

    /// Writes a reply. Where memory is refused or the sink fails, a beginning of it was written; a sink that
    /// fails for another reason than want of memory keeps its fault itself.
    fn say(&mut self, reply: &Reply) -> Result<(), AllocError>
        ensures { Says result (writes self.old self.new) (reply.now ∷ []) };

    /// Writes bytes that are a part of a reply. Where memory runs out or the sink fails, a part of them was written, from
    /// the front.
    fn write_part(&mut self, part: &[u8]) -> Result<(), AllocError>
        ensures { Writes result (writes self.old self.new) part.now };

    ghost nothing: { (s : Self) → writes s s [] };

    ghost more: { (s t u : Self) (first second : List ℕ) → writes s t first → writes t u second → writes s u (first ++ second) };

    /// Reads write nothing.
    ghost silent: { (s t : Self) → Self.reads s t → writes s t [] };

    /// Where what was read up to a moment is known, so is what was read before something was written.
    ghost kept: { (s t : Self) (bytes : List ℕ) → writes s t bytes → Self.is_honest t → Self.is_honest s };

    /// Where bytes were written, so were others that are the same if what was read is known.
    ghost given: { (s t : Self) (bytes others : List ℕ) → writes s t bytes → (Self.is_honest t → bytes ≡ others) → writes s t others };
}

/// Replies that are kept in memory. Texts that they have are in memory too.
#[derive(Drop)]
pub struct MemorySink {
    alloc: Global,
    bytes: Vec<u8>,
}

impl Model for MemorySink {
    ghost use Rattle.std.specs.Prelude.{ℕ, List};

    ghost Value = { List ℕ };

    ghost view = { λ s. s.bytes.items };
}

impl MemorySink {
    /// Makes a sink to which nothing is written yet.
    pub fn new(alloc: Global) -> Self
        ensures { result ≡ [] }
    {
        MemorySink {
            alloc,
            bytes: Vec::new(alloc),
        }
    }

    /// Gives what was written.
    pub fn into_bytes(self) -> Vec<u8>
        ensures { result.items ≡ self }
    {
        let MemorySink { alloc: _, bytes } = self;
        bytes
    }
}

impl ReplySink for MemorySink {
    ghost use Rattle.std.specs.Prelude.{◌≡◌, ◌++◌};
    ghost use Rattle.std.proofs.Common.{subst};
    ghost use Rattle.wire_replies.specs.Sinks.{appends_nothing, appends_more, appends_same};

    ghost writes = { λ s t bytes. t ≡ s ++ bytes };

    ghost nothing = { appends_nothing };

    ghost more = { appends_more };

    ghost silent = { λ s t same. appends_same s t same };

    ghost kept = { λ _ _ _ _ _. tt };

    ghost given = { λ s t bytes others wrote same. subst (λ b. t ≡ s ++ b) (same tt) wrote };

    fn say(&mut self, reply: &Reply) -> Result<(), AllocError> {
        reply.write(self.alloc, &mut self.bytes)?;
        Ok(())
    }

    fn write_part(&mut self, part: &[u8]) -> Result<(), AllocError> {
        self.bytes.extend_from_slice(part)?;
        Ok(())
    }
}

impl Texts for MemorySink {
    ghost use Rattle.std.specs.Prelude.{◌≡◌, refl};
    ghost use Rattle.std.proofs.Common.{◌∙◌};

    ghost is_honest = { λ _. Unit {0} };

    ghost reads = { λ s t. t ≡ s };

    ghost at_rest = { λ s. refl };

    ghost goes_on = { λ s t u x y. y ∙ x };

    ghost before = { λ _ _ _ _. tt };

    fn load(&mut self, alloc: Global, text: &FileText) -> Result<FileText, AllocError> {
        let mut texts = HeldTexts {};
        texts.load(alloc, text)
    }

    fn are_same(
        &mut self,
        alloc: Global,
        text: &FileText,
        other: &FileText,
    ) -> Result<bool, AllocError> {
        let mut texts = HeldTexts {};
        texts.are_same(alloc, text, other)
    }
}

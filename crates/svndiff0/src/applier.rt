//! Reading a document over a base.

use crate::fault::DiffFault;
use crate::stage::Stage;
use crate::target::Target;
use bytes::{Buf, BytesMut};
use std::alloc::Global;
use std::marker::Model;
use std::sync::Arc;

/// Applies an svndiff 0 document, fed in pieces, to a base.
///
/// It keeps the base, which it shares with whoever gave it, the text of the windows so far, and the bytes of the window
/// that isn't whole yet.
pub struct Applier {
    alloc: Global,
    base: Arc<Vec<u8>>,
    text: Target,
    rest: BytesMut,
    stage: Stage,
}

impl Drop for Applier {
    fn drop(self) {
        let Applier {
            alloc: _,
            base: _,
            text: _,
            rest: _,
            stage: _,
        } = self;
    }
}

impl Model for Applier {
    ghost use Rattle.svndiff0.specs.{Applying.Applying, Stages.{reading_of, HasTextOf}, Targets.target_bytes};
    ghost use Rattle.std.specs.Arc.{arc_value};

    ghost Value = { Applying };

    ghost view = { λ a. record { base = (arc_value a.base).items; reading = reading_of a.stage (target_bytes a.text) a.rest.items } };

    ghost invariant = { λ a. HasTextOf a.stage (target_bytes a.text) };
}

impl Applier {
    ghost use Rattle.std.specs.{Prelude.{◌≡◌, ◌≢◌, ◌++◌, ℕ, List, [], MatchResult}, Arc.arc_value};
    ghost use Rattle.svndiff0.specs.{Document.{outcome, document_text}, Applying.{HasRead, fed, FeedsApplier}, declared.fault.DiffFault.TheVariants.NoMemory};

    /// Makes an applier over this base, of which no byte is copied, that was fed nothing.
    pub fn new(alloc: Global, base: Arc<Vec<u8>>) -> Applier
        ensures base { result.base ≡ (arc_value base).items }
        ensures reading { HasRead result [] }
    {
        Applier {
            alloc,
            base,
            text: Target::Growing(Vec::new(alloc)),
            rest: BytesMut::new(alloc),
            stage: Stage::Header,
        }
    }

    /// Takes the next piece of the document.
    ///
    /// # Errors
    ///
    /// The rule that the document breaks, at the piece that brings the byte at which this shows, and again at each
    /// piece after it. `NoMemory` where memory runs out: the piece isn't taken then, and nothing changed.
    pub fn feed(&mut self, piece: &[u8]) -> Result<(), DiffFault>
        // What it holds then, and what it answers.
        ensures feeds { FeedsApplier self.old piece.now result self.new }
        // All that was fed counts as one document, however it was cut into pieces.
        ensures pieces { (document : List ℕ) → HasRead self.old document
            → HasRead (fed self.old piece.now) (document ++ piece.now) }
    {
        if let Stage::Broken(fault) = self.stage {
            return Err(fault);
        }
        let kept = self.rest.len();
        self.rest.extend_from_slice(piece)?;
        let (stage, base, bytes) = (self.stage, self.base.as_slice(), self.rest.as_slice());
        match self.text.read_on(self.alloc, stage, base, bytes) {
            Ok((stage, rest)) => {
                let left = rest.len();
                self.rest.advance(self.rest.len() - left);
                self.stage = stage;
                Ok(())
            }
            Err(fault) => match fault {
                DiffFault::NoMemory => {
                    self.rest.truncate(kept);
                    Err(DiffFault::NoMemory)
                }
                _ => {
                    self.stage = Stage::Broken(fault);
                    Err(fault)
                }
            },
        }
    }

    /// Gives the text of the document that was fed, where it ends here. More may be fed afterwards.
    ///
    /// # Errors
    ///
    /// The rule that the document breaks; `Truncated` where it ends within its header or a window.
    pub fn text(&self) -> Result<&[u8], DiffFault>
        ensures outcome { MatchResult result (λ text. outcome self.now.reading ≡ Ok text.now)
            (λ f. outcome self.now.reading ≡ Err f) }
        ensures text { (document : List ℕ) → HasRead self.now document
            → MatchResult result (λ text. document_text self.now.base document ≡ Ok text.now)
            (λ f. document_text self.now.base document ≡ Err f) }
    {
        match self.stage {
            Stage::Broken(fault) => Err(fault),
            Stage::Windows if self.rest.is_empty() => Ok(self.text.as_slice()),
            _ => Err(DiffFault::Truncated),
        }
    }

    /// Gives what `text` answers, as a hold of the text, of which no byte is copied. More may be fed afterwards.
    ///
    /// # Errors
    ///
    /// As `text`, and `NoMemory` where memory runs out. Nothing changes in any case.
    pub fn share_text(&mut self) -> Result<Arc<Vec<u8>>, DiffFault>
        ensures outcome { MatchResult result (λ text. outcome self.old.reading ≡ Ok (arc_value text).items)
            (λ f. f ≢ NoMemory → outcome self.old.reading ≡ Err f) }
        ensures text { (document : List ℕ) → HasRead self.old document
            → MatchResult result
            (λ text. document_text self.old.base document ≡ Ok (arc_value text).items)
            (λ f. f ≢ NoMemory → document_text self.old.base document ≡ Err f) }
        ensures same { self.new ≡ self.old }
    {
        match self.stage {
            Stage::Broken(fault) => Err(fault),
            Stage::Windows if self.rest.is_empty() => { Ok(self.text.share(self.alloc)?) }
            _ => Err(DiffFault::Truncated),
        }
    }
}

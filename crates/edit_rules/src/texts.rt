//! Texts that deltas make.
ghost use Rattle.std.specs.Prelude.{◌≡◌, Some, Ok, IfOk};
ghost use Rattle.svnpath.specs.Paths.{PathValue};
ghost use Rattle.svndiff0.specs.{Applying.Applying, Document.outcome};
ghost use Rattle.edit_rules.specs.{Texts.MakesTextEdit, Tokens.opened_under, Refusing.end_delta_refusal, Judging.Judges};

use crate::open_tokens::OpenTokens;
use crate::opened::{DeltaState, Opened};
use byte_string::ByteString;
use refusals::{NotDone, Refusal};
use repo_api::{EditOp, FileText};
use std::collections::BTreeMap;
use svndiff0::DiffFault;

/// Makes the edit of a text by the delta of the file that is open under the token. The text is shared and not copied,
/// and what is open stays as it is.
pub fn text_edit_under(tokens: &mut OpenTokens, token: &ByteString) -> Result<EditOp, NotDone>
    ensures op { MakesTextEdit result (opened_under tokens.old token.now) }
    ensures same { tokens.new ≡ tokens.old }
{
    text_edit_in(&mut tokens.opened, token)
}

/// Makes the edit of a text by the delta of the file that is open under the token, which stays as it is.
fn text_edit_in(
    tokens: &mut BTreeMap<ByteString, Opened>,
    token: &ByteString,
) -> Result<EditOp, NotDone>
    ensures op { MakesTextEdit result (opened_under tokens.old.entries token.now) }
    ensures same { tokens.new.entries ≡ tokens.old.entries }
{
    match tokens.get_mut(token) {
        Some(opened) => text_edit(opened),
        None => Err(NotDone::Refused(Refusal::MalformedData)),
    }
}

/// Makes the edit of a text by a file's text delta.
fn text_edit(opened: &mut Opened) -> Result<EditOp, NotDone>
    ensures op { MakesTextEdit result (Some opened.old) }
    ensures same { opened.new ≡ opened.old }
{
    match opened {
        Opened::File(path, delta) => {
            let path = path.clone()?;
            let text = shared_text(delta)?;
            Ok(EditOp::SetText(path, text))
        }
        Opened::Directory(_) => Err(NotDone::Refused(Refusal::MalformedData)),
    }
}

/// Gives the text that a delta makes.
fn shared_text(delta: &mut DeltaState) -> Result<FileText, NotDone>
    ensures judged { (p : PathValue) → Judges result (end_delta_refusal (Some (Opened.File p delta.old))) }
    ensures text { IfOk result (λ text. (a : Applying) × (delta.old ≡ DeltaState.Reading a)
        × (outcome a.reading ≡ Ok text)) }
    ensures same { delta.new ≡ delta.old }
{
    match delta {
        DeltaState::Reading(applier) => match applier.share_text() {
            Ok(text) => Ok(FileText::from_shared(text)),
            Err(DiffFault::NoMemory) => Err(NotDone::NoMemory),
            Err(_) => Err(NotDone::Refused(Refusal::BadSvndiff)),
        },
        DeltaState::NotBegun => Err(NotDone::Refused(Refusal::MalformedData)),
        DeltaState::Ended => Err(NotDone::Refused(Refusal::MalformedData)),
    }
}

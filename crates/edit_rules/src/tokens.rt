//! What is open in an edit, read and changed by its tokens.
ghost use Rattle.std.specs.Prelude.{◌≡◌, Some, OnOk, IfErr, option_copied};
ghost use Rattle.svnpath.specs.Paths.{PathValue};
ghost use Rattle.svndiff0.specs.Applying.{Applying, fed};
ghost use Rattle.edit_rules.specs.Tokens.{opened_under, directory_of, copies_under, with_change, closed_beneath, others_closed_beneath, has_unfinished};
ghost use Rattle.edit_rules.specs.{Tokens.{HavePlaces, path_of, Places}, Refusing.chunk_refusal, Judging.Judges, Texts.ReadsBytes};
ghost use Rattle.refusals.specs.Faults.{IfNoMemory};

use crate::closing::close_under;
use crate::open_tokens::OpenTokens;
use crate::opened::{DeltaState, Opened};
use byte_string::ByteString;
use refusals::{NotDone, Refusal};
use std::collections::BTreeMap;
use svndiff0::DiffFault;
use svnpath::Path;

/// Gives the directory that is open under the token.
pub fn directory_under<'a>(tokens: &'a OpenTokens, token: &ByteString) -> Option<&'a Path>
    ensures { option_copied result ≡ directory_of tokens.now token.now }
{
    tokens.get(token)?.directory()
}

/// Says whether the directory that is open under the token was added with a copy, or opened beneath such a one.
pub fn copies_under(tokens: &OpenTokens, token: &ByteString) -> bool
    ensures { result ≡ copies_under tokens.now token.now }
{
    match tokens.get(token) {
        None => false,
        Some(opened) => opened.is_in_copy(),
    }
}

/// Says whether a text delta has not ended.
pub fn has_unfinished(tokens: &OpenTokens) -> bool
    ensures { result ≡ has_unfinished tokens.now }
{
    tokens.opened.values().any(|opened| opened.is_unfinished())
}

/// Closes what is open at or under the path.
pub fn close_beneath(tokens: &mut OpenTokens, path: &Path)
    ensures { tokens.new ≡ closed_beneath tokens.old path.now }
{
    close_under(
        tokens.alloc,
        &mut tokens.opened,
        &mut tokens.places,
        path,
        None,
    );
}

/// Closes what is open at or under the path, but for what is open under the token.
pub fn close_others_beneath(tokens: &mut OpenTokens, path: &Path, token: &ByteString)
    ensures { tokens.new ≡ others_closed_beneath tokens.old path.now token.now }
{
    close_under(
        tokens.alloc,
        &mut tokens.opened,
        &mut tokens.places,
        path,
        Some(token),
    );
}

/// Sets another delta of the file that is open under the token. It takes no memory.
pub fn set_delta(tokens: &mut OpenTokens, token: &ByteString, delta: DeltaState)
    ensures { (p : PathValue) (old : DeltaState)
        → opened_under tokens.old token.now ≡ Some (Opened.File p old)
        → tokens.new ≡ with_change tokens.old token.now (Opened.File p delta) }
{
    set_delta_in(&mut tokens.opened, token, delta);
}

/// Sets another delta of the file that is open under the token, and changes no path.
fn set_delta_in(tokens: &mut BTreeMap<ByteString, Opened>, token: &ByteString, delta: DeltaState)
    ensures set { (p : PathValue) (old : DeltaState)
        → opened_under tokens.old.entries token.now ≡ Some (Opened.File p old)
        → tokens.new.entries ≡ with_change tokens.old.entries token.now (Opened.File p delta) }
    ensures placed { (places : Places) → HavePlaces places tokens.old.entries
        → HavePlaces places tokens.new.entries }
{
    if let Some(opened) = tokens.get_mut(token) {
        replace_delta(opened, delta);
    }
}

/// Sets another delta of a file.
fn replace_delta(opened: &mut Opened, delta: DeltaState)
    ensures set { (p : PathValue) (old : DeltaState) → opened.old ≡ Opened.File p old
        → opened.new ≡ Opened.File p delta }
    ensures path { path_of opened.new ≡ path_of opened.old }
{
    if let Opened::File(_, slot) = opened {
        *slot = delta;
    }
}

/// Reads the next bytes of the text delta of the file that is open under the token.
pub fn feed_under(tokens: &mut OpenTokens, token: &ByteString, bytes: &[u8]) -> Result<(), NotDone>
    ensures { ReadsBytes result bytes.now (opened_under tokens.old token.now)
        (λ o. tokens.new ≡ with_change tokens.old token.now o) (tokens.new ≡ tokens.old) }
{
    feed_in(&mut tokens.opened, token, bytes)
}

/// Reads the next bytes of the text delta of the file that is open under the token, and changes no path.
fn feed_in(
    tokens: &mut BTreeMap<ByteString, Opened>,
    token: &ByteString,
    bytes: &[u8],
) -> Result<(), NotDone>
    ensures reads { ReadsBytes result bytes.now (opened_under tokens.old.entries token.now)
        (λ o. tokens.new.entries ≡ with_change tokens.old.entries token.now o)
        (tokens.new.entries ≡ tokens.old.entries) }
    ensures placed { (places : Places) → HavePlaces places tokens.old.entries
        → HavePlaces places tokens.new.entries }
{
    let mut fed = Err(NotDone::Refused(Refusal::MalformedData));
    if let Some(opened) = tokens.get_mut(token) {
        fed = feed_opened(opened, bytes);
    }
    fed
}

/// Reads the next bytes of a file's text delta.
fn feed_opened(opened: &mut Opened, bytes: &[u8]) -> Result<(), NotDone>
    ensures reads { ReadsBytes result bytes.now (Some opened.old) (λ o. opened.new ≡ o)
        (opened.new ≡ opened.old) }
    ensures path { path_of opened.new ≡ path_of opened.old }
{
    match opened {
        Opened::File(_, delta) => feed(delta, bytes),
        Opened::Directory(_) => Err(NotDone::Refused(Refusal::MalformedData)),
    }
}

/// Reads the next bytes of a text delta.
fn feed(delta: &mut DeltaState, bytes: &[u8]) -> Result<(), NotDone>
    ensures judged { (p : PathValue) → Judges result
        (chunk_refusal bytes.now (Some (Opened.File p delta.old))) }
    ensures ok { OnOk result ((a : Applying) × (delta.old ≡ DeltaState.Reading a)
        × (delta.new ≡ DeltaState.Reading (fed a bytes.now))) }
    ensures err { IfErr result (λ fault. IfNoMemory fault (delta.new ≡ delta.old)) }
{
    match delta {
        DeltaState::Reading(applier) => match applier.feed(bytes) {
            Ok(()) => Ok(()),
            Err(DiffFault::NoMemory) => Err(NotDone::NoMemory),
            Err(_) => Err(NotDone::Refused(Refusal::BadSvndiff)),
        },
        DeltaState::NotBegun => Err(NotDone::Refused(Refusal::MalformedData)),
        DeltaState::Ended => Err(NotDone::Refused(Refusal::MalformedData)),
    }
}

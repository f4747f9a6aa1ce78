//! What a client sends before its first command.
ghost use Rattle.std.specs.Prelude.{◌≡◌, option_map};
ghost use Rattle.items.specs.View.{value_of, values_of};
ghost use Rattle.wire_forms.specs.Answering.{Answers};
ghost use Rattle.commands.specs.Logins.{client_greeting, auth_response, challenge_answer, are_words, has_word, optional_client};

use byte_string::ByteString;
use items::Item;
use std::alloc::Global;
use wire_forms::CommandFault::{self, BadParameters};
use wire_forms::{
    copy_optional, read_items, read_list, read_number, read_optional_string, read_string, read_word,
};

/// The client's answer to the greeting.
#[derive(Drop)]
pub struct ClientGreeting {
    /// The version of the protocol.
    pub version: u64,
    /// Whether the client can send an edit without waiting for answers.
    pub edit_pipeline: bool,
    /// Whether the client knows of merges that are recorded: a client of today does.
    pub mergeinfo: bool,
    /// The URL that the client wants.
    pub url: ByteString,
}

/// The client's choice of a mechanism.
#[derive(Drop)]
pub struct AuthResponse {
    /// The name of the mechanism.
    pub mechanism: ByteString,
    /// The token, if the client sends one.
    pub token: Option<ByteString>,
}

impl ClientGreeting {
    /// Reads the answer to the greeting that an item is: `( version ( capability ... ) url ? ra-client ( ? client ) )`.
    pub fn from_item(item: &Item) -> Result<ClientGreeting, CommandFault>
        ensures { Answers result (client_greeting (value_of item.now)) }
    {
        let items = read_items(item).ok_or(BadParameters)?;
        let (version, rest) = read_number(items).ok_or(BadParameters)?;
        let (capabilities, rest) = read_list(rest).ok_or(BadParameters)?;
        let (url, rest) = read_string(rest).ok_or(BadParameters)?;
        let _client = read_client(rest).ok_or(BadParameters)?;
        if !are_words(capabilities) {
            return Err(BadParameters);
        }
        Ok(ClientGreeting {
            version,
            edit_pipeline: has_word(b"edit-pipeline", capabilities),
            mergeinfo: has_word(b"mergeinfo", capabilities),
            url: url.clone()?,
        })
    }
}

/// Reads `? ra-client ( ? client )`: the client, if the list has one.
fn read_client(items: &[Item]) -> Option<Option<&ByteString>>
    ensures { option_map (option_map (λ text. text.now)) result
        ≡ optional_client (values_of items.now) }
{
    match items {
        [] => Some(None),
        [Item::Str(_), rest @ ..] => read_optional_string(read_list(rest)?.0),
        _ => None,
    }
}

/// Says whether each is a word.
pub(crate) fn are_words(items: &[Item]) -> bool
    ensures { result ≡ are_words (values_of items.now) }
{
    for item in items {
        if !matches!(item, Item::Word(_)) {
            return false;
        }
    }
    true
}

/// Says whether one of the items is this word: a string of the same bytes is not.
fn has_word(word: &[u8], items: &[Item]) -> bool
    ensures { result ≡ has_word word.now (values_of items.now) }
{
    for item in items {
        if let Item::Word(name) = item {
            if name.as_bytes() == word {
                return true;
            }
        }
    }
    false
}

impl AuthResponse {
    /// Reads the choice of a mechanism that an item is: `( mechanism [ token ] )`.
    pub fn from_item(alloc: Global, item: &Item) -> Result<AuthResponse, CommandFault>
        ensures { Answers result (auth_response (value_of item.now)) }
    {
        let items = read_items(item).ok_or(BadParameters)?;
        let (mechanism, rest) = read_word(items).ok_or(BadParameters)?;
        let (token, _) = read_list(rest).ok_or(BadParameters)?;
        let token = read_optional_string(token).ok_or(BadParameters)?;
        Ok(AuthResponse {
            mechanism: ByteString::from_slice(alloc, mechanism)?,
            token: copy_optional(token)?,
        })
    }
}

/// Reads the answer to a challenge that an item is: a string.
pub fn challenge_answer(item: &Item) -> Option<&ByteString>
    ensures { option_map (λ text. text.now) result ≡ challenge_answer (value_of item.now) }
{
    match item {
        Item::Str(text) => Some(text),
        _ => None,
    }
}

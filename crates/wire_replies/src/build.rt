//! Items made of their parts.
ghost use Rattle.std.specs.Prelude.{◌≡◌, ◌++◌, ◌∷◌, [], IfOk, IsOkAnd};
ghost use Rattle.items.specs.{Values.{list, number, string, word}, View.{value_of, values_of}, Word.IsWord};
ghost use Rattle.svnpath.specs.Texts.{path_text};
ghost use Rattle.wire_replies.specs.Replies.{boolean_name, kind_word, optional_string_trees, success};

use byte_string::ByteString;
use items::{Item, Name};
use repo_api::NodeKind;
use std::alloc::{AllocError, Global};
use svnpath::Path;

/// Makes a word. The bytes are a letter, then letters, digits and dashes.
pub fn word_item(alloc: Global, bytes: &[u8]) -> Result<Item, AllocError>
    requires { IsWord bytes.now }
    ensures { IfOk result (λ item. value_of item ≡ word bytes.now) }
{
    Ok(Item::Word(Name::from_slice(alloc, bytes)?))
}

/// Makes a number.
pub fn number_item(n: u64) -> Item
    ensures { value_of result ≡ number n }
{
    Item::Number(n)
}

/// Makes a string.
pub fn string_item(alloc: Global, bytes: &[u8]) -> Result<Item, AllocError>
    ensures { IfOk result (λ item. value_of item ≡ string bytes.now) }
{
    Ok(Item::Str(ByteString::from_slice(alloc, bytes)?))
}

/// Makes a list of these items.
pub fn list_item<const N: usize>(alloc: Global, items: [Item; N]) -> Result<Item, AllocError>
    ensures { IfOk result (λ item. value_of item ≡ list (values_of items.entry)) }
{
    let items = Vec::from_array(alloc, items).map_err(AllocError::from)?;
    Ok(Item::List(items))
}

/// Makes `[ string ]`.
pub fn optional_string_item(alloc: Global, text: &Option<ByteString>) -> Result<Item, AllocError>
    ensures { IfOk result (λ item. value_of item ≡ list (optional_string_trees text.now)) }
{
    match text {
        Some(text) => list_item(alloc, [string_item(alloc, text.as_slice())?]),
        None => list_item(alloc, []),
    }
}

/// Gives the items, and after them one that was to be made.
pub fn with_made(items: Vec<Item>, made: Result<Item, AllocError>) -> Result<Vec<Item>, AllocError>
    ensures { IfOk result (λ longer. IsOkAnd made (λ item.
        longer.items ≡ items.items ++ item ∷ [])) }
{
    let mut items = items;
    items.push(made?).map_err(AllocError::from)?;
    Ok(items)
}

/// Makes `( success ( params ) )`.
pub fn success_row(alloc: Global, params: Vec<Item>) -> Result<Item, AllocError>
    ensures { IfOk result (λ item. value_of item ≡ success (values_of params.items)) }
{
    let word = word_item(alloc, b"success")?;
    list_item(alloc, [word, Item::List(params)])
}

/// Makes the word `true` or `false`.
pub fn boolean_item(alloc: Global, value: bool) -> Result<Item, AllocError>
    ensures { IfOk result (λ item. value_of item ≡ word (boolean_name value)) }
{
    if value {
        word_item(alloc, b"true")
    } else {
        word_item(alloc, b"false")
    }
}

/// Gives the name of a kind.
pub fn kind_name(kind: NodeKind) -> &'static [u8]
    ensures value { result.now ≡ kind_word kind }
    ensures is_word { IsWord (kind_word kind) }
{
    match kind {
        NodeKind::Absent => b"none",
        NodeKind::File => b"file",
        NodeKind::Directory => b"dir",
    }
}

/// Gives the text of a path, as a string.
pub fn path_item(alloc: Global, path: &Path) -> Result<Item, AllocError>
    ensures { IfOk result (λ item. value_of item ≡ string (path_text path.now)) }
{
    let mut text = Vec::new(alloc);
    path.append_text(&mut text)?;
    Ok(Item::Str(ByteString::new(text)))
}

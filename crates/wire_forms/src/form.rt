//! Forms of items that commands share.
ghost use Rattle.std.specs.Prelude.{◌≡◌, IfOk, option_map};
ghost use Rattle.items.specs.{Values.word, View.{value_of, values_of}};
ghost use Rattle.wire_forms.specs.Forms.{word_first, number_first, string_first, list_first, items_in, command_form, optional_number, optional_string, boolean};
ghost use Rattle.wire_forms.specs.Forms.{flag_first, revision_first};

use byte_string::ByteString;
use items::Item;
use std::alloc::AllocError;

/// Reads a word in front: its name, and what comes after it.
pub fn read_word(items: &[Item]) -> Option<(&[u8], &[Item])>
    ensures { option_map (λ p. (p.0.now, values_of p.1.now)) result
        ≡ word_first (values_of items.now) }
{
    match items {
        [Item::Word(name), rest @ ..] => Some((name.as_bytes(), rest)),
        _ => None,
    }
}

/// Reads a number in front, and what comes after it.
pub fn read_number(items: &[Item]) -> Option<(u64, &[Item])>
    ensures { option_map (λ p. (p.0, values_of p.1.now)) result
        ≡ number_first (values_of items.now) }
{
    match items {
        [Item::Number(n), rest @ ..] => Some((*n, rest)),
        _ => None,
    }
}

/// Reads a string in front, and what comes after it.
pub fn read_string(items: &[Item]) -> Option<(&ByteString, &[Item])>
    ensures { option_map (λ p. (p.0.now, values_of p.1.now)) result
        ≡ string_first (values_of items.now) }
{
    match items {
        [Item::Str(text), rest @ ..] => Some((text, rest)),
        _ => None,
    }
}

/// Reads a list in front: what is in it, and what comes after it.
pub fn read_list(items: &[Item]) -> Option<(&[Item], &[Item])>
    ensures { option_map (λ p. (values_of p.0.now, values_of p.1.now)) result
        ≡ list_first (values_of items.now) }
{
    match items {
        [Item::List(inner), rest @ ..] => Some((inner.as_slice(), rest)),
        _ => None,
    }
}

/// Reads `( ... )`: what is in the list.
pub fn read_items(item: &Item) -> Option<&[Item]>
    ensures { option_map (λ items. values_of items.now) result ≡ items_in (value_of item.now) }
{
    match item {
        Item::List(items) => Some(items.as_slice()),
        _ => None,
    }
}

/// Reads `( name ( params ) )`: the name and the parameters. Items after them are ignored.
pub fn read_form(item: &Item) -> Option<(&[u8], &[Item])>
    ensures { option_map (λ form. (form.0.now, values_of form.1.now)) result
        ≡ command_form (value_of item.now) }
{
    let (name, rest) = read_word(read_items(item)?)?;
    let (params, _) = read_list(rest)?;
    Some((name, params))
}

/// Reads `[ number ]`: the number, if there is one; `None` where the list is of another form.
pub fn read_optional_number(items: &[Item]) -> Option<Option<u64>>
    ensures { result ≡ optional_number (values_of items.now) }
{
    match items {
        [] => Some(None),
        [Item::Number(n), ..] => Some(Some(*n)),
        _ => None,
    }
}

/// Reads `[ string ]`: the string, if there is one; `None` where the list is of another form.
pub fn read_optional_string(items: &[Item]) -> Option<Option<&ByteString>>
    ensures { option_map (option_map (λ text. text.now)) result
        ≡ optional_string (values_of items.now) }
{
    match items {
        [] => Some(None),
        [Item::Str(text), ..] => Some(Some(text)),
        _ => None,
    }
}

/// Reads the word `true` or `false`.
pub fn read_boolean(item: &Item) -> Option<bool>
    ensures { result ≡ boolean (value_of item.now) }
{
    match item {
        Item::Word(word) => boolean_named(word.as_bytes()),
        _ => None,
    }
}

/// Gives the boolean that a word of these bytes stands for: `None` for any but `true` and `false`.
fn boolean_named(name: &[u8]) -> Option<bool>
    ensures { result ≡ boolean (word name.now) }
{
    if name == b"true".as_slice() {
        Some(true)
    } else if name == b"false".as_slice() {
        Some(false)
    } else {
        None
    }
}

/// Reads the word `true` or `false` in front, and what comes after it.
pub fn read_flag(items: &[Item]) -> Option<(bool, &[Item])>
    ensures { option_map (λ p. (p.0, values_of p.1.now)) result ≡ flag_first (values_of items.now) }
{
    let (item, rest) = items.split_first()?;
    Some((read_boolean(item)?, rest))
}

/// Reads `[ rev ]` in front, and what comes after it.
pub fn read_revision(items: &[Item]) -> Option<(Option<u64>, &[Item])>
    ensures { option_map (λ p. (p.0, values_of p.1.now)) result
        ≡ revision_first (values_of items.now) }
{
    let (revision, rest) = read_list(items)?;
    Some((read_optional_number(revision)?, rest))
}

/// Makes a copy of a string, if there is one.
pub fn copy_optional(text: Option<&ByteString>) -> Result<Option<ByteString>, AllocError>
    ensures { IfOk result (λ copy. copy ≡ option_map (λ t. t.now) text.entry) }
{
    match text {
        Some(text) => Ok(Some(text.clone()?)),
        None => Ok(None),
    }
}

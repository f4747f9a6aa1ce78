// The item that bytes spell, built in one pass once they are all there.
ghost use Rattle.std.specs.Prelude.{◌≡◌, ◌≤◌, ◌∷◌, ℕ, List, IfOk, length, drop};
ghost use Rattle.items.specs.{Values.{ItemValue, limits}, Stream.IsItem, View.{value_of, values_of}};
ghost use Rattle.items.specs.Build.{read, row_reader, behind_spaces, word_len, numeral_at, behind_numeral, word_at, StartsWord};

use crate::item::{Item, Name};
use crate::scan::{MAX_DEPTH, is_space, is_word_byte};
use byte_string::ByteString;
use std::alloc::{AllocError, Global};

/// Makes the item that the bytes spell.
pub fn build(alloc: Global, bytes: &[u8]) -> Result<Item, AllocError>
    requires { (t : ItemValue) × IsItem limits t bytes.now }
    ensures { IfOk result (λ item. IsItem limits (value_of item) bytes.now) }
{
    let (item, _) = read_item(alloc, bytes, MAX_DEPTH)?;
    Ok(item)
}

// The item at the front and what lies behind it, where there is one.
#[cycle(build)]
fn read_item(alloc: Global, bytes: &[u8], depth: u64) -> Result<(Item, &[u8]), AllocError>
    ensures { IfOk result (λ x. (value_of x.0, x.1.now) ≡ read depth bytes.now) }
{
    let bytes = skip_spaces(bytes);
    if bytes.is_empty() {
        return Ok((Item::Number(0), bytes));
    }
    let first = bytes[0];
    let rest = &bytes[1..];
    if first == b'(' {
        let (items, behind) = read_row(alloc, behind_space(rest), depth)?;
        Ok((Item::List(items), behind))
    } else if first.is_ascii_digit() {
        read_counted(alloc, bytes)
    } else if first.is_ascii_alphabetic() {
        read_word(alloc, bytes)
    } else {
        Ok((Item::Number(0), rest))
    }
}

// The items up to the `)`, and what lies behind it.
#[cycle(build)]
fn read_row(alloc: Global, bytes: &[u8], depth: u64) -> Result<(Vec<Item>, &[u8]), AllocError>
    ensures { IfOk result (λ x. (values_of x.0.items, x.1.now) ≡ row_reader depth bytes.now) }
{
    let mut items = Vec::new(alloc);
    if depth == 0 {
        return Ok((items, &bytes[..0]));
    }
    let mut rest = bytes;
    for turn in 0..bytes.len() {
        rest = skip_spaces(rest);
        if rest.is_empty() {
            return Ok((items, rest));
        }
        if rest[0] == b')' {
            return Ok((items, behind_space(&rest[1..])));
        }
        make_first_room(&mut items)?;
        let (item, behind) = read_item(alloc, rest, depth - 1)?;
        items.push(item).map_err(AllocError::from)?;
        rest = behind;
    }
    Ok((items, &bytes[..0]))
}

// Makes room for the first item of a list, and for no more, as a list of one takes a third of the memory then.
fn make_first_room(items: &mut Vec<Item>) -> Result<(), AllocError>
    ensures { items.new.items ≡ items.old.items }
{
    if items.is_empty() {
        items.reserve_exact(1)?;
    }
    Ok(())
}

// A number, or a string of so many bytes.
fn read_counted(alloc: Global, bytes: &[u8]) -> Result<(Item, &[u8]), AllocError>
    ensures { IfOk result (λ x. (value_of x.0, x.1.now)
        ≡ (let n = numeral_at 0 bytes.now in behind_numeral n.0 n.1)) }
{
    let (n, rest) = digits(bytes);
    if rest.is_empty() || rest[0] != b':' {
        return Ok((Item::Number(n), behind_space(rest)));
    }
    let text = &rest[1..];
    let len = n.min(text.len() as u64) as usize;
    let string = ByteString::from_slice(alloc, &text[..len])?;
    Ok((Item::Str(string), behind_space(&text[len..])))
}

// The word at the front.
fn read_word(alloc: Global, bytes: &[u8]) -> Result<(Item, &[u8]), AllocError>
    requires { StartsWord bytes.now }
    ensures { IfOk result (λ x. (b : ℕ) × (bs : List ℕ) × (bytes.now ≡ b ∷ bs)
        × ((value_of x.0, x.1.now) ≡ word_at b bs)) }
{
    let rest = &bytes[1..];
    let len = count_word(rest);
    let name = Name::from_slice(alloc, &bytes[..len + 1])?;
    Ok((Item::Word(name), behind_space(&rest[len..])))
}

#[tactic(auto, using(crate::proofs::Turns::spaces_on, crate::proofs::Turns::spaces_stop, crate::proofs::Turns::spaces_end))]
// Without the whitespace at the front.
fn skip_spaces(bytes: &[u8]) -> &[u8]
    ensures { result.now ≡ behind_spaces bytes.now }
{
    for (i, byte) in bytes.iter().enumerate() {
        if !is_space(*byte) {
            return &bytes[i..];
        }
    }
    &bytes[bytes.len()..]
}

// Without the byte at the front.
fn behind_space(bytes: &[u8]) -> &[u8]
    ensures { result.now ≡ drop 1 bytes.now }
{
    if bytes.is_empty() { bytes } else { &bytes[1..] }
}

#[tactic(auto, using(crate::proofs::Turns::letters_on, crate::proofs::Turns::letters_stop, crate::proofs::Turns::letters_end))]
// How many bytes of a word lie at the front.
fn count_word(bytes: &[u8]) -> usize
    ensures value { result ≡ word_len bytes.now }
    ensures within { result ≤ length bytes.now }
{
    for (i, byte) in bytes.iter().enumerate() {
        if !is_word_byte(*byte) {
            return i;
        }
    }
    bytes.len()
}

#[tactic(auto, using(crate::proofs::Turns::digits_on, crate::proofs::Turns::digits_stop, crate::proofs::Turns::digits_end))]
// The number that the digits at the front stand for, and what lies behind them.
fn digits(bytes: &[u8]) -> (u64, &[u8])
    ensures { (result.0, result.1.now) ≡ numeral_at 0 bytes.now }
{
    let mut n: u64 = 0;
    for (i, byte) in bytes.iter().enumerate() {
        if !byte.is_ascii_digit() {
            return (n, &bytes[i..]);
        }
        n = n.saturating_mul(10).saturating_add((*byte - b'0') as u64);
    }
    (n, &bytes[bytes.len()..])
}

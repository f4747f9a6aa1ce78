// An item as bytes.
ghost use Rattle.std.specs.{Prelude.OnOk, Fmt.decimal};
ghost use Rattle.items.specs.{View.{value_of, values_of}, Values.{limits, list, number, string, word, IsWithin}, Stream.IsItem, Written.{HasWords, HaveWords}};
ghost use Rattle.items.specs.Print.{printed, AppendsBytes, AppendsItem, WritesItem};

use crate::item::Item;
use std::alloc::{AllocError, Global};

/// Writes the item at the end: each token, `(` and `)` with one space behind it, numbers without
/// leading zeros. An `Err` changes nothing.
pub fn write_item(item: &Item, out: &mut Vec<u8>) -> Result<(), AllocError>
    ensures written { WritesItem result out.old (value_of item.now) out.new }
    // So it is read again, whatever follows.
    ensures spelled { OnOk result (IsWithin limits 0 (value_of item.now)
        → IsItem limits (value_of item.now) (printed (value_of item.now))) }
{
    let len = out.len();
    let written = append_item(item, out);
    if written.is_err() {
        out.truncate(len);
    }
    written
}

// An `Err` leaves a part of the bytes behind the old ones.
#[cycle(write)]
fn append_item(item: &Item, out: &mut Vec<u8>) -> Result<(), AllocError>
    ensures written { AppendsItem result out.old (value_of item.now) out.new }
    ensures words { OnOk result (HasWords (value_of item.now)) }
{
    match item {
        Item::Word(name) => append_word(name.as_bytes(), out),
        Item::Number(n) => append_number(*n, out),
        Item::Str(text) => append_string(text.as_slice(), out),
        Item::List(items) => append_list(items.as_slice(), out),
    }
}

/// Appends a list: its items between `( ` and `) `. An `Err` may leave a part of the bytes after the old ones.
#[cycle(write)]
fn append_list(items: &[Item], out: &mut Vec<u8>) -> Result<(), AllocError>
    ensures written { AppendsItem result out.old (list (values_of items.now)) out.new }
    ensures words { OnOk result (HaveWords (values_of items.now)) }
{
    out.extend_from_slice(b"( ")?;
    for item in items {
        append_item(item, out)?;
    }
    out.extend_from_slice(b") ")
}

/// Appends a word. An `Err` leaves a part of the bytes behind the old ones.
pub fn append_word(bytes: &[u8], out: &mut Vec<u8>) -> Result<(), AllocError>
    ensures { AppendsItem result out.old (word bytes.now) out.new }
{
    out.extend_from_slice(bytes)?;
    out.push(b' ').map_err(AllocError::from)
}

/// Appends a number. An `Err` leaves a part of the bytes behind the old ones.
pub fn append_number(n: u64, out: &mut Vec<u8>) -> Result<(), AllocError>
    ensures { AppendsItem result out.old (number n) out.new }
{
    append_digits(n, out)?;
    out.push(b' ').map_err(AllocError::from)
}

/// Appends a number in decimal, without the space that ends an item. An `Err` leaves the old bytes at the front.
fn append_digits(n: u64, out: &mut Vec<u8>) -> Result<(), AllocError>
    ensures { AppendsBytes result out.old (decimal n) out.new }
{
    let mut buffer = itoa::Buffer::new();
    out.extend_from_slice(buffer.format(n).as_bytes())
}

/// Appends a string. An `Err` leaves a part of the bytes behind the old ones.
pub fn append_string(text: &[u8], out: &mut Vec<u8>) -> Result<(), AllocError>
    ensures { AppendsItem result out.old (string text.now) out.new }
{
    append_digits(text.len() as u64, out)?;
    out.push(b':').map_err(AllocError::from)?;
    out.extend_from_slice(text)?;
    out.push(b' ').map_err(AllocError::from)
}

// Rows of the protocol, read whole and in pieces, and written.
ghost use Rattle.std.specs.Prelude.{◌<◌};

use byte_string::ByteString;
use items::{Item, ItemFault, ItemReader, Name, decode, write_item};
use std::alloc::Global;
use std::process::Abort;

/// Reads the stream in pieces of so many bytes: gives what is written for its items, and the fault behind them.
fn read_in_pieces(
    rt: &impl Abort,
    alloc: Global,
    stream: &[u8],
    size: usize,
) -> (Vec<u8>, Option<ItemFault>)
    requires { 0 < size }
{
    let mut reader = ItemReader::new(alloc);
    let mut written = Vec::new(alloc);
    for piece in stream.chunks(size) {
        reader.feed(piece).expect(rt, "memory");
        for _ in 0..stream.len() {
            match reader.next() {
                Ok(Some(item)) => write_item(&item, &mut written).expect(rt, "memory"),
                Ok(None) => break,
                Err(fault) => return (written, Some(fault)),
            }
        }
    }
    (written, None)
}

/// Says whether the stream gives these items and this fault, cut into pieces of any size.
fn is_read(
    rt: &impl Abort,
    alloc: Global,
    stream: &[u8],
    items: &[u8],
    fault: Option<ItemFault>,
) -> bool {
    let mut is_right = true;
    for size in 1..stream.len() + 1 {
        let (written, found) = read_in_pieces(rt, alloc, stream, size);
        is_right = is_right && written.as_slice() == items && found == fault;
    }
    is_right
}

/// A stream, its items, and the fault behind them.
type Row = (&'static str, &'static str, Option<ItemFault>);

static ROWS: [Row; 15] = [
    (
        "( word 22 6:string ( sublist ) )\n",
        "( word 22 6:string ( sublist ) ) ",
        None,
    ),
    ("( word 22 6:string ( sublist ) )", "", None),
    (" \n( ) 007\na-1 0: ", "( ) 7 a-1 0: ", None),
    ("18446744073709551615 ", "18446744073709551615 ", None),
    (
        "18446744073709551616 ",
        "",
        Some(ItemFault::NumberTooLarge(19)),
    ),
    ("22a ", "", Some(ItemFault::Malformed(2))),
    ("a 22a ", "a ", Some(ItemFault::Malformed(4))),
    ("(a ) ", "", Some(ItemFault::Malformed(1))),
    ("a) ", "", Some(ItemFault::Malformed(1))),
    (") ", "", Some(ItemFault::Malformed(0))),
    ("16777217:", "", Some(ItemFault::StringTooLong(8))),
    ("16777216:", "", None),
    ("5:ab", "", None),
    ("3:) ( x ", "3:) ( x ", None),
    ("3:abcd", "", Some(ItemFault::Malformed(5))),
];

#[test]
fn reads_rows_in_any_pieces(rt: HostRuntime) {
    let mut are_read = true;
    for (stream, items, fault) in ROWS.iter() {
        are_read &= is_read(&rt, rt.alloc(), stream.as_bytes(), items.as_bytes(), *fault);
    }
    assert!(rt; are_read);
}

/// Says whether so many lists that are opened give no item, and this fault.
fn are_open(rt: &impl Abort, alloc: Global, count: usize, fault: Option<ItemFault>) -> bool {
    let lists = b"( ".repeat(alloc, count).expect(rt, "memory");
    is_read(rt, alloc, lists.as_slice(), b"", fault)
}

/// Says whether 64 lists in one another are read.
fn are_nested(rt: &impl Abort, alloc: Global) -> bool {
    let mut lists = b"( ".repeat(alloc, 64).expect(rt, "memory");
    let ends = b") ".repeat(alloc, 64).expect(rt, "memory");
    lists
        .extend_from_slice(ends.as_slice())
        .expect(rt, "memory");
    is_read(rt, alloc, lists.as_slice(), lists.as_slice(), None)
}

#[test]
fn opens_64_lists(rt: HostRuntime) {
    let alloc = rt.alloc();
    assert!(rt;
        are_open(&rt, alloc, 64, None)
            && are_open(&rt, alloc, 65, Some(ItemFault::TooDeep(128)))
            && are_nested(&rt, alloc)
    );
}

/// Makes a command with a list of a number and a string.
fn command(rt: &impl Abort, alloc: Global) -> Item {
    let text = ByteString::from_slice(alloc, b"a b").expect(rt, "memory");
    let params = vec![in alloc; Item::Number(7), Item::Str(text)].expect(rt, "memory");
    let word = Name::from_slice(alloc, b"check-path").expect(rt, "memory");
    let parts = vec![in alloc; Item::Word(word), Item::List(params)];
    Item::List(parts.expect(rt, "memory"))
}

// A command is one item.
#[test]
fn decodes_what_it_writes(rt: HostRuntime) {
    let alloc = rt.alloc();
    let mut written = Vec::new(alloc);
    write_item(&command(&rt, alloc), &mut written).expect(&rt, "memory");
    let is_command = written.as_slice() == b"( check-path ( 7 3:a b ) ) ".as_slice();
    let pieces = vec![in alloc; written].expect(&rt, "memory");
    let items = decode(alloc, pieces.as_slice()).expect(&rt, "items");
    assert!(rt; is_command && items.len() == 1);
}

/// Says whether a string is of so many bytes.
fn is_string(item: Option<Item>, length: usize) -> bool {
    match item {
        Some(Item::Str(text)) => text.as_slice().len() == length,
        _ => false,
    }
}

// A million pieces of one byte.
#[test]
fn takes_a_long_string_byte_by_byte(rt: HostRuntime) {
    let mut reader = ItemReader::new(rt.alloc());
    reader.feed(b"1000000:").expect(&rt, "memory");
    let mut waits = true;
    for _ in 0..1_000_000u32 {
        reader.feed(b"(").expect(&rt, "memory");
        waits &= matches!(reader.next(), Ok(None));
    }
    reader.feed(b" ").expect(&rt, "memory");
    let is_string = is_string(reader.next().expect(&rt, "an item"), 1_000_000);
    assert!(rt; waits && is_string);
}

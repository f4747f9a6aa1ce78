//! The small files of a folder, by the rules of both formats and by Subversion's folders.
use fsfs_nodes::{Current, NextIds, append_current, read_current};
use fsfs_text::{FileFault, Format, Layout, append_format, read_format};
use std::alloc::Global;
use std::test::Fail;

/// Texts of `format`, and what they say.
const FORMATS: [(&[u8], Format); 6] = [
    (b"2\n", Format::Two),
    (b"3\n", Format::Three(Layout::Linear)),
    (b"3\nlayout linear\n", Format::Three(Layout::Linear)),
    (b"3\nlayout sharded 1\n", Format::Three(Layout::Sharded(1))),
    (
        b"3\nlayout sharded 1000\n",
        Format::Three(Layout::Sharded(1000)),
    ),
    (
        b"3\nlayout sharded 262144\n",
        Format::Three(Layout::Sharded(262_144)),
    ),
];

/// Texts of `format` that say none that is read.
const WRONG_FORMATS: [&[u8]; 36] = [
    b"",
    b"2",
    b"3",
    b"1\n",
    b"4\n",
    b"4\nlayout linear\n",
    b"8\nlayout sharded 1000\naddressing logical\n",
    b"+3\n",
    b"03\n",
    b" 3\n",
    b"3 \n",
    b"3\r\n",
    b"\n3\n",
    b"2\n\n",
    b"2\nlayout linear\n",
    b"2\nlayout sharded 1000\n",
    b"3\n\n",
    b"3\nlayout linear",
    b"3\nlayout  linear\n",
    b"3\nlinear\n",
    b"3\nlayout linear\nlayout linear\n",
    b"3\nlayout linear\n\n",
    b"3\nlayout sharded\n",
    b"3\nlayout sharded \n",
    b"3\nlayout sharded 0\n",
    b"3\nlayout sharded 01\n",
    b"3\nlayout sharded 01000\n",
    b"3\nlayout sharded +1000\n",
    b"3\nlayout sharded -1\n",
    b"3\nlayout sharded 1000",
    b"3\nlayout sharded 1000 \n",
    b"3\nlayout sharded 262145\n",
    b"3\nlayout sharded 18446744073709552616\n",
    b"3\nlayout sharded 1000\nx\n",
    b"3\nlayout sharded 0x10\n",
    b"3\nLAYOUT linear\n",
];

#[test]
fn formats_are_read(rt: HostRuntime) {
    for (text, format) in &FORMATS {
        assert!(rt; read_format(text) == Ok(*format), "{format:?}");
    }
    for (place, text) in WRONG_FORMATS.iter().enumerate() {
        assert!(rt; read_format(text) == Err(FileFault::WrongFormat), "{place}");
    }
}

/// Makes the file `format`.
fn written(alloc: Global, format: Format) -> Result<Vec<u8>, Fail> {
    let mut out = Vec::new(alloc);
    append_format(&mut out, format)?;
    Ok(out)
}

#[test]
fn formats_are_written_with_their_layout(rt: HostRuntime) -> Result<(), Fail> {
    for (text, format) in &FORMATS {
        // Without a line the layout is linear, which is written.
        let wanted = if *text == b"3\n".as_slice() {
            b"3\nlayout linear\n".as_slice()
        } else {
            *text
        };
        assert!(rt;
            written(rt.alloc(), *format)?.as_slice() == wanted,
            "{format:?}"
        );
    }
    Ok(())
}

/// Sizes of shards with the shards of revisions 0, 999, 1000, 1001 and 262143, as a calculator has them.
const SHARDS: [(u32, [u32; 5]); 4] = [
    (1, [0, 999, 1000, 1001, 262_143]),
    (7, [0, 142, 142, 143, 37_449]),
    (1000, [0, 0, 1, 1, 262]),
    (262_144, [0, 0, 0, 0, 0]),
];

#[test]
fn a_revision_has_its_shard(rt: HostRuntime) {
    let numbers = [0, 999, 1000, 1001, 262_143];
    for (size, shards) in &SHARDS {
        for (number, shard) in numbers.iter().zip(shards) {
            let found = Layout::Sharded(*size).shard(*number);
            assert!(rt; found == Some(*shard), "{size} {number}");
        }
    }
    assert!(rt; Layout::Linear.shard(1000).is_none());
}

/// What a text of `current` says in format 2, the youngest and the ids that come next, and in format 3, the youngest.
type Said = (Result<(u32, u128, u128), FileFault>, Result<u32, FileFault>);

/// Texts of `current`, and what they say in both formats.
const CURRENTS: [(&[u8], Said); 19] = [
    (b"0\n", (Err(FileFault::BadLine), Ok(0))),
    (b"1\n", (Err(FileFault::BadLine), Ok(1))),
    (b"0 1 1\n", (Ok((0, 1, 1)), Ok(0))),
    (b"1 2 1\n", (Ok((1, 2, 1)), Ok(1))),
    (b"1 x y\n", (Ok((1, 33, 34)), Ok(1))),
    (b"1 \n", (Err(FileFault::BadLine), Ok(1))),
    (b"1 2\n", (Err(FileFault::BadLine), Ok(1))),
    (b"1 2 1 1\n", (Err(FileFault::BadLine), Ok(1))),
    (b"262143\n", (Err(FileFault::BadLine), Ok(262_143))),
    (
        b"262144\n",
        (Err(FileFault::BadLine), Err(FileFault::BadLine)),
    ),
    (b"01\n", (Err(FileFault::BadLine), Ok(1))),
    (b"1", (Err(FileFault::Truncated), Err(FileFault::Truncated))),
    (b"", (Err(FileFault::Truncated), Err(FileFault::Truncated))),
    (
        b"1 2 1",
        (Err(FileFault::Truncated), Err(FileFault::Truncated)),
    ),
    (b"\n", (Err(FileFault::BadLine), Err(FileFault::BadLine))),
    (b" 1\n", (Err(FileFault::BadLine), Err(FileFault::BadLine))),
    (b"+1\n", (Err(FileFault::BadLine), Err(FileFault::BadLine))),
    (b"1\n\n", (Err(FileFault::BadLine), Err(FileFault::BadLine))),
    (
        b"1\t2\n",
        (Err(FileFault::BadLine), Err(FileFault::BadLine)),
    ),
];

/// Gives what a text of `current` says in format 2.
fn said_in_two(text: &[u8]) -> Result<(u32, u128, u128), FileFault> {
    match read_current(Format::Two, text)? {
        Current {
            format: Format::Two,
            youngest,
            ids: Some(ids),
        } => Ok((youngest, ids.node, ids.copy)),
        _ => Err(FileFault::WrongFormat),
    }
}

/// Gives what a text of `current` says in format 3.
fn said_in_three(text: &[u8]) -> Result<u32, FileFault> {
    match read_current(Format::Three(Layout::Sharded(1000)), text)? {
        Current {
            format: Format::Three(Layout::Sharded(1000)),
            youngest,
            ids: None,
        } => Ok(youngest),
        _ => Err(FileFault::WrongFormat),
    }
}

#[test]
fn current_is_read_by_the_format(rt: HostRuntime) {
    for (place, (text, (two, three))) in CURRENTS.iter().enumerate() {
        assert!(rt; said_in_two(text) == *two, "{place}");
        assert!(rt; said_in_three(text) == *three, "{place}");
    }
}

/// Makes the file `current`.
fn current(alloc: Global, current: Current) -> Result<Vec<u8>, Fail> {
    let mut out = Vec::new(alloc);
    append_current(&mut out, current)?;
    Ok(out)
}

#[test]
fn current_is_written_by_the_format(rt: HostRuntime) -> Result<(), Fail> {
    let two = Current {
        format: Format::Two,
        youngest: 1,
        ids: Some(NextIds { node: 33, copy: 36 }),
    };
    assert!(rt; current(rt.alloc(), two)?.as_slice() == b"1 x 10\n".as_slice());
    let three = Current {
        format: Format::Three(Layout::Linear),
        youngest: 1000,
        ids: None,
    };
    assert!(rt; current(rt.alloc(), three)?.as_slice() == b"1000\n".as_slice());
    Ok(())
}

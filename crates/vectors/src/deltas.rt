ghost use Rattle.std.specs.Prelude.{◌≤◌, length};

use std::alloc::Global;
use std::process::Abort;
use std::sync::Arc;
use svndiff0::{Applier, DiffFault, encode_full};

const HELLO: &[u8] = b"hello\n";

/// A base, a document, and its text; or the rule that it breaks, and at which byte that shows, if not at its end.
type Row = (
    &'static [u8],
    &'static [u8],
    Result<&'static [u8], (DiffFault, Option<usize>)>,
);

/// What the pieces of a document are answered.
#[derive(Drop)]
struct Applied {
    /// The byte of the first fault.
    at: Option<usize>,
    /// What the end answers.
    text: Result<Arc<Vec<u8>>, DiffFault>,
    /// Whether each later fault is the first one, and the text is the same whether it is shared or not.
    is_steady: bool,
}

/// Says whether a text is the same as the shared one, or refused by the same fault.
fn is_shared(text: Result<&[u8], DiffFault>, shared: &Result<Arc<Vec<u8>>, DiffFault>) -> bool {
    match (text, shared) {
        (Ok(text), Ok(shared)) => text == shared.as_slice(),
        (Err(fault), Err(known)) => fault == *known,
        _ => false,
    }
}

/// Feeds a document in one piece up to the byte `cut`, and byte by byte from there. The text is shared at the cut too,
/// and held while more is fed.
fn apply(rt: &impl Abort, alloc: Global, base: &[u8], document: &[u8], cut: usize) -> Applied
    requires { cut ≤ length document.now }
{
    let base = Vec::from_slice(alloc, base).expect(rt, "memory");
    let base = Arc::new(alloc, base).expect(rt, "memory");
    let mut applier = Applier::new(alloc, base);
    let (front, back) = document.split_at(cut);
    let mut first = applier.feed(front).err().map(|fault| (0usize, fault));
    let _held = applier.share_text();
    let mut is_steady = true;
    for (at, byte) in back.iter().enumerate() {
        if let Err(fault) = applier.feed(&[*byte]) {
            let (_, known) = *first.get_or_insert((at.saturating_add(cut), fault));
            is_steady &= fault == known;
        }
    }
    let shared = applier.share_text();
    is_steady &= is_shared(applier.text(), &shared);
    Applied {
        at: first.map(|(at, _)| at),
        text: shared,
        is_steady,
    }
}

/// Says whether a document that was cut at this byte gave the wanted text without a fault, or the wanted fault. Fed
/// byte by byte from its start, one that breaks a rule shows its first fault at the wanted byte, or at its end.
fn is_wanted(
    applied: &Applied,
    want: Result<&[u8], (DiffFault, Option<usize>)>,
    cut: usize,
) -> bool {
    match (&applied.text, want) {
        (Ok(text), Ok(wanted)) => {
            applied.is_steady && text.as_slice() == wanted && applied.at.is_none()
        }
        (Err(fault), Err((wanted, place))) => {
            applied.is_steady && *fault == wanted && (cut != 0 || applied.at == place)
        }
        _ => false,
    }
}

/// Says whether the document gives what the row says, at whatever byte it is cut.
fn is_row(rt: &impl Abort, alloc: Global, row: &Row) -> bool {
    let (base, document, want) = *row;
    let mut is_right = true;
    for cut in 0..=document.len() {
        is_right = is_right && is_wanted(&apply(rt, alloc, base, document, cut), want, cut);
    }
    is_right
}

/// Says whether each document gives what its row says.
fn are_rows(rt: &impl Abort, alloc: Global, rows: &[Row]) -> bool {
    let mut are_right = true;
    for row in rows {
        are_right &= is_row(rt, alloc, row);
    }
    are_right
}

static DOCUMENTS: [Row; 10] = [
    (b"", b"SVN\0\0\0\x06\x01\x06\x86hello\n", Ok(HELLO)),
    (
        b"",
        b"SVN\0\0\0\x06\x01\x06\x46hello\n",
        Err((DiffFault::TargetCopy, Some(15))),
    ),
    (
        b"",
        b"SVN\0\0\0\x06\x01\x06\x06hello\n",
        Err((DiffFault::BadInstruction, Some(15))),
    ),
    (
        b"",
        b"SVN\0\0\0\x07\x01\x06\x86hello\n",
        Err((DiffFault::LengthsDisagree, Some(15))),
    ),
    (b"", b"SVN\0", Ok(b"")),
    (b"", b"SVN", Err((DiffFault::Truncated, None))),
    (b"", b"SVN\x01", Err((DiffFault::BadHeader, Some(3)))),
    (
        HELLO,
        b"SVN\0\0\x06\x08\x05\x02\x04\0\x82\x02\x04XY",
        Ok(b"hellXYo\n"),
    ),
    (
        b"hello",
        b"SVN\0\0\x06\x08\x05\x02\x04\0\x82\x02\x04XY",
        Err((DiffFault::ViewBeyondBase, Some(8))),
    ),
    (
        HELLO,
        b"SVN\0\0\x06\x08\x05\x02\x04\0\x82\x03\x04XY",
        Err((DiffFault::CopyBeyondView, Some(15))),
    ),
];

#[test]
fn documents(rt: HostRuntime) {
    assert!(rt; are_rows(&rt, rt.alloc(), &DOCUMENTS));
}

static WINDOWS: [Row; 12] = [
    // the second window lies before the first
    (
        b"abcdef",
        b"SVN\0\x03\x03\x03\x02\0\x03\0\0\x03\x03\x02\0\x03\0",
        Ok(b"defabc"),
    ),
    // an empty view at the base's end
    (b"abc", b"SVN\0\x03\0\x01\x01\x01\x81x", Ok(b"x")),
    (
        b"abc",
        b"SVN\0\x01\x03\x03\x02\0",
        Err((DiffFault::ViewBeyondBase, Some(8))),
    ),
    // the length 1 as an integer of two bytes
    (b"", b"SVN\0\0\0\x01\x03\x01\x80\x80\x01x", Ok(b"x")),
    // instructions cut by the end of their section
    (
        b"",
        b"SVN\0\0\0\x01\x01\x01\x80x",
        Err((DiffFault::BadInstruction, Some(10))),
    ),
    (
        b"abc",
        b"SVN\0\0\x03\x01\x01\0\x01",
        Err((DiffFault::BadInstruction, Some(9))),
    ),
    (
        b"",
        b"SVN\0\0\0\0\x02\0\x80\0",
        Err((DiffFault::BadInstruction, Some(10))),
    ),
    (
        b"",
        b"SVN\0\0\0\x01\x01\x01\xC1x",
        Err((DiffFault::BadInstruction, Some(10))),
    ),
    // new data left over, and too little of it
    (
        b"",
        b"SVN\0\0\0\x01\x01\x02\x81xy",
        Err((DiffFault::LengthsDisagree, Some(11))),
    ),
    (
        b"",
        b"SVN\0\0\0\x02\x01\x01\x82x",
        Err((DiffFault::LengthsDisagree, Some(10))),
    ),
    // a later instruction's fault comes before lengths that disagree
    (
        b"",
        b"SVN\0\0\0\x02\x02\x01\x82\x41x",
        Err((DiffFault::TargetCopy, Some(11))),
    ),
    (
        b"",
        b"SVN\0\0\0\x01\x01\x01\x81",
        Err((DiffFault::Truncated, None)),
    ),
];

#[test]
fn windows(rt: HostRuntime) {
    assert!(rt; are_rows(&rt, rt.alloc(), &WINDOWS));
}

static LIMITS: [Row; 9] = [
    (
        b"",
        b"SVN\0\x81\x81\x81\x81\x81\x81\x81\x81\x81",
        Err((DiffFault::Truncated, None)),
    ),
    (
        b"",
        b"SVN\0\x81\x81\x81\x81\x81\x81\x81\x81\x81\x81",
        Err((DiffFault::TooLarge, Some(13))),
    ),
    (
        b"",
        b"SVN\0\x81\x81\x81\x81\x81\x81\x81\x81\x01\0\0\0\0",
        Err((DiffFault::ViewBeyondBase, Some(16))),
    ),
    // 16,777,216 bytes may be announced, 16,777,217 may not
    (
        b"",
        b"SVN\0\0\0\x88\x80\x80\0\x88\x80\x80\0\x88\x80\x80\0",
        Err((DiffFault::Truncated, None)),
    ),
    (
        b"",
        b"SVN\0\0\0\x88\x80\x80\x01",
        Err((DiffFault::TooLarge, Some(9))),
    ),
    (
        b"",
        b"SVN\0\0\0\0\x88\x80\x80\x01",
        Err((DiffFault::TooLarge, Some(10))),
    ),
    (
        b"",
        b"SVN\0\0\0\0\0\x88\x80\x80\x01",
        Err((DiffFault::TooLarge, Some(11))),
    ),
    // the whole text would have 16,777,217
    (
        b"",
        b"SVN\0\0\0\x01\x01\x01\x81x\0\0\x88\x80\x80\0",
        Err((DiffFault::TooLarge, Some(16))),
    ),
    // an instruction's integer of ten bytes
    (
        b"",
        b"SVN\0\0\0\x01\x0B\0\x80\x81\x81\x81\x81\x81\x81\x81\x81\x81\x81",
        Err((DiffFault::TooLarge, Some(19))),
    ),
];

#[test]
fn limits(rt: HostRuntime) {
    assert!(rt; are_rows(&rt, rt.alloc(), &LIMITS));
}

/// Says whether the document of this text gives it.
fn is_read_again(rt: &impl Abort, alloc: Global, text: &[u8]) -> bool {
    let document = encode_full(alloc, text).expect(rt, "memory");
    let cut = document.len() / 2;
    let applied = apply(rt, alloc, b"base", document.as_slice(), cut);
    is_wanted(&applied, Ok(text), cut)
}

/// Sizes of texts whose documents are read again.
static SIZES: [usize; 12] = [
    0, 1, 63, 64, 127, 128, 16_383, 16_384, 65_535, 65_536, 65_537, 200_000,
];

#[test]
fn full(rt: HostRuntime) {
    let alloc = rt.alloc();
    let document = encode_full(alloc, HELLO).expect(&rt, "memory");
    let mut are_right = document.as_slice() == b"SVN\0\0\0\x06\x01\x06\x86hello\n".as_slice();
    for size in SIZES.iter() {
        let text = vec![in alloc; 7u8; *size].expect(&rt, "memory");
        are_right &= is_read_again(&rt, alloc, text.as_slice());
    }
    assert!(rt; are_right);
}

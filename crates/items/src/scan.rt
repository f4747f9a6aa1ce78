// The scanner: it goes over the bytes once, up to the end of an item or to a byte that is wrong.
ghost use Rattle.std.specs.Prelude.{◌≡◌, ◌≤◌, IfSome, if◌then◌else◌};
ghost use Rattle.items.specs.{Values.limits, Scan.{step, behind_body, gap_step, step_in, number_step, is_space, is_word_byte, StaysShallow}};
ghost use Rattle.items.specs.{Run.{IsScanned, EndsSo, Skips}, Tally.{IsCounted, begun, lacking}};

pub const MAX_DEPTH: u64 = 64;

pub const MAX_STRING: u64 = 16_777_216;

/// Where in an item a byte comes: between items, behind a `(`, in a word, in a number of this value
/// so far, or in a string that lacks so many bytes. Behind a `)` a string lacks none.
#[derive(Clone, Copy)]
pub enum Lex {
    Gap,
    Open,
    Word,
    Number(u64),
    Tail(u64),
}

/// What is wrong with a byte.
#[derive(Clone, Copy)]
pub enum Defect {
    Malformed,
    TooDeep,
    StringTooLong,
    NumberTooLarge,
}

/// How many lists are open, and where in an item the next byte comes.
#[derive(Clone, Copy)]
pub struct Scan {
    pub depth: u64,
    pub lex: Lex,
}

/// What a byte does: the item goes on, it is whole, or the byte is wrong.
#[derive(Clone, Copy)]
pub enum Step {
    On(Scan),
    Whole,
    Bad(Defect),
}

/// How many bytes are scanned, how many items begin in them, and the scan behind them.
#[derive(Clone, Copy)]
pub struct Progress {
    pub count: usize,
    pub items: usize,
    pub scan: Scan,
}

/// What comes behind the bytes that are scanned: none yet, the last byte of an item, or a wrong one.
#[derive(Clone, Copy)]
pub enum End {
    More,
    Whole,
    Bad(Defect),
}

#[tactic(auto, using(crate::proofs::Scanned::scanned_more, crate::proofs::Scanned::scanned_skip, crate::proofs::Counted::counted_more, crate::proofs::Counted::counted_skip))]
/// Scans on, until an item is whole, a byte is wrong, or the bytes end.
pub fn proceed(from: Progress, bytes: &[u8]) -> (Progress, End)
    requires scanned { IsScanned bytes.now from.count from.scan }
    requires counted { IsCounted bytes.now from.count from.items }
    ensures scanned { IsScanned bytes.now result.0.count result.0.scan }
    ensures counted { IsCounted bytes.now result.0.count result.0.items }
    ensures ends { EndsSo bytes.now result.0.count result.0.scan result.1 }
{
    let mut count = from.count;
    let mut items = from.items;
    let mut scan = from.scan;
    'scanning: while count < bytes.len() {
        if let Some((behind, len)) = skip_string(scan, bytes.len() - count) {
            scan = behind;
            count += len;
        } else {
            match take_byte(scan, bytes[count]) {
                Step::On(next) => {
                    items += begun(scan.lex, next.lex);
                    scan = next;
                    count += 1;
                }
                Step::Whole => return (Progress { count, items, scan }, End::Whole),
                Step::Bad(defect) => return (Progress { count, items, scan }, End::Bad(defect)),
            }
        }
    }
    (Progress { count, items, scan }, End::More)
}

/// Says how many items begin with the byte between `from` and `to`: one, or none.
fn begun(from: Lex, to: Lex) -> usize
    ensures { result ≡ begun from to }
{
    match (from, to) {
        (Lex::Gap, Lex::Open) => 1,
        (Lex::Gap, Lex::Word) => 1,
        (Lex::Gap, Lex::Number(_)) => 1,
        _ => 0,
    }
}

/// Says how many items are still to begin at least: one where none has.
pub fn lacking(scan: Scan) -> usize
    ensures { result ≡ lacking scan }
{
    match scan.lex {
        Lex::Gap => one_if(scan.depth == 0),
        Lex::Open => one_if(scan.depth == 0),
        _ => 0,
    }
}

/// Gives one if that holds, and else none.
fn one_if(holds: bool) -> usize
    ensures { result ≡ (if holds then 1 else 0) }
{
    if holds { 1 } else { 0 }
}

// In a string: past as many of its bytes as there are.
fn skip_string(scan: Scan, room: usize) -> Option<(Scan, usize)>
    ensures { IfSome result (λ x. Skips scan x.0 x.1 room) }
{
    let Lex::Tail(left) = scan.lex else {
        return None;
    };
    let len = left.min(room as u64);
    if len == 0 {
        return None;
    }
    let behind = Scan {
        depth: scan.depth,
        lex: Lex::Tail(left - len),
    };
    Some((behind, len as usize))
}

/// Says what a byte does, by where in an item it comes. If the item goes on, no more than `MAX_DEPTH` lists are open.
#[tactic(auto, unfolding(crate::specs::Scan::step_in))]
pub fn take_byte(scan: Scan, byte: u8) -> Step
    requires { scan.depth ≤ MAX_DEPTH }
    ensures step { result ≡ step limits scan byte }
    ensures shallow { StaysShallow result }
{
    let depth = scan.depth;
    match scan.lex {
        Lex::Gap => in_gap(depth, byte),
        Lex::Open => behind_opening(depth, byte),
        Lex::Word => in_word(depth, byte),
        Lex::Number(n) => in_number(depth, n, byte),
        Lex::Tail(left) => in_tail(depth, left, byte),
    }
}

/// Says whether a byte is a space or a line feed, the only whitespace of the stream.
pub fn is_space(byte: u8) -> bool
    ensures { result ≡ is_space byte }
{
    byte == b' ' || byte == b'\n'
}

/// Says whether a byte may follow the first of a word: an ASCII letter, a digit or a dash.
pub fn is_word_byte(byte: u8) -> bool
    ensures { result ≡ is_word_byte byte }
{
    byte.is_ascii_alphanumeric() || byte == b'-'
}

/// Makes the step by which the item goes on, with `depth` lists open and the next byte where `lex` says.
fn on(depth: u64, lex: Lex) -> Step
    ensures { result ≡ Step.On (record { depth = depth; lex = lex }) }
{
    Step::On(Scan { depth, lex })
}

/// Takes the byte after the last one of a word, a number, a string or a list, which has to be whitespace. It makes
/// the item whole if no list is open; else the next byte comes between items.
#[tactic(auto, unfolding(crate::specs::Scan::behind_body))]
fn behind_body(depth: u64, byte: u8) -> Step
    requires { depth ≤ MAX_DEPTH }
    ensures step { result ≡ behind_body depth byte }
    ensures shallow { StaysShallow result }
{
    if !is_space(byte) {
        return Step::Bad(Defect::Malformed);
    }
    if depth == 0 {
        Step::Whole
    } else {
        on(depth, Lex::Gap)
    }
}

/// Takes a byte between items: whitespace, or one that begins an item or closes the innermost list. Any other byte is
/// malformed, as is a `)` where no list is open; a `(` where `MAX_DEPTH` lists are open is too deep.
#[tactic(auto, unfolding(crate::specs::Scan::gap_step))]
fn in_gap(depth: u64, byte: u8) -> Step
    requires { depth ≤ MAX_DEPTH }
    ensures step { result ≡ gap_step limits depth byte }
    ensures shallow { StaysShallow result }
{
    if is_space(byte) {
        on(depth, Lex::Gap)
    } else if byte == b'(' {
        if depth < MAX_DEPTH {
            on(depth + 1, Lex::Open)
        } else {
            Step::Bad(Defect::TooDeep)
        }
    } else if byte == b')' {
        if depth == 0 {
            Step::Bad(Defect::Malformed)
        } else {
            on(depth - 1, Lex::Tail(0))
        }
    } else if byte.is_ascii_digit() {
        on(depth, Lex::Number((byte - b'0') as u64))
    } else if byte.is_ascii_alphabetic() {
        on(depth, Lex::Word)
    } else {
        Step::Bad(Defect::Malformed)
    }
}

/// Takes the byte after a `(`, which has to be whitespace.
#[tactic(auto, unfolding(crate::specs::Scan::step_in))]
fn behind_opening(depth: u64, byte: u8) -> Step
    requires { depth ≤ MAX_DEPTH }
    ensures step { result ≡ step_in limits depth Lex.Open byte }
    ensures shallow { StaysShallow result }
{
    if is_space(byte) {
        on(depth, Lex::Gap)
    } else {
        Step::Bad(Defect::Malformed)
    }
}

/// Takes the byte after a word's first ones: it belongs to the word too, or has to be the whitespace that ends it.
#[tactic(auto, unfolding(crate::specs::Scan::step_in))]
fn in_word(depth: u64, byte: u8) -> Step
    requires { depth ≤ MAX_DEPTH }
    ensures step { result ≡ step_in limits depth Lex.Word byte }
    ensures shallow { StaysShallow result }
{
    if is_word_byte(byte) {
        on(depth, Lex::Word)
    } else {
        behind_body(depth, byte)
    }
}

/// Takes the byte after digits of the value `n`: a further digit, the `:` that makes `n` the length of a string, or
/// whitespace. The value has to fit in 64 bits, and a string has `MAX_STRING` bytes at most.
#[tactic(auto, unfolding(crate::specs::Scan::number_step))]
fn in_number(depth: u64, n: u64, byte: u8) -> Step
    requires { depth ≤ MAX_DEPTH }
    ensures step { result ≡ number_step limits depth n byte }
    ensures shallow { StaysShallow result }
{
    if byte.is_ascii_digit() {
        let value = 10 * (n as u128) + (byte - b'0') as u128;
        if value <= u64::MAX as u128 {
            on(depth, Lex::Number(value as u64))
        } else {
            Step::Bad(Defect::NumberTooLarge)
        }
    } else if byte == b':' {
        if n <= MAX_STRING {
            on(depth, Lex::Tail(n))
        } else {
            Step::Bad(Defect::StringTooLong)
        }
    } else {
        behind_body(depth, byte)
    }
}

/// Takes a byte of a string that lacks `left` bytes, whichever it is. If none are lacking, it has to be whitespace.
#[tactic(auto, unfolding(crate::specs::Scan::step_in))]
fn in_tail(depth: u64, left: u64, byte: u8) -> Step
    requires { depth ≤ MAX_DEPTH }
    ensures step { result ≡ step_in limits depth (Lex.Tail left) byte }
    ensures shallow { StaysShallow result }
{
    if left == 0 {
        behind_body(depth, byte)
    } else {
        on(depth, Lex::Tail(left - 1))
    }
}

// One line of the users file.
ghost use Rattle.std.specs.{Prelude.{◌≡◌, ℕ, ◌<◌, ◌==◌, ◌∷◌, length, MatchOption}, Str.Lines.{lines, strip_carriage_return}};
ghost use Rattle.cram.specs.Line.{is_blank, is_outside_names, is_user_name, has_right_length, line_of, pair_of, pair_or_wrong, without_first_blanks};
ghost use Rattle.cram.specs.{Line.without_last_blanks, Parts.{IsSplitAtFirst, IsWithout}, ParsedLine.said_by};

// The most bytes of a name or of a password.
const MAX_LEN: usize = 255;

/// What a line says.
pub enum ParsedLine<'a> {
    Blank,
    Comment,
    Header,
    Pair { name: &'a [u8], password: &'a [u8] },
    Wrong,
}

/// Gives the first line, without its end, and the bytes after its end. A line ends with LF or CRLF, and the last one
/// also with the bytes.
pub fn split_line(bytes: &[u8]) -> (&[u8], &[u8])
    requires { 0 < length bytes.now }
    ensures lines { lines bytes.now ≡ result.0.now ∷ lines result.1.now }
    ensures shorter { length result.1.now < length bytes.now }
{
    match split_once(bytes, b'\n') {
        Some((line, rest)) => (without_return(line), rest),
        None => (bytes, &[]),
    }
}

// What stands before the first separator and behind it.
fn split_once(bytes: &[u8], separator: u8) -> Option<(&[u8], &[u8])>
    ensures { let is_separator = λ (b : ℕ). b == separator in
        MatchOption result (IsWithout is_separator bytes.now) (λ parts. IsSplitAtFirst is_separator bytes.now parts.0.now parts.1.now) }
{
    match bytes.iter().position(|b| *b == separator) {
        Some(place) => Some((&bytes[..place], &bytes[place + 1..])),
        None => None,
    }
}

/// Gives the line without the CR at its end, if it has one. Only one is dropped.
fn without_return(line: &[u8]) -> &[u8]
    ensures { result.now ≡ strip_carriage_return line.now }
{
    line.strip_suffix(b"\r").unwrap_or(line)
}

/// Reads a line that has no end.
#[tactic(auto, unfolding(crate::specs::Line::line_of))]
pub fn parse_line(line: &[u8]) -> ParsedLine<'_>
    ensures { said_by result ≡ line_of line.now }
{
    if line.iter().all(|b| is_blank(*b)) {
        ParsedLine::Blank
    } else if line.starts_with(b"#") {
        ParsedLine::Comment
    } else if line == b"[users]".as_slice() {
        ParsedLine::Header
    } else {
        parse_pair(line)
    }
}

/// Reads `name = password`, and drops the blanks before and after the first `=`. Without a `=`, or with a name or a
/// password that no user may have, the line is `Wrong`.
#[tactic(auto, unfolding(crate::specs::Line::pair_of))]
fn parse_pair(line: &[u8]) -> ParsedLine<'_>
    ensures { said_by result ≡ pair_or_wrong (pair_of line.now) }
{
    let Some((name, password)) = split_once(line, b'=') else {
        return ParsedLine::Wrong;
    };
    let name = without_last_blanks(name);
    let password = without_first_blanks(password);
    if is_user_name(name) && has_right_length(password) {
        ParsedLine::Pair { name, password }
    } else {
        ParsedLine::Wrong
    }
}

/// Says whether a user may have the name: 1 to 255 bytes, none of them a space or a NUL.
pub fn is_user_name(bytes: &[u8]) -> bool
    ensures { result ≡ is_user_name bytes.now }
{
    has_right_length(bytes) && !bytes.iter().any(|b| is_outside_names(*b))
}

/// Says whether the byte is a space or a NUL.
fn is_outside_names(byte: u8) -> bool
    ensures { result ≡ is_outside_names byte }
{
    byte == b' ' || byte == 0
}

// Whether a name or a password may have as many bytes.
fn has_right_length(bytes: &[u8]) -> bool
    ensures { result ≡ has_right_length bytes.now }
{
    !bytes.is_empty() && bytes.len() <= MAX_LEN
}

/// Gives the bytes from the first one on that is no space and no tab, and none where there is no such byte.
fn without_first_blanks(bytes: &[u8]) -> &[u8]
    ensures { result.now ≡ without_first_blanks bytes.now }
{
    let count = bytes.iter().take_while(|b| is_blank(**b)).count();
    &bytes[count..]
}

/// Gives the bytes up to the last one that is no space and no tab, and none where there is no such byte.
fn without_last_blanks(bytes: &[u8]) -> &[u8]
    ensures { result.now ≡ without_last_blanks bytes.now }
{
    let count = bytes.iter().rev().take_while(|b| is_blank(**b)).count();
    &bytes[..bytes.len() - count]
}

/// Says whether the byte is a space or a tab.
fn is_blank(byte: u8) -> bool
    ensures { result ≡ is_blank byte }
{
    byte == b' ' || byte == b'\t'
}

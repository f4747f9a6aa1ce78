//! How many revisions the file `current` says there are.
ghost use Rattle.std.specs.Prelude.{◌≡◌};
ghost use Rattle.repostore.specs.Current.{count_in, is_digit, is_end};

/// Says whether the byte is a decimal digit.
fn is_digit(byte: u8) -> bool
    ensures { result ≡ is_digit byte }
{
    b'0' <= byte && byte <= b'9'
}

/// Says whether the byte is a space or a line feed.
fn is_end(byte: u8) -> bool
    ensures { result ≡ is_end byte }
{
    byte == b' ' || byte == b'\n'
}

/// Says how many revisions there are, by the bytes of `current`.
pub fn count_of(bytes: &[u8]) -> Option<u32>
    ensures { result ≡ count_in bytes.now }
{
    if bytes.is_empty() || !is_digit(bytes[0]) {
        return None;
    }
    let mut youngest: u32 = 0;
    for &byte in bytes {
        if is_end(byte) {
            return Some(youngest + 1);
        }
        if !is_digit(byte) {
            return None;
        }
        youngest = 10 * youngest + (byte - b'0') as u32;
        if youngest > 262_143 {
            return None;
        }
    }
    None
}

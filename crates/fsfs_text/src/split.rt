//! Parts of a text round a separator.
ghost use Rattle.std.specs.Prelude.{◌≡◌, option_map, Ok, Err};
ghost use Rattle.fsfs_text.specs.{Splits.{split_once, split_last, line_at, without_prefix}, Reading.Gives};

use crate::fault::FileFault;

/// Gives what stands before the first separator and behind it.
pub fn split_once(bytes: &[u8], separator: u8) -> Option<(&[u8], &[u8])>
    ensures { option_map (λ p. (p.0.now, p.1.now)) result ≡ split_once separator bytes.now }
{
    for (i, b) in bytes.iter().enumerate() {
        if *b == separator {
            return Some((&bytes[..i], &bytes[i + 1..]));
        }
    }
    None
}

/// Gives what stands before the last separator and behind it.
pub fn split_last(bytes: &[u8], separator: u8) -> Option<(&[u8], &[u8])>
    ensures { option_map (λ p. (p.0.now, p.1.now)) result ≡ split_last separator bytes.now }
{
    let mut end = bytes.len();
    while end > 0 {
        end -= 1;
        if bytes[end] == separator {
            return Some((&bytes[..end], &bytes[end + 1..]));
        }
    }
    None
}

/// Reads the line in front, without its line feed, and gives what stands behind it too.
///
/// # Errors
///
/// `Truncated` where no line feed comes.
pub fn line_at(bytes: &[u8]) -> Result<(&[u8], &[u8]), FileFault>
    ensures { Gives (λ p. (p.0.now, p.1.now)) result (line_at bytes.now) }
{
    match split_once(bytes, b'\n') {
        Some(parts) => Ok(parts),
        None => Err(FileFault::Truncated),
    }
}

/// Gives what stands behind the prefix, where the bytes begin with it.
#[tactic(auto, unfolding(crate::specs::Splits::without_prefix))]
pub fn without_prefix<'a>(bytes: &'a [u8], prefix: &[u8]) -> Option<&'a [u8]>
    ensures { option_map (λ p. p.now) result ≡ without_prefix prefix.now bytes.now }
{
    if bytes.len() < prefix.len() {
        return None;
    }
    let (front, rest) = bytes.split_at(prefix.len());
    if front == prefix { Some(rest) } else { None }
}

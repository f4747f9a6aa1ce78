//! Windows: five integers, then the instructions, then the new data.

ghost use Rattle.std.specs.Prelude.{◌≡◌, ◌<◌, IfOk, IfSome};
ghost use Rattle.svndiff0.specs.{Read.Gives, Window.head_at, Sums.{HasBounds, SumsGrow}, Applying.{AppliesWindow, AppliesAll}};

use crate::fault::DiffFault;
use crate::integer::{read_bounded, read_integer};
use crate::section::{carry_out, sum_lengths};

/// The longest text, and the longest section of instructions or new data, in bytes.
pub const LIMIT: usize = 16_777_216;

/// The five integers at the front of a window.
#[derive(Clone, Copy, Debug, PartialEq, Eq)]
pub struct Head {
    /// Where the source view begins in the base.
    pub offset: usize,
    /// The length of the source view.
    pub view: usize,
    /// The length of the target view.
    pub target: usize,
    /// How many bytes of instructions there are.
    pub section: usize,
    /// How many bytes of new data there are.
    pub new_data: usize,
}

/// Reads the five integers of a window that stands behind `before` bytes of text.
#[tactic(auto, unfolding(crate::specs::Window::head_at))]
fn read_head(before: usize, bytes: &[u8]) -> Result<Option<(Head, &[u8])>, DiffFault>
    ensures value { Gives (λ x. (x.0, x.1.now)) result (head_at before bytes.now) }
    ensures bounds { IfOk result (λ found. IfSome found (λ x. HasBounds x.0)) }
{
    let Some((offset, rest)) = read_integer(bytes)? else {
        return Ok(None);
    };
    let Some((view, rest)) = read_integer(rest)? else {
        return Ok(None);
    };
    let Some((target, rest)) = read_bounded(LIMIT.saturating_sub(before), rest)? else {
        return Ok(None);
    };
    let Some((section, rest)) = read_bounded(LIMIT, rest)? else {
        return Ok(None);
    };
    let Some((new_data, rest)) = read_bounded(LIMIT, rest)? else {
        return Ok(None);
    };
    let head = Head {
        offset,
        view,
        target,
        section,
        new_data,
    };
    Ok(Some((head, rest)))
}

/// Applies the window at the front to the end of the text, and gives the bytes after it; `None` where it isn't whole.
/// An `Err` may leave more text.
fn apply_window<'a>(
    base: &[u8],
    text: &mut Vec<u8>,
    bytes: &'a [u8],
) -> Result<Option<&'a [u8]>, DiffFault>
    ensures applies { AppliesWindow (λ x. x.now) base.now text.old.items bytes.now result text.new.items }
    ensures grows { SumsGrow text.old.items text.new.items }
{
    let Some((head, rest)) = read_head(text.len(), bytes)? else {
        return Ok(None);
    };
    if base.len() < head.offset + head.view {
        return Err(DiffFault::ViewBeyondBase);
    }
    let size = head.section + head.new_data;
    if rest.len() < size {
        return Ok(None);
    }
    let view = &base[head.offset..head.offset + head.view];
    let (body, behind) = rest.split_at(size);
    let (section, new_data) = body.split_at(head.section);
    let sums = sum_lengths(head.view, section)?;
    if sums.all != head.target || sums.new_data != head.new_data {
        return Err(DiffFault::LengthsDisagree);
    }
    // a text of one window takes no more room than it needs
    text.reserve(head.target)?;
    carry_out(view, section, new_data, text)?;
    Ok(Some(behind))
}

/// Applies the windows at the front, as many as are whole, and gives the bytes after them. An `Err` may leave more
/// text.
pub fn apply_windows<'a>(
    base: &[u8],
    text: &mut Vec<u8>,
    bytes: &'a [u8],
) -> Result<&'a [u8], DiffFault>
    ensures applies { AppliesAll (λ x. x.now) base.now text.old.items bytes.now result
        text.new.items }
    ensures grows { SumsGrow text.old.items text.new.items }
{
    let mut rest = bytes;
    'windows: loop {
        match apply_window(base, text, rest)? {
            Some(behind) => rest = behind,
            None => return Ok(rest),
        }
    }
}

//! The file `current`.
ghost use Rattle.std.specs.Prelude.{◌≡◌, ◌++◌, ◌+◌, ◌*◌, ◌<◌, OnOk, IfOk, IfSome};
ghost use Rattle.fsfs_text.specs.{Reading.Gives, Splits.split_once};
ghost use Rattle.fsfs_nodes.specs.Current.{current_bytes, ids_bytes, next_of, line_of_two, line_of_three, current_line, line_alone, current_of, first_word};

use fsfs_text::{
    FileFault, Format, Layout, append_base_36, append_number, line_at, parse_number, split_once,
};
use std::alloc::AllocError;

/// Says of which format a folder is, which revision is the youngest, and in format 2 which new ids come next.
#[derive(Clone, Copy, Debug, PartialEq, Eq)]
pub struct Current {
    pub format: Format,
    pub youngest: u32,
    pub ids: Option<NextIds>,
}

/// Says which node id and which copy id come next, where these are counted over all revisions.
#[derive(Clone, Copy, Debug, PartialEq, Eq)]
pub struct NextIds {
    pub node: u128,
    pub copy: u128,
}

/// Appends the ids that come next, if there are any, and a line feed.
fn append_ids(out: &mut Vec<u8>, ids: Option<NextIds>) -> Result<(), AllocError>
    ensures { OnOk result (out.new.items ≡ out.old.items ++ ids_bytes ids) }
{
    if let Some(ids) = ids {
        out.push(b' ')?;
        append_base_36(out, ids.node)?;
        out.push(b' ')?;
        append_base_36(out, ids.copy)?;
    }
    out.push(b'\n')?;
    Ok(())
}

/// Appends the file `current`.
pub fn append_current(out: &mut Vec<u8>, current: Current) -> Result<(), AllocError>
    ensures { OnOk result (out.new.items ≡ out.old.items ++ current_bytes current) }
{
    append_number(out, current.youngest as u64)?;
    append_ids(out, current.ids)
}

/// Reads an id that comes next, within its limits.
#[tactic(auto, unfolding(crate::specs::Current::next_of))]
fn parse_next(youngest: u32, text: &[u8]) -> Option<u128>
    ensures { result ≡ next_of youngest text.now }
{
    if text.len() > 24 {
        return None;
    }
    let limit = (youngest as u128 + 1) * 18_446_744_073_709_551_616 - 1;
    parse_number(text, 36, limit)
}

/// Reads the line of the file in format 2.
#[tactic(auto, unfolding(crate::specs::Current::line_of_two))]
fn parse_two(line: &[u8]) -> Option<Current>
    ensures line { result ≡ line_of_two line.now }
    ensures format { IfSome result (λ current. current.format ≡ Format.Two) }
{
    let (youngest, rest) = split_once(line, b' ')?;
    let (node, copy) = split_once(rest, b' ')?;
    let youngest = parse_number(youngest, 10, 262_143)? as u32;
    let node = parse_next(youngest, node)?;
    let copy = parse_next(youngest, copy)?;
    Some(Current {
        format: Format::Two,
        youngest,
        ids: Some(NextIds { node, copy }),
    })
}

/// Gives the bytes before the first space, or all where there is none.
fn first_word(line: &[u8]) -> &[u8]
    ensures { result.now ≡ first_word line.now (split_once 32 line.now) }
{
    match split_once(line, b' ') {
        Some((word, _)) => word,
        None => line,
    }
}

/// Reads the line of the file in format 3. What comes after its first space is skipped.
#[tactic(auto, unfolding(crate::specs::Current::line_of_three))]
fn parse_three(layout: Layout, line: &[u8]) -> Option<Current>
    ensures line { result ≡ line_of_three layout line.now }
    ensures format { IfSome result (λ current. current.format ≡ Format.Three layout) }
{
    let youngest = parse_number(first_word(line), 10, 262_143)? as u32;
    Some(Current {
        format: Format::Three(layout),
        youngest,
        ids: None,
    })
}

/// Reads the line of the file.
fn parse_line(format: Format, line: &[u8]) -> Option<Current>
    ensures line { result ≡ current_line format line.now }
    ensures format { IfSome result (λ current. current.format ≡ format) }
{
    match format {
        Format::Two => parse_two(line),
        Format::Three(layout) => parse_three(layout, line),
    }
}

/// Reads the one line that the file has.
///
/// # Errors
///
/// `Truncated` where its line feed is missing, `BadLine` where more comes behind it.
pub(crate) fn read_line_alone(bytes: &[u8]) -> Result<&[u8], FileFault>
    ensures { Gives (λ line. line.now) result (line_alone bytes.now) }
{
    let (line, behind) = line_at(bytes)?;
    if behind.is_empty() {
        Ok(line)
    } else {
        Err(FileFault::BadLine)
    }
}

/// Reads the file `current` of a folder of the format.
///
/// # Errors
///
/// `Truncated` where its line is cut short, `BadLine` where it says anything else.
#[tactic(auto, unfolding(crate::specs::Current::current_of))]
pub fn read_current(format: Format, bytes: &[u8]) -> Result<Current, FileFault>
    ensures says { Gives (λ current. current) result (current_of format bytes.now) }
    ensures format { IfOk result (λ current. current.format ≡ format) }
{
    match parse_line(format, read_line_alone(bytes)?) {
        Some(current) => Ok(current),
        None => Err(FileFault::BadLine),
    }
}

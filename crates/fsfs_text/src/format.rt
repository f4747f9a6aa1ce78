//! Formats and layouts.
ghost use Rattle.std.specs.{Prelude.{◌≡◌, ◌++◌, IfErr, OnOk, option_copied}, Result.result_ok};
ghost use Rattle.fsfs_text.specs.Formats.{format_bytes, format_of, layout_bytes, layout_in, layout_of, layout_said, shard_in, sharded_bytes, sharded_said};
ghost use Rattle.fsfs_text.specs.Formats.{size_of};

use crate::fault::FileFault;
use crate::numeral::{append_number, parse_number};
use crate::split::{split_once, without_prefix};
use std::alloc::AllocError;

/// Says in which folders the files of revisions are.
#[derive(Clone, Copy, Debug, PartialEq, Eq)]
pub enum Layout {
    /// All of them are in one folder.
    Linear,
    /// Each folder, a shard, has the files of this many revisions.
    Sharded(u32),
}

/// Says of which format the files of a repository are.
#[derive(Clone, Copy, Debug, PartialEq, Eq)]
pub enum Format {
    /// New ids are counted over all revisions.
    Two,
    /// New ids are counted in each revision.
    Three(Layout),
}

impl Layout {
    /// Gives the shard that the files of a revision are in, if there are shards.
    pub fn shard(self, number: u32) -> Option<u32>
        ensures { result ≡ shard_in self number }
    {
        match self {
            Layout::Linear => None,
            Layout::Sharded(size) => number.checked_div(size),
        }
    }
}

impl Format {
    /// Gives the layout of the revisions' files.
    pub fn layout(self) -> Layout
        ensures { result ≡ layout_of self }
    {
        match self {
            Format::Two => Layout::Linear,
            Format::Three(layout) => layout,
        }
    }
}

/// Appends the line of a layout whose shards have this many revisions.
fn append_sharded(out: &mut Vec<u8>, size: u32) -> Result<(), AllocError>
    ensures { OnOk result (out.new.items ≡ out.old.items ++ sharded_bytes size) }
{
    out.extend_from_slice(b"layout sharded ")?;
    append_number(out, size as u64)?;
    out.push(b'\n')?;
    Ok(())
}

/// Appends the line of a layout.
fn append_layout(out: &mut Vec<u8>, layout: Layout) -> Result<(), AllocError>
    ensures { OnOk result (out.new.items ≡ out.old.items ++ layout_bytes layout) }
{
    match layout {
        Layout::Linear => out.extend_from_slice(b"layout linear\n"),
        Layout::Sharded(size) => append_sharded(out, size),
    }
}

/// Appends the file `format`.
pub fn append_format(out: &mut Vec<u8>, format: Format) -> Result<(), AllocError>
    ensures { OnOk result (out.new.items ≡ out.old.items ++ format_bytes format) }
{
    match format {
        Format::Two => out.extend_from_slice(b"2\n"),
        Format::Three(layout) => {
            out.extend_from_slice(b"3\n")?;
            append_layout(out, layout)
        }
    }
}

/// Reads how many revisions a shard has: 1 to 262,144, without leading zeros.
fn parse_size(digits: &[u8]) -> Option<u32>
    ensures { result ≡ size_of digits.now }
{
    if digits.is_empty() || digits[0] == b'0' {
        return None;
    }
    let size = parse_number(digits, 10, 262_144)?;
    Some(size as u32)
}

/// Reads the line of a layout with shards, which ends the file.
#[tactic(auto, unfolding(crate::specs::Formats::sharded_said))]
fn parse_sharded(bytes: &[u8]) -> Option<Layout>
    ensures { result ≡ sharded_said bytes.now }
{
    let rest = without_prefix(bytes, b"layout sharded ")?;
    let (digits, after) = split_once(rest, b'\n')?;
    if !after.is_empty() {
        return None;
    }
    let size = parse_size(digits)?;
    Some(Layout::Sharded(size))
}

/// Reads the line of a layout, which ends the file. Where it is missing, the layout is linear.
#[tactic(auto, unfolding(crate::specs::Formats::layout_said))]
fn parse_layout(bytes: &[u8]) -> Option<Layout>
    ensures { result ≡ layout_said bytes.now }
{
    if bytes.is_empty() || bytes == b"layout linear\n".as_slice() {
        return Some(Layout::Linear);
    }
    parse_sharded(bytes)
}

/// Reads the format that the file says.
#[tactic(auto, unfolding(crate::specs::Formats::format_of))]
fn parse_format(bytes: &[u8]) -> Option<Format>
    ensures { result ≡ format_of bytes.now }
{
    if bytes == b"2\n".as_slice() {
        return Some(Format::Two);
    }
    let rest = without_prefix(bytes, b"3\n")?;
    let layout = parse_layout(rest)?;
    Some(Format::Three(layout))
}

/// Reads the file `format`.
///
/// # Errors
///
/// `WrongFormat` where it says anything else.
pub fn read_format(bytes: &[u8]) -> Result<Format, FileFault>
    ensures format { result_ok result ≡ format_of bytes.now }
    ensures fault { IfErr result (λ fault. fault ≡ FileFault.WrongFormat) }
{
    match parse_format(bytes) {
        Some(format) => Ok(format),
        None => Err(FileFault::WrongFormat),
    }
}

/// Gives the layout that the file `format` says: linear where it says none, or is missing.
pub fn layout_in(format: Option<&[u8]>) -> Layout
    ensures { result ≡ layout_in (option_copied format.entry) }
{
    let Some(bytes) = format else {
        return Layout::Linear;
    };
    match parse_format(bytes) {
        Some(format) => format.layout(),
        None => Layout::Linear,
    }
}

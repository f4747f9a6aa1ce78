//! Merge sources as lines.
ghost use Rattle.std.specs.Prelude.{◌≡◌, ◌++◌, IfOk, OnOk};
ghost use Rattle.mergeinfo.specs.Texts.{is_blank, source_of, source_text, without_first_blanks};

use crate::path::parse_path;
use crate::range::{Range, append_ranges, parse_ranges};
use fsfs_text::split_last;
use std::alloc::{AllocError, Global};
use std::marker::Model;
use svnpath::Path;

/// A path, and the ranges of its revisions that were merged.
#[derive(Debug)]
pub struct Source {
    path: Path,
    ranges: Vec<Range>,
}

impl Drop for Source {
    fn drop(self) {
        let Source { path: _, ranges: _ } = self;
    }
}

impl Model for Source {
    ghost use Rattle.mergeinfo.specs.Sources.{SourceValue};

    ghost Value = { SourceValue };

    ghost view = { λ s. record { path = s.path; ranges = s.ranges.items } };
}

impl Source {
    ghost use Rattle.std.specs.Prelude.{◌≡◌};

    /// Makes the source of this path, with these ranges.
    pub(crate) fn new(path: Path, ranges: Vec<Range>) -> Self
        ensures { result ≡ record { path = path; ranges = ranges.items } }
    {
        Source { path, ranges }
    }

    /// Gives the path.
    pub fn path(&self) -> &Path
        ensures { result.now ≡ self.now.path }
    {
        &self.path
    }

    /// Gives the ranges.
    pub fn ranges(&self) -> &[Range]
        ensures { result.now ≡ self.now.ranges }
    {
        self.ranges.as_slice()
    }

    /// Gives the path and the ranges, to keep.
    pub(crate) fn into_parts(self) -> (Path, Vec<Range>)
        ensures path { result.0 ≡ self.path }
        ensures ranges { result.1.items ≡ self.ranges }
    {
        let Source { path, ranges } = self;
        (path, ranges)
    }
}

/// Says whether the byte is white and ends no line.
fn is_blank(byte: u8) -> bool
    ensures { result ≡ is_blank byte }
{
    byte == b' ' || (9..=13).contains(&byte)
}

/// Gives the bytes from the first one on that is not blank.
fn without_first_blanks(text: &[u8]) -> &[u8]
    ensures { result.now ≡ without_first_blanks text.now }
{
    let count = text.iter().take_while(|byte| is_blank(**byte)).count();
    &text[count..]
}

/// Reads a line, which has no end.
#[tactic(auto, unfolding(crate::specs::Texts::source_of))]
pub(crate) fn parse_source(alloc: Global, line: &[u8]) -> Result<Option<Source>, AllocError>
    ensures { IfOk result (λ source. source ≡ source_of line.now) }
{
    let Some((path, ranges)) = split_last(line, b':') else {
        return Ok(None);
    };
    let Some(path) = parse_path(alloc, path)? else {
        return Ok(None);
    };
    match parse_ranges(alloc, without_first_blanks(ranges))? {
        Some(ranges) => Ok(Some(Source::new(path, ranges))),
        None => Ok(None),
    }
}

/// Appends the line of a source, without its end.
pub(crate) fn append_source(out: &mut Vec<u8>, source: &Source) -> Result<(), AllocError>
    ensures { OnOk result (out.new.items ≡ out.old.items ++ source_text source.now) }
{
    source.path.append_text(out)?;
    out.push(b':')?;
    append_ranges(out, source.ranges.as_slice())
}

//! Merge information: its sources, read and written.
ghost use Rattle.std.specs.{Prelude.{◌≡◌, ◌+◌, ◌<◌, ◌≤◌, ◌∷◌, ◌++◌, List, length, All, IfOk, IfSome, OnOk}, List.filter};
ghost use Rattle.svnpath.specs.{Components.IsComponent, declared.component.TheConstants.DEPTH_LIMIT};
ghost use Rattle.mergeinfo.specs.{Gathered.{items_of, IsAdded, IsGathered, IsGatheredFrom}, Ranges.IsRightRange};
ghost use Rattle.mergeinfo.specs.{Sources.{SourceValue, IsNormalFormOf, IsRightSource, inherited}, Texts.{lines_of, without_comma, written, IsReadFrom}};

use crate::normal::in_order;
use crate::range::Range;
use crate::source::{Source, append_source, parse_source};
use byte_string::ByteString;
use fsfs_text::split_once;
use std::alloc::{AllocError, Global};
use std::collections::BTreeMap;
use std::marker::Model;
use svnpath::Path;

/// Merge information: sources in the order of their paths.
#[derive(Debug)]
pub struct MergeInfo {
    sources: Vec<Source>,
}

impl Drop for MergeInfo {
    fn drop(self) {
        let MergeInfo { sources: _ } = self;
    }
}

impl Model for MergeInfo {
    ghost use Rattle.std.specs.Prelude.{List};
    ghost use Rattle.mergeinfo.specs.Sources.{SourceValue};

    ghost Value = { List SourceValue };

    ghost view = { λ m. m.sources.items };
}

/// Gives the line without a comma at its end.
fn without_comma(line: &[u8]) -> &[u8]
    ensures { result.now ≡ without_comma line.now }
{
    line.strip_suffix(b",".as_slice()).unwrap_or(line)
}

/// Gives the first line, without its end and a comma before that, and the bytes after its end.
fn split_line(value: &[u8]) -> (&[u8], &[u8])
    requires { 0 < length value.now }
    ensures lines { lines_of value.now ≡ result.0.now ∷ lines_of result.1.now }
    ensures shorter { length result.1.now < length value.now }
{
    match split_once(value, b'\n') {
        Some((line, rest)) => (without_comma(line), rest),
        None => (value, &[]),
    }
}

/// Gives the ranges before, if there are any, and the others after them.
fn joined(before: Option<Vec<Range>>, ranges: Vec<Range>) -> Result<Vec<Range>, AllocError>
    ensures { IfOk result (λ all. all.items ≡ items_of before ++ ranges.items) }
{
    match before {
        Some(before) => {
            let mut all = before;
            all.extend_from_slice(ranges.as_slice())?;
            Ok(all)
        }
        None => Ok(ranges),
    }
}

/// Adds ranges to those of the path.
fn add(
    gathered: &mut BTreeMap<Path, Vec<Range>>,
    path: Path,
    ranges: Vec<Range>,
) -> Result<(), AllocError>
    ensures { OnOk result (IsAdded path ranges.items gathered.old.entries gathered.new.entries) }
{
    let before = gathered.remove(&path);
    let all = joined(before, ranges)?;
    gathered.insert(path, all)?;
    Ok(())
}

/// Gathers the ranges of each path that the lines name, or nothing where one of them is no source.
fn gather(alloc: Global, value: &[u8]) -> Result<Option<BTreeMap<Path, Vec<Range>>>, AllocError>
    ensures { IfOk result (IsGatheredFrom value.now) }
{
    let mut gathered = BTreeMap::new(alloc);
    let mut rest = value;
    while !rest.is_empty() {
        let (line, after) = split_line(rest);
        let Some(source) = parse_source(alloc, line)? else {
            return Ok(None);
        };
        let (path, ranges) = source.into_parts();
        add(&mut gathered, path, ranges)?;
        rest = after;
    }
    Ok(Some(gathered))
}

impl MergeInfo {
    /// Makes the normal form of what was gathered. A path without ranges is no source.
    fn from_gathered(
        alloc: Global,
        gathered: BTreeMap<Path, Vec<Range>>,
    ) -> Result<Self, AllocError>
        ensures { (sources : List SourceValue) → IsGathered sources gathered.entries
            → IfOk result (IsNormalFormOf sources) }
    {
        let mut sources = Vec::new(alloc);
        for (path, ranges) in gathered {
            let ranges = in_order(alloc, ranges.as_slice())?;
            if !ranges.as_slice().is_empty() {
                sources.push(Source::new(path, ranges))?;
            }
        }
        Ok(MergeInfo { sources })
    }

    /// Reads a value of `svn:mergeinfo`; `None` where it is no merge information.
    pub fn read(alloc: Global, value: &[u8]) -> Result<Option<Self>, AllocError>
        ensures value { IfOk result (IsReadFrom value.now) }
        ensures right { IfOk result (λ info. IfSome info (All IsRightSource)) }
    {
        match gather(alloc, value)? {
            Some(gathered) => Ok(Some(MergeInfo::from_gathered(alloc, gathered)?)),
            None => Ok(None),
        }
    }

    /// Gives the sources.
    pub fn sources(&self) -> &[Source]
        ensures { result.now ≡ self.now }
    {
        self.sources.as_slice()
    }

    /// Writes the value.
    pub fn write(&self, alloc: Global) -> Result<ByteString, AllocError>
        ensures { IfOk result (λ value. value ≡ written self.now) }
    {
        let mut out = Vec::new(alloc);
        append_sources(&mut out, self.sources.as_slice())?;
        Ok(ByteString::new(out))
    }

    /// Makes what an entry inherits whose path is this rest beneath the path that has the merge information: the ranges that
    /// are inheritable, with the rest after the path of each source.
    pub fn inherited(&self, alloc: Global, rest: &Path) -> Result<Self, AllocError>
        ensures value { IfOk result (IsNormalFormOf (inherited rest.now self.now)) }
        ensures ranges { All (λ source. All IsRightRange source.ranges) self.now
            → IfOk result (All (λ source. All IsRightRange source.ranges)) }
        ensures right { All IsRightSource self.now → All IsComponent rest.now
            → All (λ source. length source.path + length rest.now ≤ DEPTH_LIMIT) self.now
            → IfOk result (All IsRightSource) }
    {
        let mut gathered = BTreeMap::new(alloc);
        for source in self.sources() {
            let path = rest.rebased(alloc, &Path::root(alloc), source.path())?;
            add(&mut gathered, path, inheritable(alloc, source.ranges())?)?;
        }
        MergeInfo::from_gathered(alloc, gathered)
    }
}

/// Copies the ranges that are inheritable.
fn inheritable(alloc: Global, ranges: &[Range]) -> Result<Vec<Range>, AllocError>
    ensures { IfOk result (λ kept. kept.items
        ≡ filter (λ range. range.is_inheritable) ranges.now) }
{
    let mut kept = Vec::new(alloc);
    for range in ranges {
        if range.is_inheritable {
            kept.push(*range)?;
        }
    }
    Ok(kept)
}

/// Appends the lines of the sources, with line feeds between them.
fn append_sources(out: &mut Vec<u8>, sources: &[Source]) -> Result<(), AllocError>
    ensures { OnOk result (out.new.items ≡ out.old.items ++ written sources.now) }
{
    let Some((first, others)) = sources.split_first() else {
        return Ok(());
    };
    append_source(out, first)?;
    for source in others {
        out.push(b'\n')?;
        append_source(out, source)?;
    }
    Ok(())
}

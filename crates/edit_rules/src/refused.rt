//! At which path of the repository a command of an edit is refused.
ghost use Rattle.std.specs.{Prelude.{◌≡◌, IfOk}, Result.result_ok};
ghost use Rattle.svnpath.specs.Texts.{joined};
ghost use Rattle.edit_rules.specs.{Refused.{own_or_source, path_of_source}, Refusing.source_path};

use crate::judging::source_path;
use byte_string::ByteString;
use refusals::Refusal;
use std::alloc::{AllocError, Global};
use std::mem::drop;
use svnpath::{Path, PathFault};
use wire_edits::AddedEntry;

/// Gives the path that a text names, if it names one.
pub fn path_refused(
    alloc: Global,
    root: &Path,
    text: &ByteString,
) -> Result<Option<Path>, AllocError>
    ensures { IfOk result (λ path. path ≡ result_ok (joined root.now text.now)) }
{
    match root.join(alloc, text.as_slice()) {
        Ok(path) => Ok(Some(path)),
        Err(PathFault::NoMemory) => Err(AllocError),
        Err(_) => Ok(None),
    }
}

/// Gives the path that the text of a copy's source names, if it names one.
fn source_refused(alloc: Global, name: &str, text: &[u8]) -> Result<Option<Path>, AllocError>
    ensures { IfOk result (λ path. path ≡ result_ok (source_path name.now text.now)) }
{
    match source_path(alloc, name, text) {
        Ok(path) => Ok(Some(path)),
        Err(PathFault::NoMemory) => Err(AllocError),
        Err(_) => Ok(None),
    }
}

/// Gives the path of a copy's source, if a command names one.
fn path_of_source(
    alloc: Global,
    name: &str,
    source: &Option<(ByteString, u64)>,
) -> Result<Option<Path>, AllocError>
    ensures { IfOk result (λ path. path ≡ path_of_source name.now source.now) }
{
    match source {
        None => Ok(None),
        Some((text, _)) => source_refused(alloc, name, text.as_slice()),
    }
}

/// Gives the path at which what is added is refused: its own, or that of a copy's source, unless something is in its
/// place.
fn own_or_source(refusal: Refusal, own: Option<Path>, source: Option<Path>) -> Option<Path>
    ensures { result ≡ own_or_source refusal own source }
{
    match refusal {
        Refusal::OutOfDate => {
            drop(source);
            own
        }
        _ => source.or(own),
    }
}

/// Gives the path at which what is added is refused, in an edit at this path of the repository of this name.
pub fn added_at(
    alloc: Global,
    root: &Path,
    name: &str,
    entry: &AddedEntry,
    refusal: Refusal,
) -> Result<Option<Path>, AllocError>
    ensures { IfOk result (λ path. path ≡ own_or_source refusal
        (result_ok (joined root.now entry.now.path))
        (path_of_source name.now entry.now.source)) }
{
    let own = path_refused(alloc, root, &entry.path)?;
    let source = path_of_source(alloc, name, &entry.source)?;
    Ok(own_or_source(refusal, own, source))
}

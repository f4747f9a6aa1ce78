//! What a line of a node revision gives.
ghost use Rattle.std.specs.Prelude.{◌≡◌, IfOk, Decides};
ghost use Rattle.filed_trees.specs.{Pieces.RevisionBytes, Comparing.{CameWith, IsBody, IsHere}, Readable.{IsKept, IsSaid, ReadsWhere}};

use fsfs_text::{FileFault, Representation};
use repo_api::FileText;

/// Says what a line gives: nothing where there is none, what came with it, or what the predecessor's
/// line gives.
#[derive(Clone, Copy)]
pub(crate) enum Body<'a> {
    Empty,
    New(&'a FileText),
    Kept,
}

/// Says whether two lines are the same.
fn is_same_line(line: Representation, other: Representation) -> bool
    ensures { Decides result (line ≡ other) }
{
    line == other
}

/// Finds what a line of a node revision of this revision gives. A line of another revision has to be
/// the predecessor's.
///
/// # Errors
///
/// `Dangling` where it is neither.
pub(crate) fn body_of<'a>(
    revision: u32,
    line: Option<Representation>,
    new: &'a Option<FileText>,
    kept: Option<Representation>,
) -> Result<Body<'a>, FileFault>
    ensures body { IfOk result (λ body. (files : RevisionBytes)
        → CameWith files revision line new.now → IsBody files line kept body) }
    ensures read { IsHere revision line new.now → ReadsWhere result (IsKept line new.now kept)
        (IsSaid line new.now) }
{
    let Some(line) = line else {
        return Ok(Body::Empty);
    };
    if line.revision == revision {
        return match new {
            Some(bytes) => Ok(Body::New(bytes)),
            None => Err(FileFault::Dangling),
        };
    }
    match kept {
        Some(kept) if is_same_line(line, kept) => Ok(Body::Kept),
        _ => Err(FileFault::Dangling),
    }
}

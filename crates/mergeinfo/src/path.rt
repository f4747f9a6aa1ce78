//! Paths of merge sources.
ghost use Rattle.std.specs.Prelude.{◌≡◌, IfOk};
ghost use Rattle.mergeinfo.specs.Texts.{is_named, path_of};

use byte_string::ByteString;
use std::alloc::{AllocError, Global};
use svnpath::{DEPTH_LIMIT, Path, is_component};

/// Says whether what stands between two slashes is neither empty nor `.`.
fn is_named(part: &[u8]) -> bool
    ensures { result ≡ is_named part.now }
{
    !part.is_empty() && part != b".".as_slice()
}

/// Reads a path, whose slashes may be too many or too few.
pub(crate) fn parse_path(alloc: Global, text: &[u8]) -> Result<Option<Path>, AllocError>
    ensures { IfOk result (λ path. path ≡ path_of text.now) }
{
    let mut path = Path::root(alloc);
    for part in text.split(|byte| *byte == b'/') {
        if is_named(part) {
            if !is_component(part) || path.len() >= DEPTH_LIMIT {
                return Ok(None);
            }
            path = path.child(alloc, ByteString::from_slice(alloc, part)?)?;
        }
    }
    Ok(Some(path))
}

//! What the rules of edits, of locks and of properties of revisions share.
ghost use Rattle.std.specs.Prelude.{◌≡◌};
ghost use Rattle.repo_api.specs.Judging.{is_older, is_property_name};

use crate::limits::PROPERTY_NAME_LIMIT;

/// Says whether the revision that a client has seen is below the one of the last change.
pub fn is_older(seen: Option<u64>, changed: Option<u64>) -> bool
    ensures { result ≡ is_older seen changed }
{
    match (seen, changed) {
        (Some(seen), Some(changed)) => seen < changed,
        _ => false,
    }
}

/// Says whether a property may have this name: it has 1 to 255 bytes.
pub fn is_property_name(name: &[u8]) -> bool
    ensures { result ≡ is_property_name name.now }
{
    0 < name.len() && name.len() <= PROPERTY_NAME_LIMIT
}

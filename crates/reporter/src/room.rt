//! How much memory a report may take.
use crate::graft::Graft;
use byte_string::ByteString;
use std::alloc::AllocError;
use svnpath::Path;

/// About how many bytes of memory the grafts of a report take at most: 128 MiB.
const REPORT_LIMIT: usize = 134_217_728;

/// What a graft counts as beside its paths and its token, in bytes.
const GRAFT: usize = 256;

/// What a name counts as beside its bytes.
const NAME: usize = 64;

/// Estimates how many bytes of memory the names of a path take.
fn path_weight(path: &Path) -> usize {
    let mut weight: usize = 0;
    for name in path.components() {
        weight = weight.saturating_add(NAME.saturating_add(name.as_slice().len()));
    }
    weight
}

/// Says how many bytes a token has, if there is one.
fn token_len(token: &Option<ByteString>) -> usize {
    match token {
        None => 0,
        Some(token) => token.as_slice().len(),
    }
}

/// Estimates how many bytes of memory a graft takes, its place in the index too.
fn weight(graft: &Graft) -> usize {
    let token = match &graft.subtree {
        None => 0,
        Some(subtree) => token_len(&subtree.token),
    };
    let path = path_weight(&graft.path);
    GRAFT
        .saturating_add(path)
        .saturating_add(path)
        .saturating_add(path_weight(&graft.from))
        .saturating_add(token)
}

/// Counts how many bytes grafts take that took so many before one more. An `Err` is that they are too many; no clause
/// says when.
pub(crate) fn taken_with(taken: usize, graft: &Graft) -> Result<usize, AllocError> {
    let taken = taken.saturating_add(weight(graft));
    if taken > REPORT_LIMIT {
        return Err(AllocError);
    }
    Ok(taken)
}

//! What a report puts at a path.
ghost use Rattle.std.specs.Prelude.{◌≡◌};
ghost use Rattle.reporter.specs.Depths.{is_shallow, is_to_the_end};

use byte_string::ByteString;
use drive_rules::Depth;
use svnpath::Path;

/// What stands at and under a path of the repository in a revision, as much of it as is reported.
#[derive(Debug, Drop)]
pub struct Subtree {
    pub revision: u64,
    /// Whether the client has its top alone.
    pub starts_empty: bool,
    pub depth: Depth,
    /// The token of the lock that the client has of its top.
    pub token: Option<ByteString>,
}

/// What a report puts at a path, in the place of what stood there: a subtree, or nothing.
#[derive(Debug, Drop)]
pub struct Graft {
    /// The path, from the anchor on.
    pub path: Path,
    /// The path in the repository that it stands for from now on.
    pub from: Path,
    /// Whether the path is linked to a URL.
    pub is_link: bool,
    /// Whether the client excludes the path.
    pub is_excluded: bool,
    pub subtree: Option<Subtree>,
}

/// Says whether everything beneath a directory is reported, or asked for.
pub fn is_to_the_end(depth: Depth) -> bool
    ensures { result ≡ is_to_the_end depth }
{
    match depth {
        Depth::Infinity => true,
        Depth::Immediates | Depth::Files | Depth::Empty => false,
    }
}

/// Says whether less than everything is reported of what a graft puts.
pub(crate) fn is_shallow(graft: &Graft) -> bool
    ensures { result ≡ is_shallow graft.now }
{
    match &graft.subtree {
        None => false,
        Some(subtree) => !is_to_the_end(subtree.depth),
    }
}

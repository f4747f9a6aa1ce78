//! How far back the marks at and above a path go.
ghost use Rattle.std.specs.Prelude.{◌≤◌, IfSome};
ghost use Rattle.repo_api.specs.Histories.{history_of, IsQuietSince};
ghost use Rattle.history_marks.specs.Sound.{IsSoundRepo};
ghost use Rattle.noderevs.specs.{Held.node_at, Views.shared_tree};
ghost use Rattle.shared_revisions.specs.{Contents.held_state, Settling.IsSettledFrom};

use crate::held::Held;
use byte_string::ByteString;
use noderevs::{NodeId, Nodes};
use svnpath::Path;

impl Held {
    /// Gives the newest of the marks at the path and above it in the revision's tree, if that is before the revision,
    /// else the revision. It takes no memory.
    pub fn settled(&self, revision: u64, path: &Path) -> u64
        requires { ∥ IsSoundRepo (held_state self.now) ∥₁ }
        ensures within { result ≤ revision }
        ensures quiet { IsQuietSince (history_of (held_state self.now)) path.now result revision }
    {
        match newest_mark(&self.nodes, self.nodes.root(revision), path.components()) {
            Some(newest) if newest < revision => newest,
            _ => revision,
        }
    }
}

/// Gives the newest revision of `last` at the path and of `own` there and above, `None` where nothing exists.
fn newest_mark(nodes: &Nodes, root: Option<NodeId>, path: &[ByteString]) -> Option<u64>
    ensures { IfSome result (IsSettledFrom (shared_tree (node_at nodes.now) root) path.now) }
{
    let mut at = root?;
    let mut newest = nodes.node(at)?.own.rev as u64;
    let mut last = at.rev as u64;
    for name in path {
        at = nodes.kid(Some(at), name)?;
        newest = newest.max(nodes.node(at)?.own.rev as u64);
        last = at.rev as u64;
    }
    Some(newest.max(last))
}
